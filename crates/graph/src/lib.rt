// Why the table of least lengths tells which skews are possible: each law stands on the contract of a function.
#![tactic(auto)]

ghost use Rattle.graph.specs.Examples.{WorkedExamplesHold};
ghost use Rattle.graph.specs.Laws.{MeetingIsKeepingTheLegs, CellsThatAgreeAreOne, TablesAreUnique, NoRecordsHaveATable, TheUpdateIsTheTable, ATableOrALeastConflict, RefusedExactlyWhenNoSchedule, TheFirstRefusedIsTheLeastConflict, ARangeIsWhatSchedulesHave, OneFinalTime, FinalTimesMeetTheList, CellsStayWithin, NoScheduleExactlyWhenARing, NoScheduleWithARecordExactlyWhenARing, ARingHasAtMostNSteps};

// A schedule meets a record exactly when it keeps the record's legs.
pub fn meeting_is_keeping_the_legs()
    ensures meets { MeetingIsKeepingTheLegs }
{}

// What is read from cells is the same of any cells that agree with them between the pins.
pub fn cells_that_agree_are_one()
    ensures one { CellsThatAgreeAreOne }
{}

// Lists with the same records, in any order and however often, have one table.
pub fn tables_are_unique()
    ensures unique { TablesAreUnique }
{}

// Without records a pin reaches only itself.
pub fn no_records_have_a_table()
    ensures table { NoRecordsHaveATable }
{}

// With a record added that is not refused, the formula turns the table of a list into that of the longer list.
pub fn the_update_is_the_table()
    ensures table { TheUpdateIsTheTable }
{}

// Any list has a table, or a least conflict with a table before it.
pub fn a_table_or_a_least_conflict()
    ensures either { ATableOrALeastConflict }
{}

// Given the table, a record is refused exactly when no schedule meets the list and the record.
pub fn refused_exactly_when_no_schedule()
    ensures refused { RefusedExactlyWhenNoSchedule }
{}

// Where the records before have a table, one that is refused is where the list first has no schedule.
pub fn the_first_refused_is_the_least_conflict()
    ensures conflict { TheFirstRefusedIsTheLeastConflict }
{}

// Given the table, the range of a pair holds exactly the skews of the schedules that meet the list.
pub fn a_range_is_what_schedules_have()
    ensures range { ARangeIsWhatSchedulesHave }
{}

// Where the diagonal is zero, by a table or not, each pin has one final time.
pub fn one_final_time()
    ensures unique { OneFinalTime }
{}

// Given the table, the final times meet the list, and none is above zero.
pub fn final_times_meet_the_list()
    ensures meets { FinalTimesMeetTheList }
{}

// Where no number of an end is above a limit in size, none of a cell is above n − 1 times the limit.
pub fn cells_stay_within()
    ensures bound { CellsStayWithin }
{}

// A list has a ring exactly when no schedule meets it, so there is always a ring to show.
pub fn no_schedule_exactly_when_a_ring()
    ensures ring { NoScheduleExactlyWhenARing }
{}

// A proposed record that no schedule meets with the list has a ring to show, over the list with it put before.
pub fn no_schedule_with_a_record_exactly_when_a_ring()
    ensures ring { NoScheduleWithARecordExactlyWhenARing }
{}

// A ring of records on n pins has no more steps than pins.
pub fn a_ring_has_at_most_n_steps()
    ensures bound { ARingHasAtMostNSteps }
{}

// The worked examples, all of the list, are as the definitions say.
pub fn worked_examples_hold()
    ensures examples { WorkedExamplesHold }
{}
