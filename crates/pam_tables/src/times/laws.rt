//! Laws of the definitions that contracts use. Each is the contract of a function with an empty body.

ghost use Rattle.pam_tables.specs.times.Faults.{FirstFaultIsTheReadings};
ghost use Rattle.pam_tables.specs.times.Laws.{ListsAreWrittenInOneWay};

/// A text is read as a list of items if and only if its signs spell them, so it spells at most one list.
pub fn lists_are_written_in_one_way()
    ensures { ListsAreWrittenInOneWay }
{}

/// A table has a fault exactly where reading it gives one, and the first is the one that is given.
pub fn the_first_fault_is_that_of_the_reading()
    ensures { FirstFaultIsTheReadings }
{}
