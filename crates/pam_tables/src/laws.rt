//! Laws of the definitions that contracts use. Each is the contract of a function with an empty body.

ghost use Rattle.pam_tables.specs.FaultLaws.{FirstAccessFaultIsTheReadings, FirstGroupFaultIsTheReadings};

/// A table has a fault exactly where reading it gives one, and the first is the one that is given.
pub fn the_first_fault_is_that_of_the_reading()
    ensures access { FirstAccessFaultIsTheReadings }
    ensures groups { FirstGroupFaultIsTheReadings }
{}
