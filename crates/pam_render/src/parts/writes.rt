//! Writes that fail.

ghost use Rattle.std.specs.Prelude.{◌≡◌, Err, MatchResult, Ok};
ghost use Rattle.pam_report.specs.declared.fault.Fault.TheVariants as faults;

use pam_report::Fault;
use pam_text::Device;

/// Returns the fault of a write that failed.
pub fn with_write_fault(written: Result<(), Device>) -> Result<(), Fault>
    ensures { MatchResult written (λ none. result ≡ Ok none) (λ _. result ≡ Err faults.Device) }
{
    match written {
        Ok(()) => Ok(()),
        Err(Device) => Err(Fault::Device),
    }
}
