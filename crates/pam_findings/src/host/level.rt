//! How grave a finding is.

ghost use Rattle.std.specs.Prelude.{◌≡◌};
ghost use Rattle.pam_findings.specs.host.Levels.{level_of};

use crate::host::problem::{ArgumentProblem, Problem};
use pam_explain::Level;
use pam_facts::arguments::Reaction;

impl Problem {
    /// How grave the problem is: as its row says, unless the problem itself tells more.
    pub fn level(self) -> Level
        ensures { result ≡ level_of self }
    {
        match self {
            Problem::IncludedFromVendor {
                is_at_include: false,
            } => Level::Warning,
            Problem::LetsAnybodyIn {
                is_greeter: true,
                ..
            }
            | Problem::NoModule { is_dashed: true }
            | Problem::OtherAnswers {
                has_no_rule: false,
                lets_nobody_in: false,
                ..
            }
            | Problem::CallerIsRoot { is_daemon: false }
            | Problem::Argument {
                wrong: ArgumentProblem::Unknown(Reaction::Ignores),
                ..
            } => Level::Note,
            _ => self.row().level,
        }
    }
}
