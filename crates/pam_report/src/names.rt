//! The names of kinds, and the stacks that problems are about.

ghost use Rattle.std.specs.Prelude.{◌≡◌};
ghost use Rattle.pam_report.specs.Names as spec;

use pam_conf::Kind;
use pam_findings::host::Problem;

/// Returns the name of a kind.
pub fn kind_name(kind: Kind) -> &'static str
    ensures { result.now ≡ spec.kind_name kind }
{
    match kind {
        Kind::Auth => "auth",
        Kind::Account => "account",
        Kind::Password => "password",
        Kind::Session => "session",
    }
}

/// Returns the kind of a problem of a whole stack, and the position of its service; `None` in its place where a file is the cause.
pub fn stack_of(problem: Problem) -> Option<(Option<usize>, Kind)>
    ensures { result ≡ spec.stack_of problem }
{
    match problem {
        Problem::LetsNobodyIn { service, kind } => Some((service, kind)),
        Problem::LetsAnybodyIn { service, .. } => Some((service, Kind::Auth)),
        Problem::TooLarge { service, kind } | Problem::OtherAnswers { service, kind, .. } => {
            Some((Some(service), kind))
        }
        _ => None,
    }
}
