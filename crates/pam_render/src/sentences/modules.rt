//! What `check` says of the module of a rule: what is wrong, and how to mend it, with the path of the module.

ghost use Rattle.std.specs.Prelude.{◌≡◌};
ghost use Rattle.std.specs.Option.{option_map};
ghost use Rattle.pam_codes.specs.Out.{Writes};
ghost use Rattle.pam_findings.specs.misspelled.MisspelledView.{misspelled_view};
ghost use Rattle.pam_render.specs.sentences.NamingView.{naming_view};
ghost use Rattle.pam_render.specs.sentences.Sentences as spec;

use crate::sentences::faults::{Naming, put_naming};
use pam_codes::{Device, Out, Piece};
use pam_findings::host::Problem;
use pam_findings::misspelled::Misspelled;
use std::io::Write;

/// What stands in place of the path of a module where this is not told.
pub const UNTOLD_MODULE: &[u8] = b"the module";

/// S14: in the service of a daemon, and in one that may be that of another program.
#[tactic(auto, unfolding(crate::specs::sentences::Sentences::caller_naming))]
fn caller_naming(is_daemon: bool) -> Naming
    ensures { naming_view result ≡ spec.caller_naming is_daemon }
{
    if is_daemon {
        Naming {
            before: "",
            after: " looks at the user of the process, which in this service is always root",
            mending: "remove the rule",
        }
    } else {
        Naming {
            before: "",
            after: " looks at the user of the process, which is root where a daemon asks",
            mending: "remove the rule unless users start the program",
        }
    }
}

/// Returns how a finding about the module of a rule names it; `None` for another one.
#[tactic(auto, unfolding(crate::specs::sentences::Sentences::naming_of_module))]
pub fn naming_of_module(problem: Problem) -> Option<Naming>
    ensures { option_map naming_view result ≡ spec.naming_of_module problem }
{
    match problem {
        Problem::NeverAsked => Some(Naming {
            before: "",
            after: " is never asked, whatever other modules answer",
            mending: "remove the rule, or mend a control above that ends the stack or jumps over it",
        }),
        Problem::NoModule { .. } => Some(Naming {
            before: "no folder of modules has ",
            after: ", so it always answers module_unknown",
            mending: "install it, or remove the rule",
        }),
        Problem::NoFunction => Some(Naming {
            before: "",
            after: " has no function for this kind, so it always answers module_unknown",
            mending: "remove the rule",
        }),
        Problem::CallerIsRoot { is_daemon } => Some(caller_naming(is_daemon)),
        Problem::UnknownModule => Some(Naming {
            before: "nothing is known of ",
            after: ", so it is taken for one that checks who logs in",
            mending: "a row of a facts file says what it does",
        }),
        Problem::SuccessNeverCounts => Some(Naming {
            before: "whenever ",
            after: " answers success, the stack fails, whatever other modules answer",
            mending: "mend its control, or what a success leads to",
        }),
        _ => None,
    }
}

/// Writes what is wrong with a module whose path is not told.
fn put_untold<W: Write>(naming: Naming, out: &mut Out<W>) -> Result<(), Device>
    ensures { Writes W.contents out.old out.new result (spec.untold_text (naming_view naming)) }
{
    out.put_line(&[
        Piece::Bytes(naming.before.as_bytes()),
        Piece::Bytes(UNTOLD_MODULE),
        Piece::Bytes(naming.after.as_bytes()),
        Piece::Bytes(b"; "),
        Piece::Bytes(naming.mending.as_bytes()),
    ])
}

/// Writes what is wrong with a module, with its path if it is known.
pub(super) fn put_module<W: Write>(
    naming: Naming,
    misspelled: Option<&Misspelled>,
    out: &mut Out<W>,
) -> Result<(), Device>
    ensures { Writes W.contents out.old out.new result
        (spec.module_text (naming_view naming) (option_map (λ m. misspelled_view m.now) misspelled.entry)) }
{
    match misspelled {
        Some(misspelled) => put_naming(naming, misspelled, out),
        None => put_untold(naming, out),
    }
}
