//! The line of words that are refused.

ghost use Rattle.std.specs.Prelude.{◌≡◌, IfOk};
ghost use Rattle.pam_report.specs.Fault.{IsNumbered};
ghost use Rattle.pam_report.specs.Mistakes as spec;
ghost use Rattle.pam_words.specs.Mistakes.{mistake_view};

use super::line;
use super::naming::{Meant, named_text, word_text};
use super::table::usage_row;
use pam_codes::Piece;
use pam_words::{Mistake, Usage};
use std::alloc::{AllocError, Global};

/// What is said where no single word is wrong.
#[tactic(auto, unfolding(crate::specs::Mistakes::plain_text))]
fn plain_text(mistake: Mistake<'_>) -> &'static str
    ensures { result.now ≡ spec.plain_text (mistake_view mistake.entry) }
{
    match mistake {
        Mistake::ManySources => {
            ": more than one source is named; write one of --dir DIR, --conf FILE and --root DIR"
        }
        Mistake::VendorAlone => {
            ": --vendor-dir is given without --dir; write --dir DIR too, and neither --conf nor --root"
        }
        Mistake::BothForms => {
            ": both --conf and --root are given; write one of them, or neither to compare folders"
        }
        Mistake::BesideConf => {
            ": a file of a folder is given beside --conf; write the rules that it has into the FILE of --conf"
        }
        Mistake::BesideJson => ": another form is named beside --json; write one of them",
        Mistake::NoUser => ": a table is given without a user; write --user USER",
        Mistake::NoMoment => {
            ": not one moment is given; write --at as 2024-05-06T10:00, or --at-unix SECONDS, alone or with --zone RULE"
        }
        _ => "",
    }
}

fn plain_copy(alloc: Global, mistake: Mistake<'_>) -> Result<Vec<u8>, AllocError>
    ensures { IfOk result (λ text. text.items ≡ spec.plain_text (mistake_view mistake.entry)) }
{
    Vec::from_slice(alloc, plain_text(mistake).as_bytes())
}

/// What is said of a mistake, after the name of the refusal.
fn mistake_text(alloc: Global, mistake: Mistake<'_>) -> Result<Vec<u8>, AllocError>
    ensures { IfOk result (λ text. text.items ≡ spec.mistake_text (mistake_view mistake.entry)) }
{
    match mistake {
        Mistake::Kind(word) => word_text(alloc, Meant::Kind, word.as_bytes()),
        Mistake::Code(word) => word_text(alloc, Meant::Code, word),
        Mistake::Drawing(word) => word_text(alloc, Meant::Drawing, word.as_bytes()),
        Mistake::Form(word) => word_text(alloc, Meant::Form, word.as_bytes()),
        Mistake::Level(word) => word_text(alloc, Meant::Level, word.as_bytes()),
        Mistake::Answers(word) => word_text(alloc, Meant::Answers, word.as_bytes()),
        Mistake::Setting(word) => named_text(alloc, Meant::Setting, None, word.as_bytes()),
        Mistake::Candidate(word) => named_text(alloc, Meant::Candidate, None, word.as_bytes()),
        Mistake::Folder(word) => named_text(alloc, Meant::File, None, word.as_bytes()),
        _ => plain_copy(alloc, mistake),
    }
}

/// Returns the line of words that are refused, which says what is wrong with them.
pub fn mistaken_text(
    alloc: Global,
    usage: &Usage,
    mistake: Mistake<'_>,
) -> Result<Vec<u8>, AllocError>
    requires { IsNumbered usage.now }
    ensures { IfOk result (λ text. text.items ≡ spec.mistaken_line usage.now (mistake_view mistake.entry)) }
{
    let said = mistake_text(alloc, mistake)?;
    line(alloc, usage_row(usage), &[Piece::Bytes(&said)])
}
