//! What is said of an input that cannot be read.

ghost use Rattle.std.specs.Prelude.{◌≡◌};
ghost use Rattle.pam_report.specs.Unread as spec;

use crate::inputs::{InputError, ReadFault};

#[tactic(auto, unfolding(crate::specs::Unread::read_sentence))]
fn read_sentence(why: ReadFault) -> &'static str
    ensures { result.now ≡ spec.read_sentence why }
{
    match why {
        ReadFault::NotFound => "there is no such file or folder; mend the name",
        ReadFault::NotPermitted => {
            "the system does not permit it; run pamcheck as a user who may read it"
        }
        ReadFault::NotFolder => {
            "it is no folder, or a part of its path is none; write the name of a folder"
        }
        ReadFault::IsFolder => "it is a folder; write the name of a file",
        ReadFault::NotFile => "it is no regular file; put one in its place",
        ReadFault::Looping => "its links lead back to themselves; mend one of them",
        ReadFault::TooLong => "it is longer than 1 MiB; name a shorter one",
        ReadFault::NulByte => "it has a NUL byte; remove it",
        ReadFault::Failed => "it cannot be read; look what it is",
    }
}

/// Returns why an input cannot be read, and how to mend it, or nothing of a failed allocation.
pub fn input_sentence(error: &InputError) -> &'static str
    ensures { result.now ≡ spec.input_sentence error.now }
{
    match error {
        InputError::Read(_, why) => read_sentence(*why),
        InputError::Memory => "",
    }
}
