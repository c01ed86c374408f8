//! The values of the pairs of a control: pam.conf(5).

ghost use Rattle.std.specs.Prelude.{◌≡◌};
ghost use Rattle.pam_codes.specs.Subject.{subject_of};

use crate::code::{Code, is_name};
use crate::error::ControlError;

/// The value of a pair `value=action` of a control.
#[derive(Clone, Copy, Debug, PartialEq, Eq)]
pub enum Subject {
    Named(Code),
    /// The value `incomplete`, which is read and never used.
    Incomplete,
    /// The value `default`: each code that no pair names.
    Default,
}

impl Subject {
    /// The value with this name, ignoring ASCII case. Returns `BadValue` for any other word.
    //
    // Inlined wherever a control is read, as `Action::from_name` is.
    #[inline(always)]
    #[tactic(auto, unfolding(crate::specs::Subject::subject_of))]
    pub fn from_name(word: &[u8]) -> Result<Subject, ControlError>
        ensures { result ≡ subject_of word.now }
    {
        if let Some(code) = Code::from_name(word) {
            Ok(Subject::Named(code))
        } else if is_name(b"incomplete", word) {
            Ok(Subject::Incomplete)
        } else if is_name(b"default", word) {
            Ok(Subject::Default)
        } else {
            Err(ControlError::BadValue)
        }
    }
}
