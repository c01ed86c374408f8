//! The call of a module by a rule, kept as it is written: in one piece, and small.
ghost use Rattle.std.specs.Prelude.{◌≡◌, IfOk, true};
ghost use Rattle.pam_conf.specs.inner.Calls.{arguments_in, control_in, is_call, path_in};
ghost use Rattle.pam_conf.specs.inner.Owned.{owned_words};
ghost use Rattle.pam_conf.specs.Remaining.{words_to_come};

use crate::words::{OwnedWords, Words, word_text};
use pam_codes::Control;
use pam_text::Texts;
use std::alloc::{AllocError, Global};

/// The words of a call: a control without a fault, a path and arguments.
#[derive(Drop)]
pub(crate) struct Call {
    words: OwnedWords,
    ghost called: { is_call (owned_words words) ≡ true },
}

impl Call {
    /// Copies the words of a call.
    pub(crate) fn of(alloc: Global, words: Words<'_>) -> Result<Call, AllocError>
        requires { is_call (words_to_come words) ≡ true }
        ensures { IfOk result (λ call. owned_words call.words ≡ words_to_come words.entry) }
    {
        let words = OwnedWords::of(alloc, words)?;
        Ok(Call { words })
    }

    /// The control.
    pub(crate) fn control(&self) -> Control
        ensures { result ≡ control_in (owned_words self.now.words) }
    {
        let Some((control, _)) = self.words.words().split_first() else {
            unreachable!()
        };
        let Ok(control) = Control::read(control) else {
            unreachable!()
        };
        control
    }

    /// The control, the path and the arguments.
    pub(crate) fn parts(&self, alloc: Global) -> Result<(Control, Vec<u8>, Texts), AllocError>
        ensures control { IfOk result (λ p. p.0 ≡ control_in (owned_words self.now.words)) }
        ensures path { IfOk result (λ p. p.1.items ≡ path_in (owned_words self.now.words)) }
        ensures arguments { IfOk result (λ p. p.2 ≡ arguments_in (owned_words self.now.words)) }
    {
        let Some((control, words)) = self.words.words().split_first() else {
            unreachable!()
        };
        let Ok(control) = Control::read(control) else {
            unreachable!()
        };
        let Some((path, arguments)) = words.split_first() else {
            return Ok((control, Vec::new(alloc), Texts::new(alloc)));
        };
        Ok((control, word_text(alloc, path)?, arguments.texts(alloc)?))
    }
}
