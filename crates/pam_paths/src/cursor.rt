//! Cursors, from which a listing continues.

ghost use Rattle.std.specs.Prelude.{◌≡◌, ◌≢◌, ℕ, ◌-◌, ◌<◌, ◌≤◌, All, IfErr, IfOk, List, length, map};
ghost use Rattle.pam_codes.specs.declared.code.TheConstants.{CODES};
ghost use Rattle.pam_conf.specs.declared.stack.TheConstants.{MAX_MODULES};
ghost use Rattle.pam_codes.specs.Out.{Writes};
ghost use Rattle.pam_paths.specs.Classes.{least};
ghost use Rattle.pam_paths.specs.CursorText.{IsCursor, cursor_text};
ghost use Rattle.pam_paths.specs.Paths.{key_of};
ghost use Rattle.pam_paths.specs.Steps.{step_seen};

use crate::digits::code_of;
use crate::path::PathStep;
use arrayvec::ArrayVec;
use pam_codes::{Code, CodeSet, Device, Out, Piece};
use pam_dispatch::MAX_MODULES;
use std::io::Write;
use std::marker::Model;
use thiserror::Error;

/// Why a listing cannot continue from a cursor.
#[derive(Clone, Copy, Debug, PartialEq, Eq, Error)]
pub enum CursorError {
    /// The text is not a cursor.
    #[error("invalid cursor")]
    Syntax,
    /// The code at this step, counted from 1, is not the least of its class.
    #[error("the code at step {0} is not the least of its class")]
    NotLeast(usize),
    /// A module is still asked at the end of the cursor.
    #[error("the cursor ends before the path does")]
    TooShort,
    /// Codes are left at the end of the path.
    #[error("the path ends before the cursor does")]
    TooLong,
}

/// The least codes of the classes of a path, at most `MAX_MODULES`.
#[derive(Drop)]
pub struct Cursor {
    codes: ArrayVec<u8, MAX_MODULES>,
}

impl Model for Cursor {
    ghost use Rattle.std.specs.Prelude.{ℕ, List};
    ghost use Rattle.pam_paths.specs.CursorText.{IsCursor};

    ghost Value = { List ℕ };

    ghost view = { λ c. c.codes.items };

    ghost invariant = { λ c. IsCursor c.codes.items };
}

impl Cursor {
    /// Reads a cursor: numbers of codes in decimal digits, without leading zeros and separated by dots, or `-` for no
    /// codes. Returns `Syntax` for any other text, and for more than `MAX_MODULES` codes.
    pub fn read(text: &[u8]) -> Result<Cursor, CursorError>
        ensures ok { IfOk result (λ cursor. cursor_text cursor ≡ text.now) }
        ensures cursor { IfOk result IsCursor }
        ensures err { IfErr result (λ e. (e ≡ CursorError.Syntax)
            × ((codes : List ℕ) → IsCursor codes → cursor_text codes ≢ text.now)) }
    {
        let mut codes = ArrayVec::new();
        if text == b"-".as_slice() {
            return Ok(Cursor { codes });
        }
        for digits in text.split(|byte| *byte == b'.') {
            let code = code_of(digits).ok_or(CursorError::Syntax)?;
            if codes.is_full() {
                return Err(CursorError::Syntax);
            }
            codes.push(code.number());
        }
        Ok(Cursor { codes })
    }

    /// Writes the numbers of the codes, separated by dots, or `-` if there are none.
    pub fn write_text<W: Write>(&self, out: &mut Out<W>) -> Result<(), Device>
        ensures { Writes W.contents out.old out.new result (cursor_text self.now) }
    {
        let Some((first, others)) = self.codes.as_slice().split_first() else {
            return out.put(b"-");
        };
        out.put_number(u64::from(*first))?;
        for code in others {
            out.put_line(&[Piece::Bytes(b"."), Piece::Number(u64::from(*code))])?;
        }
        Ok(())
    }

    /// The cursor of a path with these steps.
    pub(crate) fn of_steps(steps: &[PathStep]) -> Cursor
        requires { length steps.now ≤ MAX_MODULES }
        ensures value { result ≡ key_of (map step_seen steps.now) }
        ensures cursor { IsCursor result }
    {
        Cursor {
            codes: least_codes(steps),
        }
    }

    /// The numbers of the codes, in the order of the steps.
    pub fn codes(&self) -> &[u8]
        ensures value { result.now ≡ self.now }
        ensures codes { All (λ code. code < CODES) result.now }
    {
        self.codes.as_slice()
    }
}

/// The least codes of the classes of steps.
fn least_codes(steps: &[PathStep]) -> ArrayVec<u8, MAX_MODULES>
    requires { length steps.now ≤ MAX_MODULES }
    ensures value { result.items ≡ key_of (map step_seen steps.now) }
    ensures cursor { IsCursor result.items }
{
    let mut codes: ArrayVec<u8, MAX_MODULES> = ArrayVec::new();
    for step in steps {
        codes.push(least_number(step.class));
    }
    codes
}

/// The number of the least code of a class; 0 if it is empty.
pub fn least_number(class: CodeSet) -> u8
    ensures value { result ≡ least class }
    ensures code { result < CODES }
{
    match class.least() {
        Some(code) => code.number(),
        None => 0,
    }
}

/// The code with this number.
pub(crate) fn code_numbered(number: u8) -> Code
    requires { number < CODES }
    ensures { result ≡ number }
{
    Code::new(number).unwrap()
}
