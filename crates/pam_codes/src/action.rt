//! The actions of a control: pam.conf(5).

ghost use Rattle.std.specs.Prelude.{◌≡◌, ◌≤◌, IsTrue, IfOk};
ghost use Rattle.std.specs.List.{list_all};
ghost use Rattle.std.specs.Char.{is_ascii_digit};
ghost use Rattle.pam_codes.specs.Action.{IsAction, action_named, action_text, decimal_value, is_jump_text, same_action};
ghost use Rattle.pam_text.specs.Piece.{piece_text};

use crate::code::is_name;
use crate::error::ControlError;
use pam_text::Piece;

/// What the return code of a module does to the run of its list: the actions of pam.conf(5).
#[derive(Clone, Copy, Debug, PartialEq, Eq)]
pub enum Action {
    /// The code does not count.
    Ignore,
    /// The code counts, unless an earlier module failed.
    Ok,
    /// Like `Ok`, and ends the list unless a module failed.
    Done,
    /// The list fails, with this code if it is the first to fail.
    Bad,
    /// Like `Bad`, and ends the list.
    Die,
    /// Restores the state in which the list was entered.
    Reset,
    /// Skips this many items: 1 to 999,999,999 in a control.
    Jump(u32),
}

fn all_digits(word: &[u8]) -> bool
    ensures { result ≡ list_all is_ascii_digit word.now }
{
    word.iter().all(|b| b.is_ascii_digit())
}

/// Whether `word` is one to nine decimal digits.
fn is_jump(word: &[u8]) -> bool
    ensures { result ≡ is_jump_text word.now }
{
    if word.is_empty() || word.len() >= 10 {
        return false;
    }
    all_digits(word)
}

/// The value of decimal digits.
fn decimal(digits: &[u8]) -> u32
    requires { IsTrue (is_jump_text digits.now) }
    ensures value { result ≡ decimal_value digits.now }
    ensures bound { result ≤ 999999999 }
{
    let mut number = 0;
    for digit in digits {
        number = 10 * number + u32::from(*digit - b'0');
    }
    number
}

impl Action {
    /// The action with this name, ignoring ASCII case, or a jump of this number. Returns `BadAction` for any other word, and
    /// `ZeroJump` for a jump over no items.
    //
    // Inlined wherever a control is read, although it has more than one caller: it is asked for every pair.
    #[inline(always)]
    #[tactic(auto, unfolding(crate::specs::Action::action_named))]
    pub fn from_name(word: &[u8]) -> Result<Action, ControlError>
        ensures value { result ≡ action_named word.now }
        ensures action { IfOk result IsAction }
    {
        if is_name(b"ignore", word) {
            Ok(Action::Ignore)
        } else if is_name(b"bad", word) {
            Ok(Action::Bad)
        } else if is_name(b"die", word) {
            Ok(Action::Die)
        } else if is_name(b"ok", word) {
            Ok(Action::Ok)
        } else if is_name(b"done", word) {
            Ok(Action::Done)
        } else if is_name(b"reset", word) {
            Ok(Action::Reset)
        } else if !is_jump(word) {
            Err(ControlError::BadAction)
        } else {
            match decimal(word) {
                0 => Err(ControlError::ZeroJump),
                items => Ok(Action::Jump(items)),
            }
        }
    }

    /// The word in a control; the number of a jump.
    pub fn piece(self) -> Piece<'static>
        ensures { piece_text result ≡ action_text self }
    {
        match self {
            Action::Ignore => Piece::Bytes(b"ignore"),
            Action::Ok => Piece::Bytes(b"ok"),
            Action::Done => Piece::Bytes(b"done"),
            Action::Bad => Piece::Bytes(b"bad"),
            Action::Die => Piece::Bytes(b"die"),
            Action::Reset => Piece::Bytes(b"reset"),
            Action::Jump(items) => Piece::Number(u64::from(items)),
        }
    }

    pub(crate) fn is_same(self, other: Action) -> bool
        ensures { result ≡ same_action self other }
    {
        self == other
    }
}
