//! The texts of return codes. Each is kept with blanks after it, so that it can be appended without a call.

ghost use Rattle.std.specs.Prelude.{◌≡◌, ◌++◌, codes, decimal, if◌then◌else◌};
ghost use Rattle.pam_page.specs.inner.KeptSteps.{number_len};
ghost use Rattle.pam_page.specs.Page.{code_name};

use crate::buffer::Buffer;
use pam_codes::{CODES, Code};

/// The number of each code, with a dot before it.
const NUMBERS: [[u8; 4]; CODES] = [
    *b".0  ", *b".1  ", *b".2  ", *b".3  ", *b".4  ", *b".5  ", *b".6  ", *b".7  ", *b".8  ",
    *b".9  ", *b".10 ", *b".11 ", *b".12 ", *b".13 ", *b".14 ", *b".15 ", *b".16 ", *b".17 ",
    *b".18 ", *b".19 ", *b".20 ", *b".21 ", *b".22 ", *b".23 ", *b".24 ", *b".25 ", *b".26 ",
    *b".27 ", *b".28 ", *b".29 ", *b".30 ",
];

/// The name of each code.
const NAMES: [[u8; 24]; CODES] = [
    *b"success                 ",
    *b"open_err                ",
    *b"symbol_err              ",
    *b"service_err             ",
    *b"system_err              ",
    *b"buf_err                 ",
    *b"perm_denied             ",
    *b"auth_err                ",
    *b"cred_insufficient       ",
    *b"authinfo_unavail        ",
    *b"user_unknown            ",
    *b"maxtries                ",
    *b"new_authtok_reqd        ",
    *b"acct_expired            ",
    *b"session_err             ",
    *b"cred_unavail            ",
    *b"cred_expired            ",
    *b"cred_err                ",
    *b"no_module_data          ",
    *b"conv_err                ",
    *b"authtok_err             ",
    *b"authtok_recover_err     ",
    *b"authtok_lock_busy       ",
    *b"authtok_disable_aging   ",
    *b"try_again               ",
    *b"ignore                  ",
    *b"abort                   ",
    *b"authtok_expired         ",
    *b"module_unknown          ",
    *b"bad_item                ",
    *b"conv_again              ",
];

/// The length of a dot and a number below 100.
#[inline]
fn number_len(number: u8) -> usize
    ensures { result ≡ number_len number }
{
    if number < 10 { 2 } else { 3 }
}

/// Appends a dot and the number of a code. Returns whether there was room.
#[inline]
pub(crate) fn append_number(cursor: &mut Buffer, code: Code) -> bool
    ensures { cursor.new ≡ (if result then cursor.old ++ (codes "." ++ decimal code) else cursor.old) }
{
    let number = code.number();
    cursor.append_front(&NUMBERS[usize::from(number)], number_len(number))
}

/// Appends the name of a code. Returns whether there was room.
#[inline]
pub(crate) fn append_name(text: &mut Buffer, code: Code) -> bool
    ensures { text.new ≡ (if result then text.old ++ code_name code else text.old) }
{
    let count = code.name().len();
    text.append_front(&NAMES[usize::from(code.number())], count)
}
