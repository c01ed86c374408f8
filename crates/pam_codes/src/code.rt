//! Return codes and their names.

ghost use Rattle.std.specs.Prelude.{◌≡◌, ◌<◌, Some, None, position, slice_get, nat_lt, if◌then◌else◌};
ghost use Rattle.pam_codes.specs.Code.{code_names, same_name};
ghost use Rattle.pam_codes.specs.inner.Code.{has_len};
ghost use Rattle.pam_codes.specs.Set.{codes_where};

use std::marker::Model;

/// The number of return codes.
pub const CODES: usize = 31;

/// Whether `text` is `name`, ignoring ASCII case.
//
// Most texts differ in length from most names, and most names are written in lowercase: the lengths are compared first, then
// the bytes as they are. Inlined with the readers of names, so that the length of each name is a constant there.
#[inline(always)]
pub fn is_name(name: &[u8], text: &[u8]) -> bool
    ensures { result ≡ same_name name.now text.now }
{
    name.len() == text.len() && (name == text || name.eq_ignore_ascii_case(text))
}

/// A return code of a module: one of the 31 that pam.conf(5) names.
#[derive(Clone, Copy, Debug, PartialEq, Eq, PartialOrd, Ord, Hash)]
pub struct Code {
    number: u8,
}

impl Model for Code {
    ghost use Rattle.std.specs.Prelude.{ℕ, ◌<◌};
    ghost use Rattle.pam_codes.specs.declared.code.TheConstants.{CODES};

    ghost Value = { ℕ };

    ghost view = { λ c. c.number };

    ghost invariant = { λ c. c.number < CODES };

    ghost inverse = { λ n. record { number = n } };
}

impl Code {
    /// The module succeeded.
    pub const SUCCESS: Code = Code { number: 0 };

    /// Permission is denied.
    pub const PERM_DENIED: Code = Code { number: 6 };

    /// Authentication failed.
    pub const AUTH_ERR: Code = Code { number: 7 };

    /// The user must choose a new password.
    pub const NEW_AUTHTOK_REQD: Code = Code { number: 12 };

    /// The module is to be ignored.
    pub const IGNORE: Code = Code { number: 25 };

    /// The module is not there, or has no function of the kind.
    pub const MODULE_UNKNOWN: Code = Code { number: 28 };

    /// The conversation has no data yet.
    pub const CONV_AGAIN: Code = Code { number: 30 };

    /// The code with this number, if there is one.
    pub fn new(number: u8) -> Option<Code>
        ensures { result ≡ (if nat_lt number CODES then Some number else None) }
    {
        if usize::from(number) < CODES {
            Some(Code { number })
        } else {
            None
        }
    }

    /// The code with this number, which is below `CODES`.
    pub(crate) fn of_number(number: u8) -> Code
        requires { number < CODES }
        ensures { result ≡ number }
    {
        Code { number }
    }

    /// The number, from 0 to 30.
    pub fn number(self) -> u8
        ensures value { result ≡ self }
        ensures range { result < CODES }
    {
        self.number
    }

    /// The index of the code in a table of all codes.
    pub(crate) fn index(self) -> usize
        ensures value { result ≡ self }
        ensures range { result < CODES }
    {
        usize::from(self.number)
    }

    /// The name in a configuration file.
    #[tactic(auto, unfolding(crate::specs::Code::code_names))]
    pub fn name(self) -> &'static str
        ensures { slice_get code_names self ≡ Some result.now }
    {
        match self.number {
            0 => "success",
            1 => "open_err",
            2 => "symbol_err",
            3 => "service_err",
            4 => "system_err",
            5 => "buf_err",
            6 => "perm_denied",
            7 => "auth_err",
            8 => "cred_insufficient",
            9 => "authinfo_unavail",
            10 => "user_unknown",
            11 => "maxtries",
            12 => "new_authtok_reqd",
            13 => "acct_expired",
            14 => "session_err",
            15 => "cred_unavail",
            16 => "cred_expired",
            17 => "cred_err",
            18 => "no_module_data",
            19 => "conv_err",
            20 => "authtok_err",
            21 => "authtok_recover_err",
            22 => "authtok_lock_busy",
            23 => "authtok_disable_aging",
            24 => "try_again",
            25 => "ignore",
            26 => "abort",
            27 => "authtok_expired",
            28 => "module_unknown",
            29 => "bad_item",
            30 => "conv_again",
            _ => unreachable!(),
        }
    }

    /// The numbers of the codes whose names have `len` bytes.
    #[tactic(auto, unfolding(crate::specs::Code::all_codes, crate::specs::Code::code_names))]
    fn numbers_of_len(len: usize) -> &'static [u8]
        ensures { result.now ≡ codes_where (has_len len) }
    {
        match len {
            5 => &[26],
            6 => &[25],
            7 => &[0, 5],
            8 => &[1, 7, 11, 17, 19, 29],
            9 => &[24],
            10 => &[2, 4, 30],
            11 => &[3, 6, 14, 20],
            12 => &[10, 13, 15, 16],
            14 => &[18, 28],
            15 => &[27],
            16 => &[9, 12],
            17 => &[8, 22],
            19 => &[21],
            21 => &[23],
            _ => &[],
        }
    }

    /// The code with this name, ignoring ASCII case; `None` for `incomplete` and `default`.
    pub fn from_name(name: &[u8]) -> Option<Code>
        ensures { result ≡ position (λ n. same_name n name.now) code_names }
    {
        for number in Code::numbers_of_len(name.len()) {
            let code = Code::of_number(*number);
            if is_name(code.name().as_bytes(), name) {
                return Some(code);
            }
        }
        None
    }
}
