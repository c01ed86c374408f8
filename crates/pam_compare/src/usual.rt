//! The order in which answers are tried.

ghost use Rattle.std.specs.Prelude.{◌≡◌, ◌<◌, if◌then◌else◌, IfNone, IfSome, IsTrue, Some, []};
ghost use Rattle.pam_codes.specs.Set.{is_in};
ghost use Rattle.pam_compare.specs.Usual.{first_usual};

use pam_codes::{Code, CodeSet};

/// The code with this number, if it is one of these; else `rest`.
fn preferred(codes: CodeSet, number: u8, rest: Option<Code>) -> Option<Code>
    ensures { number < 31 → result ≡ (if is_in number codes then Some number else rest) }
{
    let Some(code) = Code::new(number) else {
        return rest;
    };
    if codes.contains(code) {
        Some(code)
    } else {
        rest
    }
}

/// The first of the codes in the usual order: success, auth_err, perm_denied, user_unknown, authinfo_unavail, ignore, and then by
/// number. `None` if there are none.
pub(crate) fn first_usual(codes: CodeSet) -> Option<Code>
    ensures first { result ≡ first_usual codes }
    ensures none { IfNone result (codes ≡ []) }
    ensures low { IfSome result (λ code. code < 31) }
    ensures member { IfSome result (λ code. IsTrue (is_in code codes)) }
{
    let by_number = codes.least();
    let ignore = preferred(codes, 25, by_number);
    let unavailable = preferred(codes, 9, ignore);
    let unknown = preferred(codes, 10, unavailable);
    let denied = preferred(codes, 6, unknown);
    let wrong = preferred(codes, 7, denied);
    preferred(codes, 0, wrong)
}
