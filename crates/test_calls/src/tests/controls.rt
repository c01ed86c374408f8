//! Controls that are only checked.

use crate::tests::same::same;
use pam_codes::{Control, ControlError, closing_bracket};

#[test]
fn a_check_fails_where_a_control_is_not_read(rt: HostRuntime) {
    let rows: [(&str, Result<(), ControlError>); 10] = [
        ("Sufficient", Ok(())),
        ("[success=ok default=12 Incomplete = die]", Ok(())),
        ("[]", Ok(())),
        ("needed", Err(ControlError::BadControl)),
        ("[success=ok] ", Err(ControlError::BadControl)),
        ("[success ok]", Err(ControlError::BadControl)),
        ("[succes=ok]", Err(ControlError::BadValue)),
        ("[success=ok default=]", Err(ControlError::BadAction)),
        ("[success=ok default=00]", Err(ControlError::ZeroJump)),
        ("[success=ok \\]", Err(ControlError::OpenBracket)),
    ];
    for (text, verdict) in rows {
        same(&rt, text, &Control::check(text.as_bytes()), &verdict);
    }
}

#[test]
fn a_bracket_with_a_backslash_before_it_closes_nothing(rt: HostRuntime) {
    for (text, bracket) in [("a \\] b] c]", Some(6)), ("a \\] b", None)] {
        same(&rt, text, &closing_bracket(text.as_bytes()), &bracket);
    }
}
