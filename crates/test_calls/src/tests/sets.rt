//! Sets of return codes, and the parts of controls.

use crate::tests::same::same;
use pam_codes::{Action, Code, CodeSet, Control, Out, Part};
use std::alloc::Global;
use std::process::Abort;
use std::test::Fail;

fn set_of(codes: &[Code]) -> CodeSet {
    let mut set = CodeSet::empty();
    for code in codes {
        set.insert(*code);
    }
    set
}

/// Returns the set of the first `count` codes.
fn first_codes(count: u8) -> CodeSet {
    let mut set = CodeSet::empty();
    for number in 0..count {
        if let Some(code) = Code::new(number) {
            set.insert(code);
        }
    }
    set
}

fn text_of(alloc: Global, set: CodeSet) -> Result<Vec<u8>, Fail> {
    let mut text = Vec::new(alloc);
    set.write_text(&mut Out::new(&mut text))?;
    Ok(text)
}

fn granting() -> CodeSet {
    set_of(&[Code::SUCCESS, Code::NEW_AUTHTOK_REQD])
}

#[test]
fn texts_of_sets(rt: HostRuntime) -> Result<(), Fail> {
    let granting = granting();
    let rows = [
        (CodeSet::empty(), ""),
        (CodeSet::all(), "any"),
        (granting, "success,new_authtok_reqd"),
        (
            CodeSet::all().without(granting),
            "but:success,new_authtok_reqd",
        ),
        (
            first_codes(15),
            "success,open_err,symbol_err,service_err,system_err,buf_err,perm_denied,auth_err,\
             cred_insufficient,authinfo_unavail,user_unknown,maxtries,new_authtok_reqd,acct_expired,session_err",
        ),
        (
            first_codes(16),
            "but:cred_expired,cred_err,no_module_data,conv_err,authtok_err,authtok_recover_err,authtok_lock_busy,\
             authtok_disable_aging,try_again,ignore,abort,authtok_expired,module_unknown,bad_item,conv_again",
        ),
    ];
    for (set, text) in rows {
        same(
            &rt,
            text,
            &text_of(rt.alloc(), set)?.as_slice(),
            &text.as_bytes(),
        );
    }
    Ok(())
}

fn part(codes: CodeSet, action: Action) -> Part {
    Part { codes, action }
}

fn expect_parts(rt: &impl Abort, keyword: &str, expected: &[Part]) -> Result<(), Fail> {
    let parts = Control::read(keyword.as_bytes())?.parts();
    same(rt, keyword, &parts.as_slice(), &expected);
    Ok(())
}

/// The codes of each keyword are those of its value in pam.conf(5).
#[test]
fn parts_of_the_keywords(rt: HostRuntime) -> Result<(), Fail> {
    let granting = granting();
    let ignored = CodeSet::single(Code::IGNORE);
    let others = CodeSet::all().without(granting);
    let failing = others.without(ignored);
    let required = [
        part(granting, Action::Ok),
        part(failing, Action::Bad),
        part(ignored, Action::Ignore),
    ];
    let requisite = [
        part(granting, Action::Ok),
        part(failing, Action::Die),
        part(ignored, Action::Ignore),
    ];
    let sufficient = [part(granting, Action::Done), part(others, Action::Ignore)];
    let optional = [part(granting, Action::Ok), part(others, Action::Ignore)];
    expect_parts(&rt, "required", &required)?;
    expect_parts(&rt, "requisite", &requisite)?;
    expect_parts(&rt, "sufficient", &sufficient)?;
    expect_parts(&rt, "optional", &optional)
}
