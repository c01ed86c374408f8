//! The codes by which an event happens.

ghost use Rattle.std.specs.Prelude.{◌≡◌};
ghost use Rattle.std.specs.Option.{option_map};
ghost use Rattle.pam_policy.specs.text.Codes.{all_but, codes_in, codes_of_items, failures, items_of, some_codes};
ghost use Rattle.pam_policy.specs.text.inner.Codes.{with_item};

use crate::text::error::PolicyFault;
use pam_codes::{Code, CodeSet, is_name};

/// What is before items that are left out.
const BUT: &[u8] = b"but:";

/// The codes by which an event happens at a module.
#[derive(Clone, Copy, Debug, PartialEq, Eq)]
pub enum Codes {
    /// One of these, of which there is at least one.
    Given(CodeSet),
    /// The module lets go on: `success`, `new_authtok_reqd`; and `ignore`, unless the kind is `auth` and the module says who
    /// logs in. A bare name under `needs` means this.
    LetsGoOn,
}

/// Every code but `success`, `new_authtok_reqd` and `ignore`.
pub(crate) fn failures() -> CodeSet
    ensures { result ≡ failures }
{
    let mut others = CodeSet::single(Code::SUCCESS);
    others.insert(Code::NEW_AUTHTOK_REQD);
    others.insert(Code::IGNORE);
    CodeSet::all().without(others)
}

/// Adds the codes of an item, if it is one.
fn with_item(codes: CodeSet, item: &[u8]) -> Option<CodeSet>
    ensures { result ≡ with_item codes item.now }
{
    if is_name(b"failure", item) {
        return Some(failures().union(codes));
    }
    let mut codes = codes;
    codes.insert(Code::from_name(item)?);
    Some(codes)
}

/// The codes that the items of a text name, if each is one.
fn codes_of_items(text: &[u8]) -> Option<CodeSet>
    ensures { result ≡ codes_of_items (items_of text.now) }
{
    let mut codes = CodeSet::empty();
    for item in text.split(|byte| *byte == b',') {
        codes = with_item(codes, item)?;
    }
    Some(codes)
}

/// The other codes.
fn others(codes: Option<CodeSet>) -> Option<CodeSet>
    ensures { result ≡ option_map all_but codes }
{
    match codes {
        Some(codes) => Some(CodeSet::all().without(codes)),
        None => None,
    }
}

/// These codes, if there is one.
fn some_codes(codes: Option<CodeSet>) -> Result<CodeSet, PolicyFault>
    ensures { result ≡ some_codes codes }
{
    match codes {
        Some(codes) if !codes.is_empty() => Ok(codes),
        _ => Err(PolicyFault::BadCode),
    }
}

/// The codes of a word: `any`, items between commas, or `but:` and the items that are left out.
#[tactic(auto, unfolding(crate::specs::text::Codes::codes_in))]
pub(crate) fn codes_in(text: &[u8]) -> Result<CodeSet, PolicyFault>
    ensures { result ≡ codes_in text.now }
{
    if is_name(b"any", text) {
        return Ok(CodeSet::all());
    }
    let (front, items) = text.split_at(BUT.len().min(text.len()));
    if !is_name(BUT, front) {
        return some_codes(codes_of_items(text));
    }
    some_codes(others(codes_of_items(items)))
}
