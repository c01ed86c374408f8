//! Reads the decisions of `--decision`.

ghost use Rattle.std.specs.Prelude.{◌≡◌, not, option_map};
ghost use Rattle.clap.specs.Words.{found_of, rows_of};
ghost use Rattle.pam_codes.specs.Set.{codes_where, is_in};
ghost use Rattle.pam_words.specs.Decisions.{comma_parts, decisions_of, set_named, set_of_text};

use crate::reading::value;
use clap::ArgMatches;
use pam_codes::{Code, CodeSet};

/// Reads the names of codes, separated by commas. Returns `None` if one is no code's name.
fn codes_listed(names: &[u8]) -> Option<CodeSet>
    ensures { result ≡ set_named (comma_parts names.now) }
{
    let mut set = CodeSet::empty();
    for name in names.split(|byte| *byte == b',') {
        let Some(code) = Code::from_name(name) else {
            return None;
        };
        set.insert(code);
    }
    Some(set)
}

/// Reads `but:` and the codes that are missing.
fn set_without(names: &[u8]) -> Option<CodeSet>
    ensures { result ≡ option_map (λ missing. codes_where (λ code. not (is_in code missing))) (set_named (comma_parts names.now)) }
{
    let Some(missing) = codes_listed(names) else {
        return None;
    };
    Some(CodeSet::all().without(missing))
}

/// Reads a set of codes in the form in which `paths` prints it. Returns `None` if a name is no code's name.
#[tactic(auto, unfolding(crate::specs::Decisions::set_of_text))]
pub(crate) fn set_in(text: &[u8]) -> Option<CodeSet>
    ensures { result ≡ set_of_text text.now }
{
    if text == b"any".as_slice() {
        return Some(CodeSet::all());
    }
    if text.starts_with(b"but:") {
        return set_without(text.split_at(4).1);
    }
    codes_listed(text)
}

/// Returns the decisions, if they are given. Returns `None` if one is no code.
pub(crate) fn decisions(matches: &ArgMatches<'_>) -> Option<Option<CodeSet>>
    ensures { result ≡ decisions_of (rows_of (found_of matches.now)) }
{
    let Some(text) = value(matches, "decision") else {
        return Some(None);
    };
    let Some(set) = set_in(text.as_bytes()) else {
        return None;
    };
    Some(Some(set))
}
