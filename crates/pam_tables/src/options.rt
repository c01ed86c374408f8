//! The options of pam_access(8).

ghost use Rattle.std.specs.Prelude.{◌≡◌, ◌↔◌, true};
ghost use Rattle.std.specs.List.{list_any};
ghost use Rattle.std.specs.Option.{option_map};
ghost use Rattle.std.specs.Str.{bytes_eq};
ghost use Rattle.pam_tables.specs.Options.{value_of, last_value as last_value_of, given_or, options_of};

use pam_text::Texts;
use std::marker::Model;

/// The options of an access table, from the arguments of pam_access(8): `fieldsep=`, `listsep=` and `nodefgroup`.
#[derive(Debug, Drop)]
pub struct AccessOptions<'a> {
    pub(crate) field_separators: &'a [u8],
    pub(crate) list_separators: &'a [u8],
    pub(crate) group_names: bool,
}

impl<'a> Model for AccessOptions<'a> {
    ghost use Rattle.pam_tables.specs.Options.{Options};

    ghost Value = { Options };

    ghost view = { λ o. record { field_separators = o.field_separators.now; list_separators = o.list_separators.now; group_names = o.group_names } };
}

/// Returns the text after the key, if the argument begins with the key.
fn value<'a>(argument: &'a [u8], key: &[u8]) -> Option<&'a [u8]>
    ensures { option_map (λ v. v.now) result ≡ value_of key.now argument.now }
{
    argument.strip_prefix(key)
}

/// Returns the value of the last argument with this key.
fn last_value<'a>(arguments: &'a Texts, key: &[u8]) -> Option<&'a [u8]>
    ensures { option_map (λ v. v.now) result ≡ last_value_of key.now arguments.now }
{
    let mut last = None;
    for argument in arguments.iter() {
        if let Some(found) = value(argument, key) {
            last = Some(found);
        }
    }
    last
}

/// Returns the value, or the default if there is none or it is empty.
fn given<'a>(value: Option<&'a [u8]>, default: &'a [u8]) -> &'a [u8]
    ensures { result.now ≡ given_or default.now (option_map (λ v. v.now) value.entry) }
{
    match value {
        Some(text) => { if text.is_empty() { default } else { text } }
        None => default,
    }
}

fn has_argument(arguments: &Texts, text: &[u8]) -> bool
    ensures { result ≡ list_any (λ a. bytes_eq a text.now) arguments.now }
{
    arguments.iter().any(|argument| argument == text)
}

impl<'a> AccessOptions<'a> {
    /// Reads the options from a module's arguments. Ignores other arguments.
    pub fn of(arguments: &'a Texts) -> Self
        ensures { result ≡ options_of arguments.now }
    {
        AccessOptions {
            field_separators: given(last_value(arguments, b"fieldsep="), b":"),
            list_separators: given(last_value(arguments, b"listsep="), b" \t,"),
            group_names: !has_argument(arguments, b"nodefgroup"),
        }
    }

    /// The bytes that separate the fields of a line.
    pub fn field_separators(&self) -> &'a [u8]
        ensures { result.now ≡ self.now.field_separators }
    {
        self.field_separators
    }

    /// The bytes that separate the tokens of a list.
    pub fn list_separators(&self) -> &'a [u8]
        ensures { result.now ≡ self.now.list_separators }
    {
        self.list_separators
    }

    /// Whether these are the same options, byte by byte, so that a table has the same answers under both.
    pub fn is_same(&self, other: &AccessOptions<'_>) -> bool
        ensures { (result ≡ true) ↔ (self.now ≡ other.now) }
    {
        self.field_separators == other.field_separators
            && self.list_separators == other.list_separators
            && self.group_names == other.group_names
    }
}
