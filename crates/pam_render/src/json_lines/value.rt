//! The objects of which an answer consists, a line each.

ghost use Rattle.std.specs.Prelude.{◌≡◌, ◌++◌, false, map, option_map};
ghost use Rattle.pam_text.specs.Out.{Writes};
ghost use Rattle.serde_json.specs.Data.{object};
ghost use Rattle.serde_json.specs.Written.{comma_if, compact_text, members_text};
ghost use Rattle.pam_render.specs.json_lines.Line.{line, members_of};
ghost use Rattle.pam_render.specs.json_lines.Values.{data_of, member_of};
ghost use Rattle.pam_render.specs.json_lines.inner.Values.{member_text};

use crate::json_lines::text::{put_lowercase, put_quoted, put_readable};
use pam_text::{Device, Out};
use std::io::Write;

/// A value that is written part by part, as an array, or a text whose bytes stand nowhere together.
pub trait Written {
    ghost use Rattle.serde_json.specs.Data.{Data};
    ghost use Rattle.serde_json.specs.Written.{compact_text};
    ghost use Rattle.pam_text.specs.Out.{Writes};

    /// The value.
    ghost value: { Self → Data };

    /// Writes the value.
    fn put<W: Write>(&self, out: &mut Out<W>) -> Result<(), Device>
        ensures { Writes W.contents out.old out.new result (compact_text (value self.now)) };
}

/// `null`, for objects that have no values of a type of their own.
impl Written for () {
    ghost use Rattle.serde_json.specs.Data.{null};

    ghost value = { λ _. null };

    fn put<W: Write>(&self, out: &mut Out<W>) -> Result<(), Device> {
        out.put(b"null")
    }
}

/// A value of a member.
#[derive(Clone, Copy)]
enum Value<'x, V> {
    Null,
    Boolean(bool),
    Number(u64),
    /// UTF-8.
    Text(&'x [u8]),
    /// Bytes, with U+FFFD in place of invalid UTF-8.
    Readable(&'x [u8]),
    /// UTF-8, in lowercase.
    Lowercase(&'x [u8]),
    Written(V),
}

/// A member of an object, whose value may be one that is written part by part.
#[derive(Clone, Copy)]
pub struct Member<'x, V> {
    name: &'x str,
    value: Value<'x, V>,
}

impl<'x, V: Written> Member<'x, V> {
    ghost use Rattle.serde_json.specs.Data.{boolean as json_boolean, null, number as json_number, string, unsigned};
    ghost use Rattle.std.specs.Char.{to_ascii_lowercase};
    ghost use Rattle.std.specs.Str.Lossy.{utf8_lossy};
    ghost use Rattle.pam_render.specs.json_lines.Line.{number_or_null, readable_or_null};

    /// A string. The text is UTF-8.
    pub fn text(name: &'x str, text: &'x [u8]) -> Member<'x, V>
        ensures { member_of V.value result ≡ (name.now, string text.now) }
    {
        Member {
            name,
            value: Value::Text(text),
        }
    }

    /// A string of these bytes, with U+FFFD in place of invalid UTF-8.
    pub fn readable(name: &'x str, bytes: &'x [u8]) -> Member<'x, V>
        ensures { member_of V.value result ≡ (name.now, string (utf8_lossy bytes.now)) }
    {
        Member {
            name,
            value: Value::Readable(bytes),
        }
    }

    /// The same, or `null`.
    pub fn readable_if_any(name: &'x str, bytes: Option<&'x [u8]>) -> Member<'x, V>
        ensures { member_of V.value result ≡ (name.now, readable_or_null (option_map (λ b. b.now) bytes.entry)) }
    {
        let value = match bytes {
            Some(bytes) => Value::Readable(bytes),
            None => Value::Null,
        };
        Member { name, value }
    }

    /// A string in lowercase. The text is UTF-8.
    pub fn lowercase(name: &'x str, text: &'x [u8]) -> Member<'x, V>
        ensures { member_of V.value result ≡ (name.now, string (map to_ascii_lowercase text.now)) }
    {
        Member {
            name,
            value: Value::Lowercase(text),
        }
    }

    /// A value that is written part by part.
    pub fn written(name: &'x str, value: V) -> Member<'x, V>
        ensures { member_of V.value result ≡ (name.now, V.value value) }
    {
        Member {
            name,
            value: Value::Written(value),
        }
    }

    /// The value `null`.
    pub fn null(name: &'x str) -> Member<'x, V>
        ensures { member_of V.value result ≡ (name.now, null) }
    {
        Member {
            name,
            value: Value::Null,
        }
    }

    /// `true` or `false`.
    pub fn boolean(name: &'x str, value: bool) -> Member<'x, V>
        ensures { member_of V.value result ≡ (name.now, json_boolean value) }
    {
        Member {
            name,
            value: Value::Boolean(value),
        }
    }

    /// A number, in decimal digits.
    pub fn number(name: &'x str, number: u64) -> Member<'x, V>
        ensures { member_of V.value result ≡ (name.now, json_number (unsigned number)) }
    {
        Member {
            name,
            value: Value::Number(number),
        }
    }

    /// A number, or `null`.
    pub fn number_if_any(name: &'x str, number: Option<u64>) -> Member<'x, V>
        ensures { member_of V.value result ≡ (name.now, number_or_null number) }
    {
        let value = match number {
            Some(number) => Value::Number(number),
            None => Value::Null,
        };
        Member { name, value }
    }
}

fn put_value<V: Written, W: Write>(value: &Value<'_, V>, out: &mut Out<W>) -> Result<(), Device>
    ensures { Writes W.contents out.old out.new result (compact_text (data_of V.value value.now)) }
{
    match value {
        Value::Null => out.put(b"null"),
        Value::Boolean(true) => out.put(b"true"),
        Value::Boolean(false) => out.put(b"false"),
        Value::Number(number) => out.put_number(*number),
        Value::Text(text) => put_quoted(text, out),
        Value::Readable(bytes) => put_readable(bytes, out),
        Value::Lowercase(text) => put_lowercase(text, out),
        Value::Written(value) => value.put(out),
    }
}

/// Writes `"NAME":VALUE`.
fn put_member<V: Written, W: Write>(member: &Member<'_, V>, out: &mut Out<W>) -> Result<(), Device>
    ensures { Writes W.contents out.old out.new result (member_text V.value member.now) }
{
    put_quoted(member.name.as_bytes(), out)?;
    out.put(b":")?;
    put_value(&member.value, out)
}

/// Writes the comma before each member or element but the first.
pub fn put_comma<W: Write>(later: bool, out: &mut Out<W>) -> Result<(), Device>
    ensures { Writes W.contents out.old out.new result (comma_if later) }
{
    if later {
        return out.put(b",");
    }
    Ok(())
}

/// Writes a member, with a comma before it unless it is the first.
fn put_next<V: Written, W: Write>(
    later: bool,
    member: &Member<'_, V>,
    out: &mut Out<W>,
) -> Result<(), Device>
    ensures { Writes W.contents out.old out.new result (comma_if later ++ member_text V.value member.now) }
{
    put_comma(later, out)?;
    put_member(member, out)
}

/// Writes the members of an object after its opening brace, and the closing one.
fn put_members<V: Written, W: Write>(
    members: &[Member<'_, V>],
    out: &mut Out<W>,
) -> Result<(), Device>
    ensures { Writes W.contents out.old out.new result (members_text false (members_of (map (member_of V.value) members.now))) }
{
    let mut later = false;
    for member in members {
        put_next(later, member, out)?;
        later = true;
    }
    out.put(b"}")
}

/// Writes an object.
pub fn put_object<V: Written, W: Write>(
    members: &[Member<'_, V>],
    out: &mut Out<W>,
) -> Result<(), Device>
    ensures { Writes W.contents out.old out.new result (compact_text (object (members_of (map (member_of V.value) members.now)))) }
{
    out.put(b"{")?;
    put_members(members, out)
}

/// Writes an object, and a line feed.
pub fn put_line<V: Written, W: Write>(
    members: &[Member<'_, V>],
    out: &mut Out<W>,
) -> Result<(), Device>
    ensures { Writes W.contents out.old out.new result (line (map (member_of V.value) members.now)) }
{
    put_object(members, out)?;
    out.put(b"\n")
}
