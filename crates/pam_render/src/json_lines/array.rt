//! Arrays, which are written element by element.

ghost use Rattle.std.specs.Prelude.{◌++◌, ◌∷◌, [], false, map};
ghost use Rattle.pam_text.specs.Out.{Writes};
ghost use Rattle.serde_json.specs.Data.{array};
ghost use Rattle.serde_json.specs.Written.{comma_if, compact_text, items_text};
ghost use Rattle.pam_render.specs.json_lines.Line.{items_of, readable, separated, strings};

use crate::json_lines::text::put_readable;
use crate::json_lines::value::{Written, put_comma};
use pam_text::{Device, Out, Texts};
use std::io::Write;

/// What writes the elements of an array, one for each item of a list.
pub trait Elements<T> {
    ghost use Rattle.serde_json.specs.Data.{Data};
    ghost use Rattle.serde_json.specs.Written.{compact_text};
    ghost use Rattle.pam_text.specs.Out.{Writes};

    /// The element for an item.
    ghost element: { Self → T → Data };

    /// Writes the element for an item.
    fn put_element<W: Write>(&self, item: &T, out: &mut Out<W>) -> Result<(), Device>
        ensures { Writes W.contents out.old out.new result (compact_text (element self.now item.now)) };
}

/// Writes an element, with a comma before it unless it is the first.
fn put_next<T, E: Elements<T>, W: Write>(
    elements: &E,
    later: bool,
    item: &T,
    out: &mut Out<W>,
) -> Result<(), Device>
    ensures { Writes W.contents out.old out.new result (comma_if later ++ compact_text (E.element elements.now item.now)) }
{
    put_comma(later, out)?;
    elements.put_element(item, out)
}

/// Writes the elements for items, each with a comma before it, but the first only if it comes later in an array.
pub fn put_more<T, E: Elements<T>, W: Write>(
    elements: &E,
    later: bool,
    items: &[T],
    out: &mut Out<W>,
) -> Result<(), Device>
    ensures { Writes W.contents out.old out.new result (separated later (map (E.element elements.now) items.now)) }
{
    let mut later = later;
    for item in items {
        put_next(elements, later, item, out)?;
        later = true;
    }
    Ok(())
}

/// Writes the array of the elements for items.
pub fn put_array<T, E: Elements<T>, W: Write>(
    elements: &E,
    items: &[T],
    out: &mut Out<W>,
) -> Result<(), Device>
    ensures { Writes W.contents out.old out.new result (compact_text (array (items_of (map (E.element elements.now) items.now)))) }
{
    out.put(b"[")?;
    put_more(elements, false, items, out)?;
    out.put(b"]")
}

/// Writes the array of one value.
pub fn put_single<V: Written, W: Write>(value: &V, out: &mut Out<W>) -> Result<(), Device>
    ensures { Writes W.contents out.old out.new result (compact_text (array (items_of (V.value value.now ∷ [])))) }
{
    out.put(b"[")?;
    value.put(out)?;
    out.put(b"]")
}

/// Writes a string, with a comma before it unless it is the first.
fn put_next_string<W: Write>(later: bool, text: &[u8], out: &mut Out<W>) -> Result<(), Device>
    ensures { Writes W.contents out.old out.new result (comma_if later ++ compact_text (readable text.now)) }
{
    put_comma(later, out)?;
    put_readable(text, out)
}

/// Writes texts as strings, and the closing bracket.
fn put_all_strings<W: Write>(texts: &Texts, out: &mut Out<W>) -> Result<(), Device>
    ensures { Writes W.contents out.old out.new result (items_text false (items_of (map readable texts.now))) }
{
    let mut later = false;
    for text in texts.iter() {
        put_next_string(later, text, out)?;
        later = true;
    }
    out.put(b"]")
}

/// Writes the array of texts, with U+FFFD in place of invalid UTF-8.
pub fn put_strings<W: Write>(texts: &Texts, out: &mut Out<W>) -> Result<(), Device>
    ensures { Writes W.contents out.old out.new result (compact_text (strings texts.now)) }
{
    out.put(b"[")?;
    put_all_strings(texts, out)
}
