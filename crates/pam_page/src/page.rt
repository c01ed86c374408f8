//! A page of the paths through a stack.

ghost use Rattle.std.specs.Prelude.{◌≡◌, ◌+◌, ◌-◌, ◌<◌, ◌≤◌, ◌^◌, [], OnOk, drop, length, take};
ghost use Rattle.pam_codes.specs.Out.{Writes};
ghost use Rattle.pam_page.specs.Coming.{GoesOn, coming, followed, side};
ghost use Rattle.pam_page.specs.inner.Lines.{Adds};
ghost use Rattle.pam_page.specs.Page.{first_page, page_text, path_line, text_after};

use crate::buffer::Buffer;
use crate::listing::Listing;
use crate::texts::LineTexts;
use crate::written::{put_end, put_more, put_path};
use pam_codes::{Device, Out};
use pam_paths::{Knowledge, Path};
use std::io::Write;

/// The lines of a page that are not written yet, and the texts that the next line is copied from.
#[derive(Drop)]
struct PageLines {
    texts: LineTexts,
    lines: Buffer,
}

impl PageLines {
    /// No lines.
    fn of(texts: LineTexts) -> PageLines
        ensures texts { result.texts ≡ [] }
        ensures lines { result.lines ≡ [] }
    {
        let mut texts = texts;
        texts.cut(0);
        let lines = texts.take_lines();
        PageLines { texts, lines }
    }

    /// Writes the lines, and keeps none of them.
    fn write<W: Write>(&mut self, out: &mut Out<W>) -> Result<(), Device>
        ensures empty { self.new.lines ≡ [] }
        ensures kept { self.new.texts ≡ self.old.texts }
        ensures written { Writes W.contents out.old out.new result self.old.lines }
    {
        let result = out.put(self.lines.as_slice());
        self.lines.truncate(0);
        result
    }

    /// Adds the line of a path, whose first steps are the kept ones. Writes the lines before it if there is no room, and
    /// then this one too if there still is none.
    #[inline(always)]
    fn add<W: Write>(&mut self, path: &Path, out: &mut Out<W>) -> Result<(), Device>
        requires kept { self.old.texts ≡ take (length self.old.texts) path.now.steps }
        ensures kept { self.new.texts ≡ self.old.texts }
        ensures added { Adds W.contents out.old out.new self.old.lines self.new.lines result (path_line path.now) }
    {
        if self.texts.append_line(path, &mut self.lines) {
            return Ok(());
        }
        self.add_after(path, out)
    }

    /// Writes the lines, and then adds the line of a path.
    // Not inlined, so that `add`, which rarely comes here, stays short enough to be.
    #[cold]
    #[inline(never)]
    fn add_after<W: Write>(&mut self, path: &Path, out: &mut Out<W>) -> Result<(), Device>
        requires kept { self.old.texts ≡ take (length self.old.texts) path.now.steps }
        ensures kept { self.new.texts ≡ self.old.texts }
        ensures added { Adds W.contents out.old out.new self.old.lines self.new.lines result (path_line path.now) }
    {
        self.write(out)?;
        if self.texts.append_line(path, &mut self.lines) {
            return Ok(());
        }
        put_path(path, out)
    }
}

/// Writes a page: a line for each of the next paths, at most `limit`, and a last line. Fails if the writer does.
///
/// The last line is `end`, or `more` with the cursor of the last path if other paths follow. The first of those is
/// taken from the listing too, and no further one. Allocates nothing.
pub fn put_page<K: Knowledge, W: Write>(
    listing: &mut Listing<'_, K>,
    limit: u32,
    texts: LineTexts,
    out: &mut Out<W>,
) -> Result<(), Device>
    requires some { 1 ≤ limit }
    ensures written { Writes W.contents out.old out.new result (page_text (side listing.old) (first_page limit (coming listing.old))) }
    ensures left { OnOk result (coming listing.new ≡ drop (limit + 1) (coming listing.old)) }
    ensures listing { GoesOn (limit + 1) listing.old listing.new }
{
    let mut lines = PageLines::of(texts);
    put_lines(listing, limit, &mut lines, out)
}

/// Writes a page, by lines that are empty.
// Apart from `put_page`, which owns them: to drop what is owned at each failure takes minutes to check.
fn put_lines<K: Knowledge, W: Write>(
    listing: &mut Listing<'_, K>,
    limit: u32,
    lines: &mut PageLines,
    out: &mut Out<W>,
) -> Result<(), Device>
    requires some { 1 ≤ limit }
    requires texts { lines.old.texts ≡ [] }
    requires lines { lines.old.lines ≡ [] }
    ensures written { Writes W.contents out.old out.new result (page_text (side listing.old) (first_page limit (coming listing.old))) }
    ensures left { OnOk result (coming listing.new ≡ drop (limit + 1) (coming listing.old)) }
    ensures listing { GoesOn (limit + 1) listing.old listing.new }
{
    for count in 0..limit - 1 {
        let Some(shared) = listing.follow() else {
            lines.write(out)?;
            return put_end(listing.side(), u64::from(count), out);
        };
        let path = listing.path();
        lines.texts.replace(path, shared);
        lines.add(path, out)?;
    }
    lines.write(out)?;
    put_rest(listing, limit - 1, lines, out)
}

/// Writes the rest of a page that has room for one more path.
#[tactic(auto, unfolding(crate::specs::Page::text_by))]
fn put_rest<K: Knowledge, W: Write>(
    listing: &mut Listing<'_, K>,
    count: u32,
    lines: &mut PageLines,
    out: &mut Out<W>,
) -> Result<(), Device>
    requires empty { lines.old.lines ≡ [] }
    requires kept { lines.old.texts ≡ take (length lines.old.texts) (followed listing.old).steps }
    requires few { count < 2 ^ 32 - 1 }
    ensures written { Writes W.contents out.old out.new result (text_after (side listing.old) count (first_page 1 (coming listing.old))) }
    ensures left { OnOk result (coming listing.new ≡ drop 2 (coming listing.old)) }
    ensures listing { GoesOn 2 listing.old listing.new }
{
    let Some(shared) = listing.follow() else {
        return put_end(listing.side(), u64::from(count), out);
    };
    let path = listing.path();
    lines.texts.replace(path, shared);
    lines.add(path, out)?;
    lines.write(out)?;
    let cursor = path.cursor();
    match listing.follow() {
        None => put_end(listing.side(), u64::from(count + 1), out),
        Some(_) => put_more(listing.side(), u64::from(count + 1), &cursor, out),
    }
}
