//! The JSON of `paths`: a line for each path of a page, and a last line.

ghost use Rattle.std.specs.Prelude.{◌-◌, ◌<◌, ◌≤◌, ◌^◌, Ok, option_map};
ghost use Rattle.pam_codes.specs.Out.{Writes, WritesAndFlushes};
ghost use Rattle.pam_page.specs.Coming.{coming, side};
ghost use Rattle.pam_page.specs.Page.{first_page, text_by};
ghost use Rattle.pam_render.specs.parts.Prints.{PrintsBy};
ghost use Rattle.pam_report.specs.PageView.{FindsPage, page_value};
ghost use Rattle.pam_report.specs.Reply.{Page};
ghost use Rattle.pam_render.specs.json_text.Paths.{last_json, page_json, path_json};
ghost use Rattle.pam_render.specs.json_text.Text.{IsJson};

use crate::json_lines::{Member, put_line};
use crate::json_text::header::put_stack;
use crate::json_text::steps::PathValue;
use crate::parts::{ModulePaths, with_write_fault};
use pam_codes::{Device, Out};
use pam_drawing::name_of;
use pam_page::Listing;
use pam_paths::{Cursor, Known, Path};
use pam_report::{Fault, PageRenderer, PathsPage};
use std::alloc::Global;
use std::io::Write;

/// Writes the line of a path.
#[tactic(auto, unfolding(crate::specs::json_text::Paths::path_json))]
fn put_path<'x, W: Write>(
    modules: &'x ModulePaths<'x>,
    path: &'x Path,
    out: &mut Out<W>,
) -> Result<(), Device>
    ensures { Writes W.contents out.old out.new result (path_json modules.now path.now) }
{
    let steps = PathValue::Steps {
        modules,
        steps: path.steps(),
    };
    put_line(
        &[
            Member::text("kind", b"path"),
            Member::written("cursor", PathValue::Cursor(path)),
            Member::text("decision", name_of(path.decision())),
            Member::written("steps", steps),
        ],
        out,
    )
}

/// Writes the last line. `next` is the cursor of the last path, if more paths follow it.
#[tactic(auto, unfolding(crate::specs::json_text::Paths::last_json))]
fn put_last<'x, W: Write>(
    side: &'x [u8],
    count: u64,
    next: Option<&'x Cursor>,
    out: &mut Out<W>,
) -> Result<(), Device>
    ensures { Writes W.contents out.old out.new result (last_json side.now count (option_map (λ c. c.now) next.entry)) }
{
    put_line(
        &[
            Member::text("kind", b"page"),
            Member::number("paths", count),
            Member::written("next", PathValue::Next(next)),
            Member::text("direction", side),
        ],
        out,
    )
}

/// Writes the rest of a page that has room for one more path.
#[tactic(auto, unfolding(pam_page::specs::Page::text_by))]
fn put_rest<W: Write>(
    modules: &ModulePaths<'_>,
    listing: &mut Listing<'_, Known>,
    count: u32,
    out: &mut Out<W>,
) -> Result<(), Device>
    requires few { count < 2 ^ 32 - 1 }
    ensures { Writes W.contents out.old out.new result
        (text_by (path_json modules.now) last_json (side listing.old) count (first_page 1 (coming listing.old))) }
{
    let Some(_) = listing.follow() else {
        return put_last(listing.side(), u64::from(count), None, out);
    };
    let path = listing.path();
    put_path(modules, path, out)?;
    let cursor = path.cursor();
    match listing.follow() {
        None => put_last(listing.side(), u64::from(count + 1), None, out),
        Some(_) => put_last(listing.side(), u64::from(count + 1), Some(&cursor), out),
    }
}

/// Writes a page: a line for each of the next paths, at most `limit`, and the last line.
fn put_paths<W: Write>(
    modules: &ModulePaths<'_>,
    listing: &mut Listing<'_, Known>,
    limit: u32,
    out: &mut Out<W>,
) -> Result<(), Device>
    requires some { 1 ≤ limit }
    ensures { Writes W.contents out.old out.new result
        (text_by (path_json modules.now) last_json (side listing.old) 0 (first_page limit (coming listing.old))) }
{
    for count in 0..limit - 1 {
        let Some(_) = listing.follow() else {
            return put_last(listing.side(), u64::from(count), None, out);
        };
        put_path(&*modules, listing.path(), out)?;
    }
    put_rest(modules, listing, limit - 1, out)
}

/// Writes the line of the stack and a page of a listing, and flushes.
fn write_listing<W: Write>(
    page: &PathsPage<'_>,
    listing: &mut Listing<'_, Known>,
    out: &mut Out<W>,
) -> Result<(), Device>
    ensures { WritesAndFlushes W.contents out.old out.new result (page_json (page_value page.now) (side listing.old) (coming listing.old)) }
{
    let stack = page.stack();
    put_stack(page.service(), page.kind(), stack.modules(), out)?;
    let paths = ModulePaths::of(stack);
    put_paths(&paths, listing, page.limit(), out)?;
    out.finish()
}

/// Writes a page of a listing.
fn write_listed<W: Write>(
    page: &PathsPage<'_>,
    listing: &mut Listing<'_, Known>,
    out: &mut Out<W>,
) -> Result<(), Fault>
    ensures { FindsPage (page_value page.now) (Ok listing.old) → PrintsBy W.contents IsJson out.old out.new result (Page (page_value page.now)) }
{
    with_write_fault(write_listing(page, listing, out))
}

/// Renders a page as JSON.
#[derive(Clone, Copy)]
pub(crate) struct PageJson<'p> {
    pub(crate) page: &'p PathsPage<'p>,
}

impl PageJson<'_> {
    /// Writes the page. Finds a cursor that is refused before the first byte.
    // Not inlined, so that a command uses no stack for the values of the others.
    #[inline(never)]
    pub(crate) fn write<W: Write>(&self, alloc: Global, out: &mut Out<W>) -> Result<(), Fault>
        ensures { PrintsBy W.contents IsJson out.old out.new result (Page (page_value self.now.page.now)) }
    {
        self.page.render(alloc, self, out)
    }
}

impl<W: Write> PageRenderer<Out<W>> for PageJson<'_> {
    ghost renders = { λ json listing old new result. FindsPage (page_value json.page.now) (Ok listing)
        → PrintsBy W.contents IsJson old new result (Page (page_value json.page.now)) };

    fn render(&self, listing: &mut Listing<'_, Known>, out: &mut Out<W>) -> Result<(), Fault> {
        write_listed(self.page, listing, out)
    }
}
