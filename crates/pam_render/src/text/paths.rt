//! The text of `paths`: a page.

ghost use Rattle.std.specs.Prelude.{Ok, max};
ghost use Rattle.pam_codes.specs.Out.{WritesAndFlushes};
ghost use Rattle.pam_page.specs.Coming.{coming, side};
ghost use Rattle.pam_page.specs.Page.{first_page, page_text as lines_text};
ghost use Rattle.pam_report.specs.PageView.{FindsPage, page_value};
ghost use Rattle.pam_report.specs.Reply.{Page};
ghost use Rattle.pam_render.specs.text.inner.Leaves.{Prints};
ghost use Rattle.pam_render.specs.text.Page.{page_text};

use crate::parts::with_write_fault;
use crate::text::header::put_header;
use pam_codes::{Device, Out};
use pam_page::{LineTexts, Listing, put_page};
use pam_paths::Known;
use pam_report::{Fault, PageRenderer, PathsPage};
use std::alloc::Global;
use std::io::Write;

/// Writes the lines of a page, and flushes.
fn write_lines<W: Write>(
    page: &PathsPage<'_>,
    listing: &mut Listing<'_, Known>,
    texts: LineTexts,
    out: &mut Out<W>,
) -> Result<(), Device>
    ensures { let lines = lines_text (side listing.old) (first_page (max (page_value page.now).limit 1) (coming listing.old)) in
        WritesAndFlushes W.contents out.old out.new result lines }
{
    put_page(listing, page.limit(), texts, out)?;
    out.finish()
}

fn write_listing<W: Write>(
    page: &PathsPage<'_>,
    listing: &mut Listing<'_, Known>,
    texts: LineTexts,
    out: &mut Out<W>,
) -> Result<(), Device>
    ensures { WritesAndFlushes W.contents out.old out.new result (page_text (page_value page.now) (side listing.old) (coming listing.old)) }
{
    put_header(page.service(), page.kind(), page.stack().modules(), out)?;
    write_lines(page, listing, texts, out)
}

/// Writes a page of a listing. Allocates before the first byte.
#[inline(never)]
fn write_listed<W: Write>(
    alloc: Global,
    page: &PathsPage<'_>,
    listing: &mut Listing<'_, Known>,
    out: &mut Out<W>,
) -> Result<(), Fault>
    ensures { FindsPage (page_value page.now) (Ok listing.old) → Prints W.contents out.old out.new result (Page (page_value page.now)) }
{
    let texts = match LineTexts::new(alloc) {
        Ok(texts) => texts,
        Err(_) => return Err(Fault::Memory),
    };
    with_write_fault(write_listing(page, listing, texts, out))
}

/// Renders a page as text.
#[derive(Clone, Copy)]
pub(crate) struct PageText<'p> {
    pub(crate) alloc: Global,
    pub(crate) page: &'p PathsPage<'p>,
}

impl PageText<'_> {
    /// Writes the page. Finds a cursor that is refused before the first byte.
    // Not inlined, so that a command uses no stack for the values of the others.
    #[inline(never)]
    pub(crate) fn write<W: Write>(&self, out: &mut Out<W>) -> Result<(), Fault>
        ensures { Prints W.contents out.old out.new result (Page (page_value self.now.page.now)) }
    {
        self.page.render(self.alloc, self, out)
    }
}

impl<W: Write> PageRenderer<Out<W>> for PageText<'_> {
    ghost renders = { λ text listing old new result. FindsPage (page_value text.page.now) (Ok listing)
        → Prints W.contents old new result (Page (page_value text.page.now)) };

    fn render(&self, listing: &mut Listing<'_, Known>, out: &mut Out<W>) -> Result<(), Fault> {
        write_listed(self.alloc, self.page, listing, out)
    }
}
