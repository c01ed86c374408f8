//! Renderers of pages, which write the paths of a listing in some form.

ghost use Rattle.std.specs.Prelude.{Result};
ghost use Rattle.pam_page.specs.declared.listing.Listing.{Listing};
ghost use Rattle.pam_paths.specs.declared.knowledge.Known.{Known};
ghost use Rattle.pam_report.specs.declared.fault.Fault.{Fault};

use crate::fault::Fault;
use pam_page::Listing;
use pam_paths::Known;

/// What writes a page of paths to a target. `PathsPage::render` opens the listing of its paths.
pub trait PageRenderer<T> {
    /// What `render` does with a listing and a target, and what it returns.
    ghost renders: { Self → Listing Known → T → T → Result (Unit {0}) Fault → Type 0 };

    /// Writes a page of the paths of `listing`.
    fn render(&self, listing: &mut Listing<'_, Known>, target: &mut T) -> Result<(), Fault>
        ensures { renders self.now listing.old target.old target.new result };
}
