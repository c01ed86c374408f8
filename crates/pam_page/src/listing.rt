//! The paths that a page is taken from, in either direction.

ghost use Rattle.std.specs.Prelude.{◌≡◌, ◌≤◌, ◌+◌, ◌∷◌, [], IfSome, MatchOption, drop, take};
ghost use Rattle.pam_page.specs.Coming.{coming, followed, most_steps, side, work};

use pam_graph::Walks;
use pam_paths::{Before, Explorer, Knowledge, Path};

/// The remaining paths through a stack, in either direction.
#[derive(Drop)]
pub enum Listing<'a, K: Knowledge> {
    /// In ascending order of cursors.
    Forward(Explorer<'a, K>),
    /// In descending order of cursors.
    Backward(Before<'a, K>),
    /// The walks of a graph, in ascending order of cursors.
    WalksForward(Walks<'a>),
    /// The walks of a graph, in descending order of cursors.
    WalksBackward(Walks<'a>),
}

impl<K: Knowledge> Listing<'_, K> {
    /// Follows the next path. Returns the number of its first steps that it shares with the path followed before; `None`
    /// if no path is left.
    pub fn follow(&mut self) -> Option<usize>
        ensures path { MatchOption result (coming self.old ≡ []) (λ _. coming self.old ≡ followed self.new ∷ coming self.new) }
        ensures shared { IfSome result (λ shared. take shared (followed self.new).steps ≡ take shared (followed self.old).steps) }
        ensures left { coming self.new ≡ drop 1 (coming self.old) }
        ensures side { side self.new ≡ side self.old }
        ensures most { most_steps self.new ≡ most_steps self.old }
        ensures work { work self.new ≤ work self.old + most_steps self.old }
        ensures grows { work self.old ≤ work self.new }
    {
        match self {
            Listing::Forward(explorer) => explorer.follow(),
            Listing::Backward(before) => before.follow(),
            Listing::WalksForward(walks) => walks.follow(),
            Listing::WalksBackward(walks) => walks.follow(),
        }
    }

    /// The path followed last.
    pub fn path(&self) -> &Path
        ensures { result.now ≡ followed self.now }
    {
        match self {
            Listing::Forward(explorer) => explorer.path(),
            Listing::Backward(before) => before.path(),
            Listing::WalksForward(walks) => walks.path(),
            Listing::WalksBackward(walks) => walks.path(),
        }
    }

    /// Returns `after` or `before`: the option that, with the last cursor of a page, lists the next one.
    pub fn side(&self) -> &'static [u8]
        ensures { result.now ≡ side self.now }
    {
        match self {
            Listing::Forward(_) => b"after",
            Listing::Backward(_) => b"before",
            Listing::WalksForward(_) => b"after",
            Listing::WalksBackward(_) => b"before",
        }
    }
}
