//! The explorer of the paths before a cursor.

ghost use Rattle.std.specs.Prelude.{◌≡◌, ◌+◌, ◌*◌, ◌≤◌, [], IfOk, MatchResult};
ghost use Rattle.pam_conf.specs.Stack.{Items};
ghost use Rattle.pam_dispatch.specs.Flat.{modules_of, runs_of};
ghost use Rattle.pam_dispatch.specs.Tree.{runs_of_stack};
ghost use Rattle.pam_paths.specs.Cursor.{IsAccepted, IsRefusal};
ghost use Rattle.pam_paths.specs.Listing.{IsListingBefore};
ghost use Rattle.pam_paths.specs.Paths.{path_of, path_through};

use crate::cursor::{Cursor, CursorError};
use crate::direction::Direction;
use crate::explorer::Explorer;
use crate::knowledge::Knowledge;
use pam_dispatch::Program;

/// An iterator over the paths before a cursor, last first.
pub type Before<'a, K> = Explorer<'a, K>;

impl<'a, K: Knowledge> Explorer<'a, K> {
    /// Explores the paths before `cursor`, last first. Accepts and refuses cursors like `after`.
    #[inline(never)]
    pub fn before(
        program: &'a Program,
        knowledge: &'a K,
        cursor: &Cursor,
    ) -> Result<Before<'a, K>, CursorError>
        ensures verdict { MatchResult result
            (λ _. IsAccepted (modules_of program.now) (path_of (runs_of program.now)) cursor.now)
            (IsRefusal (modules_of program.now) (path_of (runs_of program.now)) cursor.now) }
        ensures listing { IfOk result (λ b. IsListingBefore (K.allows knowledge.now) (modules_of program.now) (path_of (runs_of program.now))
            cursor.now b.coming) }

        // The same for the tree of the program's stack.
        ensures tree { (items : Items) → runs_of program.now ≡ runs_of_stack items → MatchResult result
            (λ _. IsAccepted (modules_of program.now) (path_through items) cursor.now)
            (IsRefusal (modules_of program.now) (path_through items) cursor.now) }
        ensures stack { (items : Items) → runs_of program.now ≡ runs_of_stack items
            → IfOk result (λ b. IsListingBefore (K.allows knowledge.now) (modules_of program.now) (path_through items) cursor.now b.coming) }
        ensures path { IfOk result (λ b. b.path.steps ≡ []) }
        ensures modules { IfOk result (λ b. b.modules ≡ modules_of program.now) }
        ensures work { IfOk result (λ b. b.work ≤ 64 * (modules_of program.now + 1)) }
    {
        Explorer::at(program, knowledge, Direction::Backward, cursor)
    }
}
