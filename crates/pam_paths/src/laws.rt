//! Laws of the definitions that the contracts cite: each is the contract of an empty function.

ghost use Rattle.pam_paths.specs.Laws.{CursorTextIsOne, Narrowed, OneListing, OnePath, OneVerdict, PathOfStack};
ghost use Rattle.pam_paths.specs.Laws.{EndsMeet, PagesJoin, PagesJoinBackwards, PartAfter, PartBefore};

/// The paths through the open run of a stack are those through its tree.
pub fn stack_paths()
    ensures { PathOfStack }
{}

/// Two listings of one stack and knowledge are equal.
pub fn one_listing()
    ensures { OneListing }
{}

/// Exactly one path of a listing agrees with an allowed assignment: its own, with its decision.
pub fn one_path()
    ensures { OnePath }
{}

/// The listing under a knowledge is the full listing without the paths that it excludes.
pub fn filter()
    ensures { Narrowed }
{}

/// Two cursors with the same text are equal.
pub fn cursor_text_is_one()
    ensures { CursorTextIsOne }
{}

/// A list of codes is a cursor of a stack, or is refused as a cursor, in exactly one of four ways.
pub fn standing()
    ensures { OneVerdict }
{}

pub use self::standing as verdict;

/// The pages of a listing, each begun at the cursor of the one before, are a prefix of it, and all of it if the last
/// page says `end`.
pub fn pages()
    ensures after { PartAfter }
    ensures joined { PagesJoin }
{}

/// The paths before a path, the path and the paths after it are the listing. Pages of the paths before a path, last
/// first, are a prefix of them.
pub fn both_ends()
    ensures before { PartBefore }
    ensures meet { EndsMeet }
    ensures joined { PagesJoinBackwards }
{}
