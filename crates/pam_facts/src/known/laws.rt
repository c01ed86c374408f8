//! Laws of the definitions that contracts use. Each is the contract of a function with an empty body.

ghost use Rattle.pam_facts.specs.known.Laws.{CursorHasOneVerdict, EveryAssignmentHasOnePath, ListingIsNarrowed, ServiceHasOneListing};
ghost use Rattle.pam_facts.specs.known.Laws.{KnowledgeIsLawful, KnownCodesAreSome, LaterTablesChangeNothing, OneTableAlone};
ghost use Rattle.pam_facts.specs.known.Laws.{SameListing, SameListingAfter, SameListingBefore};

/// If two knowledges allow each module the same codes, they have the same listing, and the same parts of it.
pub fn same_listing()
    ensures all { SameListing }
    ensures after { SameListingAfter }
    ensures before { SameListingBefore }
{}

/// The first line that matches decides, over all access tables in turn. One table alone tells what it told by itself, and a table
/// after one of which a line decides changes nothing.
pub fn access_tables()
    ensures one { OneTableAlone }
    ensures later { LaterTablesChangeNothing }
{}

/// What tables and a returns file tell leaves each module at least one code.
pub fn some_codes()
    ensures codes { KnownCodesAreSome }
    ensures lawful { KnowledgeIsLawful }
{}

/// For each accepted configuration, service and kind, and for what tables tell of the modules' answers, there is exactly
/// one listing of the paths. Every assignment of codes that the modules may return agrees with exactly one path of it, and
/// the decision there is that of the run with that assignment.
pub fn every_path()
    ensures listing { ServiceHasOneListing }
    ensures path { EveryAssignmentHasOnePath }
    ensures narrowed { ListingIsNarrowed }
    ensures verdict { CursorHasOneVerdict }
{}
