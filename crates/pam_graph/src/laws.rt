//! Laws of the definitions that the contracts cite: each is the contract of an empty function.

ghost use Rattle.pam_graph.specs.Laws.{AllMeetAny, MeetingPagesJoin, MeetingPagesJoinBackwards, MostNodes, NoneMeets};

/// Each path meets the goal `Any`, and a goal that no path meets has none.
pub fn goals()
    ensures any { AllMeetAny }
    ensures none { NoneMeets }
{}

/// The pages of the paths that meet a goal, each begun at the cursor of the one before, are a prefix of these paths, and all of
/// them if the last page says `end`; so are the pages of those before a cursor, last first.
pub fn pages()
    ensures after { MeetingPagesJoin }
    ensures before { MeetingPagesJoinBackwards }
{}

/// A graph has at most 65,536 nodes.
pub fn limit()
    ensures { MostNodes }
{}
