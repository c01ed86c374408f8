//! Lists of tokens with EXCEPT, as in access.conf(5).

ghost use Rattle.std.specs.Prelude.{◌≡◌, ◌∷◌, [], List};
ghost use Rattle.pam_tables.specs.declared.lists.Mark.{Mark as MarkOf};
ghost use Rattle.pam_tables.specs.Lists.{list_matches, mark_of};
ghost use Rattle.pam_tables.specs.inner.Lists.{matches_after};

/// What a token means for the list it is in.
#[derive(Clone, Copy, Debug, PartialEq, Eq)]
pub(crate) enum Mark {
    /// The word EXCEPT.
    Except,
    Match,
    Miss,
}

impl Mark {
    /// Returns the mark of a token other than EXCEPT.
    pub(crate) fn of(matches: bool) -> Mark
        ensures { result ≡ mark_of matches }
    {
        if matches { Mark::Match } else { Mark::Miss }
    }
}

/// The state of matching a list, whose parts are separated by EXCEPT.
#[derive(Clone, Copy)]
pub(crate) struct ListState {
    /// Whether the number of closed parts is odd.
    is_odd: bool,
    /// Whether a token of the open part matches.
    holds: bool,
    /// Whether a closed part does not hold. The remaining tokens are then ignored.
    is_decided: bool,
}

impl ListState {
    pub(crate) fn new() -> ListState
        ensures { (rest : List MarkOf) → matches_after result rest ≡ list_matches rest }
    {
        ListState {
            is_odd: false,
            holds: false,
            is_decided: false,
        }
    }

    /// Returns the state after one more token.
    pub(crate) fn then(self, mark: Mark) -> ListState
        ensures { (rest : List MarkOf) → matches_after result rest ≡ matches_after self (mark ∷ rest) }
    {
        if self.is_decided {
            return self;
        }
        match mark {
            Mark::Match => ListState {
                holds: true,
                ..self
            },
            Mark::Miss => self,
            Mark::Except => ListState {
                is_odd: self.is_odd != self.holds,
                holds: false,
                is_decided: !self.holds,
            },
        }
    }

    /// Whether the list matches, if it ends here.
    pub(crate) fn matches(self) -> bool
        ensures { result ≡ matches_after self [] }
    {
        if self.is_decided {
            self.is_odd
        } else {
            self.is_odd != self.holds
        }
    }
}
