//! What the tokens of a rule are compared with.

ghost use Rattle.std.specs.Prelude.{◌≡◌, false};
ghost use Rattle.std.specs.Option.{option_map_or};
ghost use Rattle.pam_tables.specs.times.Entry.{entry_of, holds};
ghost use Rattle.pam_tables.specs.times.inner.Fact.{meets};

use crate::times::entry::TimeEntry;
use crate::times::pattern;
use crate::times::week_time::WeekTime;

/// A fact of a login: a name of it, or its time.
#[derive(Clone, Copy)]
pub(crate) enum Fact<'a> {
    Name(&'a [u8]),
    Time(WeekTime),
}

/// Whether a token is an entry that covers a time.
// Not inlined: the loop over the tokens of a list has no registers to spare.
#[inline(never)]
fn covers(token: &[u8], time: WeekTime) -> bool
    ensures { result ≡ option_map_or (λ entry. holds entry time.day time.minute) (entry_of token.now) false }
{
    match TimeEntry::read(token) {
        Some(entry) => entry.holds(time.day, time.minute),
        None => false,
    }
}

impl Fact<'_> {
    /// Whether a token matches the name, or is an entry that covers the time.
    #[inline(always)]
    pub(crate) fn meets(&self, token: &[u8]) -> bool
        ensures { result ≡ meets self.now token.now }
    {
        match self {
            Fact::Name(name) => pattern::matches(token, name),
            Fact::Time(time) => covers(token, *time),
        }
    }
}
