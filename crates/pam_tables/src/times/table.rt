//! Time tables, as in time.conf(5): reading them and deciding logins.

ghost use Rattle.std.specs.Prelude.{◌≡◌, true};
ghost use Rattle.pam_tables.specs.times.RuleLines.{are_rules};

use crate::times::error::TimeError;
use crate::times::login::Login;
use crate::times::one_pass::TokenEnds;
use crate::times::rule_lines::RuleLines;
use crate::times::week_time::WeekTime;
use jiff::civil::DateTime;
use pam_text::{Source, Text};
use std::alloc::Global;
use std::marker::Model;

/// The answer for a login.
#[derive(Clone, Copy, Debug, PartialEq, Eq)]
pub enum TimeAnswer {
    Granted,
    /// Denied by the rule in this line.
    Denied(u32),
}

/// A time table of pam_time(8), as in time.conf(5).
#[derive(Drop)]
pub struct TimeTable {
    rules: RuleLines,
    ghost sound: { are_rules rules.text.items rules.lines.items ≡ true },
}

impl Model for TimeTable {
    ghost use Rattle.std.specs.Prelude.{List};
    ghost use Rattle.pam_tables.specs.times.Times.{Rule};
    ghost use Rattle.pam_tables.specs.times.Stored.{stored};

    ghost Value = { List Rule };

    ghost view = { λ t. stored t.rules };
}

impl TimeTable {
    ghost use Rattle.pam_text.specs.Gives.{Gives};
    ghost use Rattle.pam_tables.specs.times.Error.{Tells};
    ghost use Rattle.pam_tables.specs.times.Login.{login_view};
    ghost use Rattle.pam_tables.specs.times.Reading.{rules_of};
    ghost use Rattle.pam_tables.specs.times.Times.{answer_of};

    /// Reads a table, or returns its first fault.
    ///
    /// `TooLong` (line 0) comes first, then `NulByte`, then the lines from the top. Within a line `MissingField`
    /// comes first, then the fields from the left; within a field `BadLogic`, then its tokens from the left. A failed
    /// allocation is `Memory`, with line 0.
    pub fn read(alloc: Global, bytes: &[u8]) -> Result<TimeTable, TimeError>
        ensures { Gives (λ e. Tells e) (λ table. table) result (rules_of bytes.now) }
    {
        let mut text = Text::of(Source::of(bytes)?);
        let mut joined = Vec::new(alloc);
        let ends = TokenEnds::new();
        let mut rules = RuleLines::new(alloc);
        while let Some(line) = text.next_line(&mut joined)? {
            rules.add(line, &ends)?;
        }
        Ok(TimeTable { rules })
    }

    /// Returns the table's answer for a login at a moment. Ignores seconds, and allocates nothing.
    ///
    /// Denied by the first rule whose services, terminals and users match the login and whose times do not include the
    /// moment. A missing terminal is matched as the empty text.
    #[tactic(auto, unfolding(crate::specs::times::Times::answer_of))]
    pub fn decide(&self, login: &Login<'_>, moment: &DateTime) -> TimeAnswer
        ensures { result ≡ answer_of self.now (login_view login.now) moment.now }
    {
        self.rules.answer(login, WeekTime::of(moment))
    }
}
