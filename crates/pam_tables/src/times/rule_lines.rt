//! The lines of a table that have a rule.

ghost use Rattle.std.specs.Prelude.{◌≡◌, ℕ, [], Ok, Some, OnOk};
ghost use Rattle.pam_text.specs.Gives.{Gives};
ghost use Rattle.pam_tables.specs.times.Error.{Tells};
ghost use Rattle.pam_tables.specs.times.Login.{login_view};
ghost use Rattle.pam_tables.specs.times.Reading.{fields_view, rule_of};
ghost use Rattle.pam_tables.specs.times.inner.RuleLines.{name_holds, time_holds, others_deny, with_line};
ghost use Rattle.pam_tables.specs.times.Times.{Rule, denies, answer_at};
ghost use Rattle.pam_tables.specs.times.Stored.{stored};
ghost use Rattle.pam_tables.specs.times.inner.Stored.{AreStored};

use crate::times::error::TimeError;
use crate::times::fact::Fact;
use crate::times::logic::is_true;
use crate::times::login::{Login, drop_dev};
use crate::times::one_pass::TokenEnds;
use crate::times::reading::{Fields, check_line, cut_others};
use crate::times::table::TimeAnswer;
use crate::times::week_time::WeekTime;
use pam_text::{Line, cut};
use std::alloc::Global;

/// The number and the length of a line.
#[derive(Clone, Copy)]
pub(crate) struct RuleLine {
    pub(crate) number: u32,
    pub(crate) len: usize,
}

/// Lines that have a rule each. They are checked when they are added, and read again for each login.
#[derive(Drop)]
pub(crate) struct RuleLines {
    /// The bytes of the lines, one after another, without their ends.
    pub(crate) text: Vec<u8>,
    pub(crate) lines: Vec<RuleLine>,
}

/// Whether a text is a list of names that matches a name of a login.
#[inline(never)]
fn name_holds(text: &[u8], name: &[u8]) -> bool
    ensures { result ≡ name_holds text.now name.now }
{
    is_true(text, &Fact::Name(name))
}

/// Whether a text is a list of entries that covers a time.
#[inline(never)]
fn time_holds(text: &[u8], time: WeekTime) -> bool
    ensures { result ≡ time_holds text.now time.day time.minute }
{
    is_true(text, &Fact::Time(time))
}

/// Whether the terminals and users in the fields match a login, and the times do not include this time.
fn others_deny(fields: Fields<'_>, login: &Login<'_>, time: WeekTime) -> bool
    ensures { result ≡ others_deny (fields_view fields.entry) (login_view login.now) time.day time.minute }
{
    name_holds(fields.terminals, drop_dev(login.tty))
        && name_holds(fields.users, login.user)
        && !time_holds(fields.times, time)
}

/// Whether the rule of a line denies a login at a time. Most rules are for other services, so that the other fields are
/// looked for only if the services match.
fn denies(line: &[u8], login: &Login<'_>, time: WeekTime) -> bool
    ensures { (number : ℕ) (rule : Rule) → rule_of number line.now ≡ Ok (Some rule)
        → result ≡ denies rule (login_view login.now) time.day time.minute }
{
    let Some((services, rest)) = cut(line, b';') else {
        return false;
    };
    if !name_holds(services, login.service) {
        return false;
    }
    match cut_others(services, rest) {
        Some(fields) => others_deny(fields, login, time),
        None => false,
    }
}

impl RuleLines {
    pub(crate) fn new(alloc: Global) -> Self
        ensures rules { stored result ≡ [] }
        ensures stored { AreStored result }
    {
        RuleLines {
            text: Vec::new(alloc),
            lines: Vec::new(alloc),
        }
    }

    /// Checks a line, and adds it if it has a rule.
    pub(crate) fn add(&mut self, line: Line<'_>, ends: &TokenEnds) -> Result<(), TimeError>
        requires { AreStored self.old }
        ensures rules { Gives (λ e. Tells e) (λ _. stored self.new) result
            (with_line (stored self.old) line.entry.number (rule_of line.entry.number line.entry.bytes.now)) }
        ensures stored { OnOk result (AreStored self.new) }
    {
        let has_rule = match check_line(line.bytes, ends) {
            Ok(has_rule) => has_rule,
            Err(fault) => return Err(TimeError::at(fault, line.number)),
        };
        if has_rule {
            self.text.extend_from_slice(line.bytes)?;
            self.lines.push(RuleLine {
                number: line.number,
                len: line.bytes.len(),
            })?;
        }
        Ok(())
    }

    /// Returns the answer for a login at a time.
    pub(crate) fn answer(&self, login: &Login<'_>, time: WeekTime) -> TimeAnswer
        requires { AreStored self.now }
        ensures { result ≡ answer_at (stored self.now) (login_view login.now) time.day time.minute }
    {
        let mut rest = self.text.as_slice();
        for line in &self.lines {
            let (rule, after) = rest.split_at(line.len);
            if denies(rule, login, time) {
                return TimeAnswer::Denied(line.number);
            }
            rest = after;
        }
        TimeAnswer::Granted
    }
}
