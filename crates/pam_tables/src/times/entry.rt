//! Entries of the times field: days of the week and a range of the day.

ghost use Rattle.std.specs.Prelude.{◌≡◌, ◌+◌, ◌<◌, ◌&&◌, length, slice_index_or, false};
ghost use Rattle.pam_codes.specs.Code.{same_name};
ghost use Rattle.pam_tables.specs.times.Entry.{covers, named_days, days_of, time_at, finish_at, entry_of, goes_past_midnight, holds};
ghost use Rattle.pam_tables.specs.times.inner.Entry.{toggled};

use crate::times::moments::pair;

/// A range of days of the week, both ends included. Monday is 0.
#[derive(Clone, Copy)]
struct DayRun {
    first: u8,
    last: u8,
}

impl DayRun {
    const fn new(first: u8, last: u8) -> Self
        ensures { result ≡ record { first = first; last = last } }
    {
        DayRun { first, last }
    }

    fn covers(self, day: u8) -> bool
        ensures { result ≡ covers self day }
    {
        self.first <= day && day <= self.last
    }
}

/// Whether two letters spell a name, in either case.
#[inline(always)]
#[tactic(auto, using(crate::proofs::TimesProofs::EntrySteps::day_letters))]
fn is_day(name: &[u8], day: &[u8; 2]) -> bool
    requires { length name.now ≡ 2 }
    ensures { result ≡ same_name name.now day.now }
{
    name[0].eq_ignore_ascii_case(&day[0]) && name[1].eq_ignore_ascii_case(&day[1])
}

/// Returns the days that two letters name, in either case.
#[inline(always)]
#[tactic(auto, unfolding(crate::specs::times::Entry::named_days))]
fn named_days(name: &[u8]) -> Option<DayRun>
    requires { length name.now ≡ 2 }
    ensures { result ≡ named_days name.now }
{
    if is_day(name, b"mo") {
        Some(DayRun::new(0, 0))
    } else if is_day(name, b"tu") {
        Some(DayRun::new(1, 1))
    } else if is_day(name, b"we") {
        Some(DayRun::new(2, 2))
    } else if is_day(name, b"th") {
        Some(DayRun::new(3, 3))
    } else if is_day(name, b"fr") {
        Some(DayRun::new(4, 4))
    } else if is_day(name, b"sa") {
        Some(DayRun::new(5, 5))
    } else if is_day(name, b"su") {
        Some(DayRun::new(6, 6))
    } else if is_day(name, b"wk") {
        Some(DayRun::new(0, 4))
    } else if is_day(name, b"wd") {
        Some(DayRun::new(5, 6))
    } else if is_day(name, b"al") {
        Some(DayRun::new(0, 6))
    } else {
        None
    }
}

/// Toggles the days of a range in a set.
#[inline(always)]
fn toggled(days: [bool; 7], run: DayRun) -> [bool; 7]
    ensures { result ≡ toggled days run }
{
    [
        days[0] != run.covers(0),
        days[1] != run.covers(1),
        days[2] != run.covers(2),
        days[3] != run.covers(3),
        days[4] != run.covers(4),
        days[5] != run.covers(5),
        days[6] != run.covers(6),
    ]
}

/// Reads pairs of letters that name days. A day named an even number of times is not in the set, as in time.conf(5).
#[inline(always)]
fn days(text: &[u8]) -> Option<[bool; 7]>
    ensures { result ≡ days_of text.now }
{
    let mut days = [false; 7];
    let mut rest = text;
    while !rest.is_empty() {
        let (name, after) = rest.split_at_checked(2)?;
        days = toggled(days, named_days(name)?);
        rest = after;
    }
    Some(days)
}

/// Parses `HHMM` at an index. Returns the minute of the day.
fn time(text: &[u8], at: usize) -> Option<u16>
    requires { at + 3 < length text.now }
    ensures { result ≡ time_at text.now at }
{
    let hour = pair(text, at)?;
    let minute = pair(text, at + 2)?;
    if hour <= 23 && minute <= 59 {
        Some(60 * u16::from(hour) + u16::from(minute))
    } else {
        None
    }
}

/// Like `time`, but also accepts `2400`, the end of the day.
fn finish(text: &[u8], at: usize) -> Option<u16>
    requires { at + 3 < length text.now }
    ensures { result ≡ finish_at text.now at }
{
    if text[at] == b'2' && text[at + 1] == b'4' && text[at + 2] == b'0' && text[at + 3] == b'0' {
        Some(1440)
    } else {
        time(text, at)
    }
}

/// The days of the week from Monday on, and the range of minutes of the day. The finish is excluded; if it is not after
/// the start, the range goes past midnight and belongs to the day on which it starts.
#[derive(Clone, Copy)]
pub struct TimeEntry {
    days: [bool; 7],
    start: u16,
    finish: u16,
}

impl TimeEntry {
    /// Parses one or more days and `HHMM-HHMM`. Inlined, so that a caller that only asks whether there is an entry does
    /// not build its days.
    #[inline(always)]
    #[tactic(auto, unfolding(crate::specs::times::Entry::entry_of))]
    pub fn read(text: &[u8]) -> Option<TimeEntry>
        ensures { result ≡ entry_of text.now }
    {
        if text.len() < 11 {
            return None;
        }
        let at = text.len() - 9;
        let days = days(text.split_at(at).0)?;
        let start = time(text, at)?;
        if text[at + 4] != b'-' {
            return None;
        }
        let finish = finish(text, at + 5)?;
        Some(TimeEntry {
            days,
            start,
            finish,
        })
    }

    /// Whether the range goes past midnight: its finish is not after its start.
    pub fn goes_past_midnight(&self) -> bool
        ensures { result ≡ goes_past_midnight self.now }
    {
        self.start >= self.finish
    }

    fn is_on(&self, day: u8) -> bool
        requires { day < 7 }
        ensures { result ≡ slice_index_or self.now.days day false }
    {
        self.days[usize::from(day)]
    }

    /// Whether the entry covers a minute of a day of the week.
    #[tactic(auto, unfolding(crate::specs::times::Entry::holds))]
    pub(crate) fn holds(&self, day: u8, minute: u16) -> bool
        requires { day < 7 }
        ensures { result ≡ holds self.now day minute }
    {
        if self.start < self.finish {
            return self.is_on(day) && self.start <= minute && minute < self.finish;
        }
        if minute >= self.start && self.is_on(day) {
            return true;
        }
        minute < self.finish && self.is_on((day + 6) % 7)
    }
}
