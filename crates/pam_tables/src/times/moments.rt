//! Moments in civil time.

ghost use Rattle.std.specs.Prelude.{◌≡◌, ◌↔◌, ◌+◌, ◌<◌, length, pos, IsOk, IsSome, IfOk, IfErr, IfSome, Some, Err};
ghost use Rattle.jiff.specs.Words.{read_whole};
ghost use Rattle.pam_tables.specs.times.Moments.{has_marks, pair_at, seconds_of, parts_of, Exist, HasParts, IsInstant, Shows};
ghost use Rattle.pam_tables.specs.times.inner.Moments.{IsShort};

use jiff::Timestamp;
use jiff::civil::DateTime;
use jiff::tz::TimeZone;
use thiserror::Error;

/// Why there is no moment. No function here returns `Memory`.
#[derive(Clone, Copy, Debug, PartialEq, Eq, Error)]
pub enum MomentError {
    /// The instant is outside the range of the calendar.
    #[error("the instant lies outside the years -9999 to 9999")]
    Range,
    /// The time zone is no POSIX rule.
    #[error("the zone is no POSIX rule")]
    Rule,
    #[error("no memory")]
    Memory,
    /// The text is no date and time, or names one that does not exist.
    #[error("no date and time")]
    Syntax,
}

/// The fields of a civil time, not yet checked against the calendar.
#[derive(Clone, Copy)]
struct CivilParts {
    year: u16,
    month: u8,
    day: u8,
    hour: u8,
    minute: u8,
    second: u8,
}

/// Converts a number of two digits to the type `jiff` expects.
fn signed(pair: u8) -> i8
    requires { pair < 100 }
    ensures { result ≡ pos pair }
{
    pair as i8
}

/// Parses two digits at an index.
pub(crate) fn pair(text: &[u8], at: usize) -> Option<u8>
    requires { at + 1 < length text.now }
    ensures value { result ≡ pair_at text.now at }
    ensures short { IfSome result (λ n. n < 100) }
{
    let tens = text[at];
    let ones = text[at + 1];
    if tens.is_ascii_digit() && ones.is_ascii_digit() {
        Some(10 * (tens - b'0') + (ones - b'0'))
    } else {
        None
    }
}

fn seconds(text: &[u8]) -> Option<u8>
    ensures value { result ≡ seconds_of text.now }
    ensures short { IfSome result (λ n. n < 100) }
{
    if text.len() == 16 {
        Some(0)
    } else if text.len() == 19 && text[16] == b':' {
        pair(text, 17)
    } else {
        None
    }
}

fn has_marks(text: &[u8]) -> bool
    ensures { result ≡ has_marks text.now }
{
    16 <= text.len() && text[4] == b'-' && text[7] == b'-' && text[10] == b'T' && text[13] == b':'
}

fn written_parts(text: &[u8]) -> Option<CivilParts>
    ensures value { result ≡ parts_of text.now }
    ensures short { IfSome result IsShort }
{
    if !has_marks(text) {
        return None;
    }
    let century = pair(text, 0)?;
    let year = pair(text, 2)?;
    let month = pair(text, 5)?;
    let day = pair(text, 8)?;
    let hour = pair(text, 11)?;
    let minute = pair(text, 14)?;
    let second = seconds(text)?;
    Some(CivilParts {
        year: 100 * u16::from(century) + u16::from(year),
        month,
        day,
        hour,
        minute,
        second,
    })
}

/// Returns the civil time with these fields, if there is one.
fn datetime(parts: CivilParts) -> Result<DateTime, MomentError>
    requires { IsShort parts }
    ensures accepts { IsOk result ↔ Exist (Some parts) }
    ensures value { IfOk result (HasParts (Some parts)) }
    ensures refusal { IfErr result (λ e. e ≡ MomentError.Syntax) }
{
    let year = parts.year as i16;
    let month = signed(parts.month);
    let day = signed(parts.day);
    let hour = signed(parts.hour);
    let minute = signed(parts.minute);
    let second = signed(parts.second);
    match DateTime::new(year, month, day, hour, minute, second, 0) {
        Ok(moment) => Ok(moment),
        Err(_) => Err(MomentError::Syntax),
    }
}

/// Parses a civil time, written `YYYY-MM-DDTHH:MM` or `YYYY-MM-DDTHH:MM:SS`. Returns `Syntax` for any other text, and
/// for a date or time that does not exist.
pub fn civil(text: &[u8]) -> Result<DateTime, MomentError>
    ensures accepts { IsOk result ↔ Exist (parts_of text.now) }
    ensures value { IfOk result (HasParts (parts_of text.now)) }
    ensures refusal { IfErr result (λ e. e ≡ MomentError.Syntax) }
{
    match written_parts(text) {
        Some(parts) => datetime(parts),
        None => Err(MomentError::Syntax),
    }
}

/// Converts an instant, in seconds since 1970-01-01T00:00 UTC, to the civil time in a POSIX time zone.
///
/// Returns `Range` if the instant is not from -9999-01-02T01:59:59Z to 9999-12-30T22:00:00Z; else `Rule` if the zone is
/// no POSIX rule. Allocates nothing.
pub fn moment(unix_seconds: i64, zone_rule: &str) -> Result<DateTime, MomentError>
    ensures range { result ≡ Err MomentError.Range ↔ ¬ (IsInstant unix_seconds) }
    ensures rule { result ≡ Err MomentError.Rule ↔ IsInstant unix_seconds × ¬ (IsSome (read_whole zone_rule.now)) }
    ensures succeeds { IsOk result ↔ IsInstant unix_seconds × IsSome (read_whole zone_rule.now) }
    ensures value { IfOk result (Shows unix_seconds zone_rule.now) }
{
    let instant = match Timestamp::from_second(unix_seconds) {
        Ok(instant) => instant,
        Err(_) => return Err(MomentError::Range),
    };
    let zone = match TimeZone::posix(zone_rule) {
        Ok(zone) => zone,
        Err(_) => return Err(MomentError::Rule),
    };
    Ok(instant.to_zoned(zone).datetime())
}
