//! Each difference by itself: whether it shows at a token, a list, a field or a line. `access_findings` and `time_findings`
//! ask each of them at each line.

ghost use Rattle.std.specs.Prelude.{◌≡◌, ◌==◌, ◌<◌, IfSome, codes, length, not, position};
ghost use Rattle.std.specs.List.{list_all, list_any};
ghost use Rattle.std.specs.Option.{option_map};
ghost use Rattle.pam_text.specs.Cut.{cut_at};
ghost use Rattle.pam_tables.specs.Lines.{is_blank};
ghost use Rattle.pam_tables.specs.Network.{network_of};
ghost use Rattle.pam_tables.specs.times.Logic.{is_token_byte as is_token_byte_of};
ghost use Rattle.pam_tables.specs.times.Reading.{fields_view};
ghost use Rattle.pam_released.specs.Bracket.{begins_in_blank};
ghost use Rattle.pam_released.specs.Findings.{ends_in_blank};
ghost use Rattle.pam_released.specs.tables.Access.{after_slash, before_slash, is_decimal_digit};
ghost use Rattle.pam_released.specs.tables.Access.{has_blank_in_token as has_blank_in_token_of, has_leading_blank as has_leading_blank_of};
ghost use Rattle.pam_released.specs.tables.Access.{has_leading_zero as has_leading_zero_of, has_mask_digits as has_mask_digits_of};
ghost use Rattle.pam_released.specs.tables.Access.{has_outer_blank as has_outer_blank_of, has_zero_mask as has_zero_mask_of};
ghost use Rattle.pam_released.specs.tables.Access.{is_loopback as is_loopback_of, is_network as is_network_of};
ghost use Rattle.pam_released.specs.tables.Access.{lacks_line_feed as lacks_line_feed_of};
ghost use Rattle.pam_released.specs.tables.Times.{has_odd_byte as has_odd_byte_of, has_past_midnight as has_past_midnight_of};
ghost use Rattle.pam_released.specs.tables.Times.{have_long as have_long_of, have_odd_byte as have_odd_byte_of};
ghost use Rattle.pam_released.specs.tables.Times.{is_known, is_long, is_past_midnight};

use pam_tables::parts::{Address, Network, is_passed_over};
use pam_tables::times::parts::{Fields, TimeEntry, is_token_byte};
use pam_text::{ByteSet, cut, cut_among, is_table_blank};

/// The least length of a field, in bytes, for which Linux-PAM has no room: it stores the byte that ends the field too.
const ROOM: usize = 1000;

/// 127.0.0.1, as a number.
const LOOPBACK_V4: u32 = 0x7f00_0001;

/// The text after the first slash of a token; empty where there is no slash.
fn after_slash(token: &[u8]) -> &[u8]
    ensures { result.now ≡ after_slash token.now }
{
    match cut(token, b'/') {
        Some((_, mask)) => mask,
        None => b"",
    }
}

/// The text before the first slash of a token; all of it where there is no slash.
fn before_slash(token: &[u8]) -> &[u8]
    ensures { result.now ≡ before_slash token.now }
{
    match cut(token, b'/') {
        Some((front, _)) => front,
        None => token,
    }
}

fn is_network(token: &[u8]) -> bool
    ensures { result ≡ is_network_of (network_of token.now) }
{
    match Network::read(token) {
        Ok(Some(_)) => true,
        Ok(None) => false,
        Err(_) => false,
    }
}

fn is_zeros(mask: &[u8]) -> bool
    ensures { result ≡ list_all (λ b. b == 48) mask.now }
{
    mask.iter().all(|b| *b == b'0')
}

/// A1: whether a token of origins is an address, a slash and a mask of digits of value 0.
pub fn has_zero_mask(token: &[u8]) -> bool
    ensures { result ≡ has_zero_mask_of token.now }
{
    is_zeros(after_slash(token)) && is_network(token)
}

fn is_decimal(mask: &[u8]) -> bool
    ensures { result ≡ list_all is_decimal_digit mask.now }
{
    mask.iter().all(|b| b'0' <= *b && *b <= b'9')
}

fn has_leading_zero(mask: &[u8]) -> bool
    ensures { result ≡ has_leading_zero_of mask.now }
{
    mask.len() > 1 && mask.starts_with(b"0") && is_decimal(mask)
}

/// A6: whether a token of origins is an address, a slash and a mask of several digits, of which the first is 0.
pub fn has_mask_digits(token: &[u8]) -> bool
    ensures { result ≡ has_mask_digits_of token.now }
{
    has_leading_zero(after_slash(token)) && is_network(token)
}

/// A7: whether the address of a token of origins, also before a mask, is 127.0.0.1 or ::1.
pub fn is_loopback(token: &[u8]) -> bool
    ensures { result ≡ is_loopback_of token.now }
{
    match Address::read(before_slash(token)) {
        Some(Address::V4(number)) => number == LOOPBACK_V4,
        Some(Address::V6(number)) => number == 1,
        None => false,
    }
}

fn is_blank_text(text: &[u8]) -> bool
    ensures { result ≡ list_all is_blank text.now }
{
    text.iter().all(|b| is_table_blank(*b))
}

fn begins_in_blank(text: &[u8]) -> bool
    ensures { result ≡ begins_in_blank text.now }
{
    match text.split_first() {
        Some((first, _)) => is_table_blank(*first),
        None => false,
    }
}

fn ends_in_blank(text: &[u8]) -> bool
    ensures { result ≡ ends_in_blank text.now }
{
    match text.split_last() {
        Some((last, _)) => is_table_blank(*last),
        None => false,
    }
}

fn has_outer_blank(text: &[u8]) -> bool
    ensures { result ≡ has_outer_blank_of text.now }
{
    !is_blank_text(text) && (begins_in_blank(text) || ends_in_blank(text))
}

/// A4: whether a list of users or origins has a token with a blank at an end, which is no separator.
pub fn has_blank_in_token(list: &[u8], separators: &ByteSet<'_>) -> bool
    ensures { result ≡ has_blank_in_token_of separators.now.bytes.now list.now }
{
    let mut rest = list;
    while let Some((text, after)) = cut_among(rest, separators) {
        if has_outer_blank(text) {
            return true;
        }
        rest = after;
    }
    has_outer_blank(rest)
}

/// A2: whether a line is the last, of the number `last`, which no line feed ends, and neither blank nor a comment.
pub fn lacks_line_feed(last: usize, number: usize, line: &[u8]) -> bool
    ensures { result ≡ lacks_line_feed_of last number line.now }
{
    number == last && !is_passed_over(line)
}

/// A3: whether a line begins with a blank, and is neither blank nor a comment.
pub fn has_leading_blank(line: &[u8]) -> bool
    ensures { result ≡ has_leading_blank_of line.now }
{
    begins_in_blank(line) && !is_passed_over(line)
}

fn is_sign(byte: u8) -> bool
    ensures { result ≡ list_any (λ s. s == byte) (codes "*_-./:") }
{
    b"*_-./:".contains(&byte)
}

fn is_known(byte: u8) -> bool
    ensures { result ≡ is_known byte }
{
    byte.is_ascii_alphanumeric() || is_sign(byte)
}

fn has_odd_byte(field: &[u8]) -> bool
    ensures { result ≡ has_odd_byte_of field.now }
{
    field.iter().any(|b| is_token_byte(*b) && !is_known(*b))
}

/// T2: whether one of the first three fields has a token with a byte that Linux-PAM takes for no part of one.
pub fn have_odd_byte(fields: Fields<'_>) -> bool
    ensures { result ≡ have_odd_byte_of (fields_view fields.entry) }
{
    has_odd_byte(fields.services) || has_odd_byte(fields.terminals) || has_odd_byte(fields.users)
}

fn is_long(field: &[u8]) -> bool
    ensures { result ≡ is_long field.now }
{
    field.len() >= ROOM
}

/// T3: whether a field has 1,000 bytes or more.
pub fn have_long(fields: Fields<'_>) -> bool
    ensures { result ≡ have_long_of (fields_view fields.entry) }
{
    is_long(fields.services)
        || is_long(fields.terminals)
        || is_long(fields.users)
        || is_long(fields.times)
}

fn is_past_midnight(token: &[u8]) -> bool
    ensures { result ≡ is_past_midnight token.now }
{
    match TimeEntry::read(token) {
        Some(entry) => entry.goes_past_midnight(),
        None => false,
    }
}

/// The index of the first byte that is no part of a token.
fn token_end(text: &[u8]) -> Option<usize>
    ensures value { result ≡ position (λ b. not (is_token_byte_of b)) text.now }
    ensures bound { IfSome result (λ i. i < length text.now) }
{
    text.iter().position(|b| !is_token_byte(*b))
}

/// The bytes before and after the first byte that is no part of a token.
fn cut_token(text: &[u8]) -> Option<(&[u8], &[u8])>
    ensures value { option_map (λ p. (p.0.now, p.1.now)) result ≡ cut_at (λ b. not (is_token_byte_of b)) text.now }
    ensures shorter { IfSome result (λ p. length p.1.now < length text.now) }
{
    let index = token_end(text)?;
    let (token, rest) = text.split_at(index);
    Some((token, rest.split_at(1).1))
}

/// T4: whether the times of a rule have a range that goes past midnight.
pub fn has_past_midnight(times: &[u8]) -> bool
    ensures { result ≡ has_past_midnight_of times.now }
{
    let mut rest = times;
    while let Some((token, after)) = cut_token(rest) {
        if is_past_midnight(token) {
            return true;
        }
        rest = after;
    }
    is_past_midnight(rest)
}
