//! IPv4 and IPv6 addresses.

ghost use Rattle.std.specs.Prelude.{◌≡◌, ◌≤◌, ◌+◌, ◌<◌, IfSome};
ghost use Rattle.pam_tables.specs.Address.{numeral, octet_of, all_four, v4_of, address_of};

use crate::pieces::v6;
use pam_text::cut;

/// An IPv4 or IPv6 address, as a number.
#[derive(Clone, Copy, Debug, PartialEq, Eq)]
pub enum Address {
    V4(u32),
    V6(u128),
}

/// Parses 1 to `most` digits in a base.
#[tactic(auto, unfolding(crate::specs::Address::numeral))]
pub(crate) fn numeral(base: u32, most: usize, text: &[u8]) -> Option<u32>
    requires least_base { 2 ≤ base }
    requires greatest_base { base ≤ 16 }
    requires few { most ≤ 4 }
    ensures value { result ≡ numeral base most text.now }
    ensures bound { IfSome result (λ n. n < 65536) }
{
    if text.is_empty() || text.len() > most {
        return None;
    }
    let mut number = 0;
    for byte in text {
        let digit = char::from(*byte).to_digit(base)?;
        number = number * base + digit;
    }
    Some(number)
}

#[tactic(auto, unfolding(crate::specs::Address::octet_of))]
fn octet(text: &[u8]) -> Option<u32>
    ensures value { result ≡ octet_of text.now }
    ensures bound { IfSome result (λ n. n < 256) }
{
    if text.len() > 1 && text[0] == b'0' {
        return None;
    }
    let number = numeral(10, 3, text)?;
    if number < 256 { Some(number) } else { None }
}

fn octets(first: &[u8], second: &[u8], third: &[u8], fourth: &[u8]) -> Option<u32>
    ensures { result ≡ all_four (octet_of first.now) (octet_of second.now) (octet_of third.now) (octet_of fourth.now) }
{
    let first = octet(first)?;
    let second = octet(second)?;
    let third = octet(third)?;
    let fourth = octet(fourth)?;
    Some(((first * 256 + second) * 256 + third) * 256 + fourth)
}

/// Parses an IPv4 address: four decimal octets without leading zeros.
pub(crate) fn v4(text: &[u8]) -> Option<u32>
    ensures { result ≡ v4_of text.now }
{
    let (first, rest) = cut(text, b'.')?;
    let (second, rest) = cut(rest, b'.')?;
    let (third, fourth) = cut(rest, b'.')?;
    octets(first, second, third, fourth)
}

impl Address {
    /// Parses an IPv4 or IPv6 address.
    #[tactic(auto, unfolding(crate::specs::Address::address_of))]
    pub fn read(text: &[u8]) -> Option<Address>
        ensures { result ≡ address_of text.now }
    {
        match v4(text) {
            Some(number) => Some(Address::V4(number)),
            None => match v6(text) {
                Some(number) => Some(Address::V6(number)),
                None => None,
            },
        }
    }
}
