//! IPv6 addresses, read piece by piece.

ghost use Rattle.std.specs.Prelude.{◌≡◌, ◌≤◌, ◌+◌, ◌<◌, ◌*◌, ◌^◌, ◌∷◌, [], Some, true, false, replicate};
ghost use Rattle.std.specs.Option.{option_map};
ghost use Rattle.pam_tables.specs.Address.{v6_of, double_colon as double_colon_of, around_zeros as around_zeros_of, pieces_of, last_pieces, number_from};
ghost use Rattle.pam_tables.specs.inner.Address.{more_pieces};

use crate::address::{numeral, v4};
use pam_text::cut;

/// The leading 16-bit pieces of an IPv6 address: their value as one number, and their count.
#[derive(Clone, Copy)]
struct Pieces {
    number: u128,
    count: u32,
    ghost few: { count ≤ 8 },
    ghost fits: { number < 65536 ^ count },
}

impl Pieces {
    fn none() -> Pieces
        ensures number { result.number ≡ 0 }
        ensures count { result.count ≡ 0 }
    {
        Pieces {
            number: 0,
            count: 0,
        }
    }

    fn push(self, piece: u32) -> Pieces
        requires room { self.count < 8 }
        requires fits { piece < 65536 }
        ensures number { result.number ≡ self.number * 65536 + piece }
        ensures count { result.count ≡ self.count + 1 }
    {
        Pieces {
            number: self.number * 65536 + u128::from(piece),
            count: self.count + 1,
        }
    }

    /// Appends a piece. Returns `None` if there are eight already.
    fn then(self, piece: u32) -> Option<Pieces>
        requires { piece < 65536 }
        ensures { option_map (λ p. (p.number, p.count)) result ≡ more_pieces self.number self.count (Some (piece ∷ [])) }
    {
        if self.count < 8 {
            Some(self.push(piece))
        } else {
            None
        }
    }

    /// Appends the text after the last colon: a piece, or an IPv4 address as two pieces if `ends_in_v4`.
    fn then_last(self, text: &[u8], ends_in_v4: bool) -> Option<Pieces>
        ensures { option_map (λ p. (p.number, p.count)) result ≡ more_pieces self.number self.count (last_pieces ends_in_v4 text.now) }
    {
        match numeral(16, 4, text) {
            Some(piece) => self.then(piece),
            None => {
                if !ends_in_v4 {
                    return None;
                }
                let address = v4(text)?;
                let high = self.then(address / 65536)?;
                high.then(address % 65536)
            }
        }
    }

    /// Appends the pieces of a text, which are joined by colons.
    fn then_text(self, text: &[u8], ends_in_v4: bool) -> Option<Pieces>
        ensures { option_map (λ p. (p.number, p.count)) result ≡ more_pieces self.number self.count (pieces_of ends_in_v4 text.now) }
    {
        if text.is_empty() {
            return Some(self);
        }
        let mut pieces = self;
        let mut rest = text;
        while let Some((front, after)) = cut(rest, b':') {
            let piece = numeral(16, 4, front)?;
            pieces = pieces.then(piece)?;
            rest = after;
        }
        pieces.then_last(rest, ends_in_v4)
    }

    /// Appends `count` zero pieces.
    fn then_zeros(self, count: u32) -> Pieces
        requires { self.count + count ≤ 8 }
        ensures number { result.number ≡ number_from 65536 self.number (replicate count 0) }
        ensures count { result.count ≡ self.count + count }
    {
        let mut pieces = self;
        for _zero in 0..count {
            pieces = pieces.push(0);
        }
        pieces
    }
}

/// Splits a text at the first `::`.
fn double_colon(text: &[u8]) -> Option<(&[u8], &[u8])>
    ensures { option_map (λ p. (p.0.now, p.1.now)) result ≡ double_colon_of text.now }
{
    for place in 0..text.len() {
        let (front, after) = text.split_at(place);
        if after.starts_with(b"::") {
            return Some((front, after.split_at(2).1));
        }
    }
    None
}

/// Returns the address with these pieces before and after `::`, which is one or more zero pieces.
fn around_zeros(front: &[u8], back: &[u8]) -> Option<u128>
    ensures { result ≡ around_zeros_of (pieces_of false front.now) (pieces_of true back.now) }
{
    let front = Pieces::none().then_text(front, false)?;
    let after = Pieces::none().then_text(back, true)?;
    if front.count + after.count >= 8 {
        return None;
    }
    let zeros = front.then_zeros(8 - (front.count + after.count));
    let pieces = zeros.then_text(back, true)?;
    Some(pieces.number)
}

/// Parses an IPv6 address.
#[tactic(auto, unfolding(crate::specs::Address::v6_of))]
pub(crate) fn v6(text: &[u8]) -> Option<u128>
    ensures { result ≡ v6_of text.now }
{
    match double_colon(text) {
        Some((front, back)) => around_zeros(front, back),
        None => {
            let pieces = Pieces::none().then_text(text, true)?;
            if pieces.count == 8 {
                Some(pieces.number)
            } else {
                None
            }
        }
    }
}
