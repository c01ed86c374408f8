//! Sets of bytes, and cutting a text at a byte.

ghost use Rattle.std.specs.Prelude.{◌≡◌, ◌∷◌, ◌<◌, [], ℕ, IfSome, false, get_or, length, position};
ghost use Rattle.std.specs.Option.{option_map};
ghost use Rattle.pam_text.specs.Cut.{is_among, cut_at};

use memchr::memchr;

/// A set of bytes, with a mark for each of the 256 bytes, so that a test of a byte is one access.
#[derive(Drop)]
pub struct ByteSet<'s> {
    pub bytes: &'s [u8],
    marks: [bool; 256],
    ghost marked: { (b : ℕ) → b < 256 → get_or marks b false ≡ is_among bytes.now b },
}

impl<'s> ByteSet<'s> {
    /// The set of these bytes.
    pub fn of(bytes: &'s [u8]) -> ByteSet<'s>
        ensures { result.bytes.now ≡ bytes.now }
    {
        let mut marks = [false; 256];
        for byte in bytes {
            marks[*byte as usize] = true;
        }
        ByteSet { bytes, marks }
    }

    /// Whether the set has `byte`.
    #[inline(always)]
    pub fn has(&self, byte: u8) -> bool
        ensures { result ≡ is_among self.now.bytes.now byte }
    {
        self.marks[byte as usize]
    }
}

#[inline(always)]
#[tactic(auto, unfolding(crate::specs::Cut::is_among))]
fn is_same(separator: u8, byte: u8) -> bool
    ensures { result ≡ is_among (separator ∷ []) byte }
{
    separator == byte
}

fn position_of(text: &[u8], separator: u8) -> Option<usize>
    ensures value { result ≡ position (is_among (separator ∷ [])) text.now }
    ensures bound { IfSome result (λ i. i < length text.now) }
{
    text.iter().position(|b| is_same(separator, *b))
}

/// The index of the first separator. There is a vector search for one separator, which most tables have.
fn position_among(text: &[u8], separators: &ByteSet<'_>) -> Option<usize>
    ensures value { result ≡ position (is_among separators.now.bytes.now) text.now }
    ensures bound { IfSome result (λ i. i < length text.now) }
{
    if separators.bytes.len() == 1 {
        memchr(separators.bytes[0], text)
    } else {
        text.iter().position(|b| separators.has(*b))
    }
}

/// The bytes before and after the first separator.
pub fn cut(text: &[u8], separator: u8) -> Option<(&[u8], &[u8])>
    ensures value { option_map (λ p. (p.0.now, p.1.now)) result ≡ cut_at (is_among (separator ∷ [])) text.now }
    ensures shorter { IfSome result (λ p. length p.1.now < length text.now) }
{
    let index = position_of(text, separator)?;
    let (front, rest) = text.split_at(index);
    Some((front, rest.split_at(1).1))
}

/// The bytes before and after the first byte that is in `separators`.
pub fn cut_among<'a>(text: &'a [u8], separators: &ByteSet<'_>) -> Option<(&'a [u8], &'a [u8])>
    ensures value { option_map (λ p. (p.0.now, p.1.now)) result ≡ cut_at (is_among separators.now.bytes.now) text.now }
    ensures shorter { IfSome result (λ p. length p.1.now < length text.now) }
{
    let index = position_among(text, separators)?;
    let (front, rest) = text.split_at(index);
    Some((front, rest.split_at(1).1))
}
