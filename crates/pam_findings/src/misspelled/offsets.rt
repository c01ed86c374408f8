//! Where the bytes of a text stand in its file: pam.conf(5), on comments and continued lines.

ghost use Rattle.std.specs.Prelude.{◌≡◌, ◌∷◌, ◌<◌, ◌≤◌, ◌+◌, ◌^◌, [], ℕ, List, IfSome, MatchOption, length};
ghost use Rattle.pam_findings.specs.misspelled.Spots.{line_len, offset_of, offsets_from};
ghost use Rattle.pam_text.specs.inner.Text.{past_comment};

/// The bytes that are left, and how far they are from the start.
#[derive(Clone, Copy)]
struct Ahead<'a> {
    offset: usize,
    rest: &'a [u8],
    ghost bounded: { offset + length rest.now < 2 ^ 63 },
}

/// The number of bytes before the first line feed.
pub fn line_len(bytes: &[u8]) -> usize
    ensures value { result ≡ line_len bytes.now }
    ensures bound { result ≤ length bytes.now }
{
    bytes.iter().take_while(|byte| **byte != b'\n').count()
}

/// Passes a comment that begins here. Its line feed stays.
fn skip_comment(ahead: Ahead<'_>) -> Ahead<'_>
    ensures value { result.rest.now ≡ past_comment ahead.entry.rest.now }
    ensures moved { result.offset + length result.rest.now ≡ ahead.entry.offset + length ahead.entry.rest.now }
{
    if ahead.rest.is_empty() || ahead.rest[0] != b'#' {
        return ahead;
    }
    let len = line_len(ahead.rest);
    Ahead {
        offset: ahead.offset + len,
        rest: ahead.rest.split_at(len).1,
    }
}

/// Passes a line feed, if one stands here.
fn after_feed(ahead: Ahead<'_>) -> Option<Ahead<'_>>
    ensures value { MatchOption result ((more : List ℕ) → ahead.entry.rest.now ≡ 10 ∷ more → ⊥) (λ a. ahead.entry.rest.now ≡ 10 ∷ a.rest.now) }
    ensures moved { IfSome result (λ a. a.offset + length a.rest.now ≡ ahead.entry.offset + length ahead.entry.rest.now) }
{
    let (first, rest) = ahead.rest.split_first()?;
    if *first != b'\n' {
        return None;
    }
    let offset = ahead.offset + 1;
    Some(Ahead { offset, rest })
}

/// The bytes after a byte of the text: after a backslash also the line feed that it joins.
fn after_byte<'a>(byte: u8, after: Ahead<'a>) -> Ahead<'a>
    ensures text { (bytes : List ℕ) (first offset : ℕ) → past_comment bytes ≡ byte ∷ after.entry.rest.now → offset + 1 ≡ after.entry.offset
        → offset + length (past_comment bytes) ≡ first + length bytes
        → offsets_from first bytes ≡ offset ∷ offsets_from result.offset result.rest.now }
    ensures moved { result.offset + length result.rest.now ≡ after.entry.offset + length after.entry.rest.now }
{
    if byte != b'\\' {
        return after;
    }
    match after_feed(skip_comment(after)) {
        Some(joined) => joined,
        None => after,
    }
}

/// Where the next byte of the text stands, and the bytes after it; `None` if there is none.
fn next_byte(ahead: Ahead<'_>) -> Option<(usize, Ahead<'_>)>
    ensures text { MatchOption result (offsets_from ahead.entry.offset ahead.entry.rest.now ≡ [])
        (λ p. offsets_from ahead.entry.offset ahead.entry.rest.now ≡ p.0 ∷ offsets_from p.1.offset p.1.rest.now) }
    ensures moved { IfSome result (λ p. p.1.offset + length p.1.rest.now ≡ ahead.entry.offset + length ahead.entry.rest.now) }
    ensures within { IfSome result (λ p. p.0 < ahead.entry.offset + length ahead.entry.rest.now) }
{
    let here = skip_comment(ahead);
    let (byte, rest) = here.rest.split_first()?;
    let offset = here.offset + 1;
    Some((here.offset, after_byte(*byte, Ahead { offset, rest })))
}

/// Where the byte after this many of the text of these bytes stands.
pub(crate) fn offset_of(bytes: &[u8], place: usize) -> Option<usize>
    ensures value { result ≡ offset_of bytes.now place }
    ensures within { IfSome result (λ offset. offset < length bytes.now) }
{
    let mut ahead = Ahead {
        offset: 0,
        rest: bytes,
    };
    for _ in 0..place {
        ahead = next_byte(ahead)?.1;
    }
    Some(next_byte(ahead)?.0)
}
