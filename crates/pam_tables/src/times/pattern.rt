//! Names with one wildcard.

ghost use Rattle.std.specs.Prelude.{◌≡◌, ◌↔◌, ◌<◌, ◌==◌, length, position, nat_eq, IfSome, IsTrue};
ghost use Rattle.std.specs.List.{ends_with};
ghost use Rattle.pam_tables.specs.times.Pattern.{is_star, has_two_stars, matches};
ghost use Rattle.pam_tables.specs.times.inner.Pattern.{Means};

fn star_at(pattern: &[u8]) -> Option<usize>
    ensures value { result ≡ position is_star pattern.now }
    ensures within { IfSome result (λ i. i < length pattern.now) }
{
    pattern.iter().position(|b| *b == b'*')
}

/// Whether a name has more than one `*`. Most names end at their first, or have none.
pub(crate) fn has_two_stars(pattern: &[u8]) -> bool
    ensures { result ≡ has_two_stars pattern.now }
{
    match star_at(pattern) {
        None => false,
        Some(place) => star_at(pattern.split_at(place).1.split_at(1).1).is_some(),
    }
}

fn ends_with(text: &[u8], back: &[u8]) -> bool
    ensures { result ≡ ends_with nat_eq text.now back.now }
{
    back.is_empty() || text.ends_with(back)
}

/// Like `matches`. Most texts differ from a name in one of the first bytes.
#[inline(always)]
fn is_match(pattern: &[u8], text: &[u8]) -> bool
    ensures { result ≡ matches pattern.now text.now }
{
    let mut left = pattern;
    let mut rest = text;
    while let Some((first, after)) = left.split_first() {
        if *first == b'*' {
            return ends_with(rest, after);
        }
        let Some((byte, more)) = rest.split_first() else {
            return false;
        };
        if *byte != *first {
            return false;
        }
        left = after;
        rest = more;
    }
    rest.is_empty()
}

/// Whether a text matches a name, in which the first `*` matches any bytes. Case matters.
#[inline(always)]
#[tactic(auto, using(crate::proofs::TimesProofs::PatternSteps::tested))]
pub(crate) fn matches(pattern: &[u8], text: &[u8]) -> bool
    ensures value { result ≡ matches pattern.now text.now }
    ensures means { IsTrue result ↔ Means pattern.now text.now }
{
    is_match(pattern, text)
}
