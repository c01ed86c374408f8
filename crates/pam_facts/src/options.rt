//! Which arguments of a rule its module reads: pam_exec(8).

ghost use Rattle.std.specs.Prelude.{◌≡◌, map, take};
ghost use Rattle.std.specs.List.{list_any};
ghost use Rattle.pam_codes.specs.Code.{same_name};
ghost use Rattle.pam_facts.specs.Options.{begins_with, is_option, plain_options, valued_options};

/// The options of `pam_exec` without a value.
static PLAIN_OPTIONS: [&[u8]; 6] = [
    b"debug",
    b"expose_authtok",
    b"quiet",
    b"quiet_log",
    b"seteuid",
    b"stdout",
];

/// Those with one.
static VALUED_OPTIONS: [&[u8]; 2] = [b"log=", b"type="];

#[tactic(auto, unfolding(crate::specs::Options::plain_options))]
fn plain_options() -> &'static [&'static [u8]]
    ensures { map (λ option. option.now) result.now ≡ plain_options }
{
    &PLAIN_OPTIONS
}

#[tactic(auto, unfolding(crate::specs::Options::valued_options))]
fn valued_options() -> &'static [&'static [u8]]
    ensures { map (λ option. option.now) result.now ≡ valued_options }
{
    &VALUED_OPTIONS
}

/// Whether a word is an option, in any case.
fn is_same(word: &[u8], option: &[u8]) -> bool
    ensures { result ≡ same_name word.now option.now }
{
    word.eq_ignore_ascii_case(option)
}

/// Whether a word is one of these options.
fn is_plain_among(options: &[&[u8]], word: &[u8]) -> bool
    ensures { result ≡ list_any (λ option. same_name word.now option.now) options.now }
{
    options.iter().any(|option| is_same(word, option))
}

/// At most this many bytes of a word, from its beginning on.
fn front(word: &[u8], count: usize) -> &[u8]
    ensures { result.now ≡ take count word.now }
{
    if word.len() < count {
        return word;
    }
    word.split_at(count).0
}

/// Whether a word begins with an option that has a value.
fn begins_with(word: &[u8], option: &[u8]) -> bool
    ensures { result ≡ begins_with word.now option.now }
{
    is_same(front(word, option.len()), option)
}

/// Whether a word begins with one of these options.
fn is_valued_among(options: &[&[u8]], word: &[u8]) -> bool
    ensures { result ≡ list_any (λ option. begins_with word.now option.now) options.now }
{
    options.iter().any(|option| begins_with(word, option))
}

/// Whether a word is an option of `pam_exec`, in any case.
pub(crate) fn is_option(word: &[u8]) -> bool
    ensures { result ≡ is_option word.now }
{
    is_plain_among(plain_options(), word) || is_valued_among(valued_options(), word)
}
