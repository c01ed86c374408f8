//! What the arguments of a rule lack as a whole.

ghost use Rattle.std.specs.Prelude.{◌≡◌, ◌||◌, map};
ghost use Rattle.std.specs.List.{list_all, list_any};
ghost use Rattle.pam_codes.specs.Code.{same_name};
ghost use Rattle.pam_facts.specs.arguments.Lacks.{exec_flags, has_word, is_exec_option, is_given, lack_of, lacks_database, lacks_list};
ghost use Rattle.pam_facts.specs.arguments.Lacks.{lacks_program, lacks_user_type, type_option};

use crate::arguments::conditions::can_be_judged;
use crate::arguments::row::begins;
use crate::arguments::values::is_any;
use pam_conf::Kind;
use pam_text::Texts;

/// What the arguments of a rule lack, so that its module cannot do what it is for.
#[derive(Clone, Copy, Debug, PartialEq, Eq)]
pub enum Lack {
    /// A program that pam_exec runs: it always fails.
    Program,
    /// One of `item=`, `sense=` and `file=`, by which pam_listfile looks at a list: it always answers as `onerr=` says.
    List,
    /// `db=`, the database of pam_userdb: it always fails.
    Database,
    /// `issystem` or `isregular` of pam_usertype: it always fails.
    UserType,
    /// A field, a test and a value in each condition of pam_succeed_if: it always fails.
    Condition,
}

/// The options of pam_exec without a value.
static EXEC_FLAGS: [&[u8]; 6] = [
    b"debug",
    b"expose_authtok",
    b"quiet",
    b"quiet_log",
    b"seteuid",
    b"stdout",
];

#[tactic(auto, unfolding(crate::specs::arguments::Lacks::exec_flags))]
fn exec_flags() -> &'static [&'static [u8]]
    ensures { map (λ word. word.now) result.now ≡ exec_flags }
{
    &EXEC_FLAGS
}

fn is_exec_flag(word: &[u8]) -> bool
    ensures { result ≡ list_any (same_name word.now) exec_flags }
{
    is_any(exec_flags(), word)
}

/// The option that has pam_exec run in this kind alone.
fn type_option(kind: Kind) -> &'static [u8]
    ensures { result.now ≡ type_option kind }
{
    match kind {
        Kind::Auth => b"type=auth",
        Kind::Account => b"type=account",
        Kind::Password => b"type=password",
        Kind::Session => b"type=open_session",
    }
}

/// Whether a word is an option of pam_exec, and not the program.
fn is_exec_option(kind: Kind, word: &[u8]) -> bool
    ensures { result ≡ is_exec_option kind word.now }
{
    is_exec_flag(word) || begins(true, word, b"log=") || word == type_option(kind)
}

fn lacks_program(kind: Kind, words: &Texts) -> bool
    ensures { result ≡ lacks_program kind words.now }
{
    words.iter().all(|word| is_exec_option(kind, word))
}

/// Whether some word begins so.
fn is_given(any_case: bool, front: &[u8], words: &Texts) -> bool
    ensures { result ≡ is_given any_case front.now words.now }
{
    words.iter().any(|word| begins(any_case, word, front))
}

fn lacks_list(words: &Texts) -> bool
    ensures { result ≡ lacks_list words.now }
{
    let is_whole = is_given(false, b"item=", words)
        && is_given(false, b"sense=", words)
        && is_given(false, b"file=", words);
    !is_whole
}

fn lacks_database(kind: Kind, words: &Texts) -> bool
    ensures { result ≡ lacks_database kind words.now }
{
    match kind {
        Kind::Auth => !is_given(true, b"db=", words),
        Kind::Account | Kind::Password | Kind::Session => false,
    }
}

fn has_word(wanted: &[u8], words: &Texts) -> bool
    ensures { result ≡ has_word wanted.now words.now }
{
    words.iter().any(|word| word == wanted)
}

fn lacks_user_type(words: &Texts) -> bool
    ensures { result ≡ lacks_user_type words.now }
{
    !(has_word(b"issystem", words) || has_word(b"isregular", words))
}

/// What the arguments of a rule of this kind lack, by the name of its module without folder and `.so`. Takes no memory, and time
/// linear in the arguments.
#[tactic(auto, unfolding(crate::specs::arguments::Lacks::lack_of))]
pub fn lack_of(name: &[u8], kind: Kind, words: &Texts) -> Option<Lack>
    ensures { result ≡ lack_of name.now kind words.now }
{
    if name == b"pam_exec".as_slice() && lacks_program(kind, words) {
        Some(Lack::Program)
    } else if name == b"pam_listfile".as_slice() && lacks_list(words) {
        Some(Lack::List)
    } else if name == b"pam_userdb".as_slice() && lacks_database(kind, words) {
        Some(Lack::Database)
    } else if name == b"pam_usertype".as_slice() && lacks_user_type(words) {
        Some(Lack::UserType)
    } else if name == b"pam_succeed_if".as_slice() && !can_be_judged(words) {
        Some(Lack::Condition)
    } else {
        None
    }
}
