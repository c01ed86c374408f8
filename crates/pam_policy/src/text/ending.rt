//! How a stack ends.

ghost use Rattle.std.specs.Prelude.{◌≡◌};
ghost use Rattle.pam_policy.specs.text.Sentences.{decides, decisions, ending_of, is_either, letting_in};
ghost use Rattle.pam_policy.specs.text.inner.Error.{GivesPart};

use crate::text::codes::codes_in;
use crate::text::error::PolicyFault;
use crate::text::words::Words;
use pam_codes::{Code, CodeSet};
use pam_conf::Kind;

/// How a stack ends.
#[derive(Clone, Copy, Debug, PartialEq, Eq)]
pub enum Ending {
    /// A program lets the user in.
    Succeeds,
    /// It does not.
    Fails,
    /// In any way.
    Ends,
    /// With one of these codes, of which there is at least one.
    Decides(CodeSet),
}

/// The codes after which a program lets the user in. In the kind `account` the user may have to change the password first.
fn letting_in(kind: Kind) -> CodeSet
    ensures { result ≡ letting_in kind }
{
    match kind {
        Kind::Account => {
            let mut codes = CodeSet::single(Code::SUCCESS);
            codes.insert(Code::NEW_AUTHTOK_REQD);
            codes
        }
        Kind::Auth | Kind::Password | Kind::Session => CodeSet::single(Code::SUCCESS),
    }
}

/// Whether a word is one of two.
fn is_either(long: &[u8], short: &[u8], word: &[u8]) -> bool
    ensures { result ≡ is_either long.now short.now word.now }
{
    word == long || word == short
}

/// Takes the codes after `decides`.
fn read_decisions(words: &mut Words<'_>) -> Result<Ending, PolicyFault>
    ensures { GivesPart (λ ending. (ending, words.new)) result (decides words.old) }
{
    let word = words.next()?;
    let codes = codes_in(word)?;
    Ok(Ending::Decides(codes))
}

impl Ending {
    /// The ending that a word begins; after `decides` it takes the codes. The last letter of the word may be left out.
    #[tactic(auto, unfolding(crate::specs::text::Sentences::ending_of))]
    pub(crate) fn read(word: &[u8], words: &mut Words<'_>) -> Result<Ending, PolicyFault>
        ensures { GivesPart (λ ending. (ending, words.new)) result (ending_of word.now words.old) }
    {
        if is_either(b"succeeds", b"succeed", word) {
            Ok(Ending::Succeeds)
        } else if is_either(b"fails", b"fail", word) {
            Ok(Ending::Fails)
        } else if is_either(b"ends", b"end", word) {
            Ok(Ending::Ends)
        } else if is_either(b"decides", b"decide", word) {
            read_decisions(words)
        } else {
            Err(PolicyFault::BadVerb)
        }
    }

    /// The codes with which a stack of this kind ends so.
    #[tactic(auto, unfolding(crate::specs::text::Sentences::decisions))]
    pub fn decisions(self, kind: Kind) -> CodeSet
        ensures { result ≡ decisions self kind }
    {
        match self {
            Ending::Succeeds => letting_in(kind),
            Ending::Fails => CodeSet::all().without(letting_in(kind)),
            Ending::Ends => CodeSet::all(),
            Ending::Decides(codes) => codes,
        }
    }
}
