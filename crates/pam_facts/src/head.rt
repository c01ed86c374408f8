//! What is before the codes of a row: the arguments and the class.

ghost use Rattle.std.specs.Prelude.{◌≡◌};
ghost use Rattle.std.specs.Option.{option_map};
ghost use Rattle.pam_facts.specs.Rows.{class_named, head_of, with_argument};
ghost use Rattle.pam_facts.specs.inner.Views.{head_view};
ghost use Rattle.pam_facts.specs.Words.{words_of};

use crate::row::Class;
use crate::words::first_word;

/// The arguments that a rule must have for a row to fit.
#[derive(Clone, Copy)]
pub(crate) struct Arguments<'a> {
    pub(crate) first: Option<&'a [u8]>,
    pub(crate) second: Option<&'a [u8]>,
}

/// The arguments and the class of a row, and the bytes after them.
#[derive(Clone, Copy)]
pub(crate) struct Head<'a> {
    pub(crate) arguments: Arguments<'a>,
    pub(crate) class: Class,
    pub(crate) rest: &'a [u8],
}

fn class_named(word: &[u8]) -> Option<Class>
    ensures { result ≡ class_named word.now }
{
    if word == b"checks".as_slice() {
        Some(Class::Checks)
    } else if word == b"ignores".as_slice() {
        Some(Class::Ignores)
    } else if word == b"passes".as_slice() {
        Some(Class::Passes)
    } else if word == b"fails".as_slice() {
        Some(Class::Fails)
    } else {
        None
    }
}

/// The head of a row that has `first` before the bytes, and then one argument at most.
fn head_after<'a>(first: &'a [u8], text: &'a [u8]) -> Option<Head<'a>>
    ensures { option_map head_view result ≡ option_map (with_argument first.now) (head_of 1 (words_of text.now)) }
{
    let (second, text) = first_word(text)?;
    if let Some(class) = class_named(second) {
        let arguments = Arguments {
            first: Some(first),
            second: None,
        };
        return Some(Head {
            arguments,
            class,
            rest: text,
        });
    }
    let (word, rest) = first_word(text)?;
    let class = class_named(word)?;
    let arguments = Arguments {
        first: Some(first),
        second: Some(second),
    };
    Some(Head {
        arguments,
        class,
        rest,
    })
}

/// The head of a row, from the word after its name.
pub(crate) fn read_head(text: &[u8]) -> Option<Head<'_>>
    ensures { option_map head_view result ≡ head_of 2 (words_of text.now) }
{
    let (first, text) = first_word(text)?;
    match class_named(first) {
        Some(class) => {
            let arguments = Arguments {
                first: None,
                second: None,
            };
            Some(Head {
                arguments,
                class,
                rest: text,
            })
        }
        None => head_after(first, text),
    }
}
