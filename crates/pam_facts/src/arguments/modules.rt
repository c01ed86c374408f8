//! A module, and what it makes of a word.

ghost use Rattle.std.specs.Prelude.{◌≡◌, ◌&&◌, ◌||◌, IfOk, find, map};
ghost use Rattle.std.specs.List.{list_any};
ghost use Rattle.std.specs.Option.{option_map, option_map_or};
ghost use Rattle.pam_facts.specs.arguments.Modules.{arguments_of, module_of, name_part, nearest_argument, or_empty, reaction_named};
ghost use Rattle.pam_facts.specs.arguments.Rows.{is_longer, is_whole};
ghost use Rattle.pam_facts.specs.arguments.Verdicts.{has_kind, is_read, is_weak, kind_name, meaning, or_else, unknown_meaning, whole_meaning};
ghost use Rattle.pam_facts.specs.arguments.Views.{module_view, row_view, verdict_view};

use crate::arguments::cuts::{Parts, cut_once, has_part, split};
use crate::arguments::row::Row;
use crate::arguments::values::Wanted;
use crate::arguments::verdict::{Reaction, Verdict};
use pam_conf::Kind;
use pam_spelling::nearest;
use std::alloc::{AllocError, Global};

/// What is known of the arguments of a module. It takes no memory of its own, and is the table's line.
#[derive(Clone, Copy, Debug)]
pub struct Module<'t> {
    pub(crate) kinds: &'t [u8],
    reaction: Option<Reaction>,
    reacts_in: Option<&'t [u8]>,
    pub(crate) arguments: Option<&'t [u8]>,
}

/// What a module does with a word that it does not know; with any other word it takes each.
#[tactic(auto, unfolding(crate::specs::arguments::Modules::reaction_named))]
fn reaction_named(word: &[u8]) -> Option<Reaction>
    ensures { result ≡ reaction_named word.now }
{
    if word == b"ignores".as_slice() {
        Some(Reaction::Ignores)
    } else if word == b"logs".as_slice() {
        Some(Reaction::Logs)
    } else if word == b"fails".as_slice() {
        Some(Reaction::Fails)
    } else {
        None
    }
}

/// The name of a kind: pam.conf(5), `type`.
fn kind_name(kind: Kind) -> &'static [u8]
    ensures { result.now ≡ kind_name kind }
{
    match kind {
        Kind::Auth => b"auth",
        Kind::Account => b"account",
        Kind::Password => b"password",
        Kind::Session => b"session",
    }
}

/// Whether kinds, which have commas between them, have this one.
fn has_kind(kinds: &[u8], kind: Kind) -> bool
    ensures { result ≡ has_kind kind kinds.now }
{
    has_part(kinds, b',', kind_name(kind))
}

/// The name of an argument: the word up to its first `=`, and with it.
fn name_part(word: &[u8]) -> &[u8]
    ensures { result.now ≡ name_part word.now }
{
    match cut_once(word, b'=').1 {
        Some(value) => split(word, word.len().saturating_sub(value.len())).0,
        None => word,
    }
}

/// Whether the module stores passwords by a broken hash with the argument of a row, in this kind.
fn is_weak(kind: Kind, row: &Row<'_>) -> bool
    ensures { result ≡ is_weak kind (row_view row.now) }
{
    match row.weak_in {
        Some(kinds) => has_kind(kinds, kind),
        None => false,
    }
}

/// What a word says that is the argument of a row.
fn whole_verdict<'t>(kind: Kind, row: &Row<'t>, word: &[u8]) -> Verdict<'t>
    ensures { verdict_view result ≡ whole_meaning kind (row_view row.now) word.now }
{
    if is_weak(kind, row) {
        return Verdict::Weak;
    }
    let (Some(text), Some(value)) = (row.value, cut_once(word, b'=').1) else {
        return Verdict::Known;
    };
    let wanted = Wanted::named(text);
    if wanted.takes(value) {
        Verdict::Known
    } else {
        Verdict::BadValue(wanted)
    }
}

/// The kinds of a row or a reaction: its own, or else those of the module.
pub(crate) fn or_else<'t>(own: Option<&'t [u8]>, kinds: &'t [u8]) -> &'t [u8]
    ensures { result.now ≡ or_else (option_map (λ t. t.now) own.entry) kinds.now }
{
    match own {
        Some(own) => own,
        None => kinds,
    }
}

/// The text, or an empty one.
fn or_empty(text: Option<&[u8]>) -> &[u8]
    ensures { result.now ≡ or_empty (option_map (λ t. t.now) text.entry) }
{
    match text {
        Some(text) => text,
        None => b"",
    }
}

impl<'t> Module<'t> {
    /// The module of a line of the table, from the word after its name.
    #[tactic(auto, unfolding(crate::specs::arguments::Modules::module_of))]
    pub(crate) fn of(text: &'t [u8]) -> Module<'t>
        ensures { module_view result ≡ module_of text.now }
    {
        let (kinds, words) = cut_once(text, b' ');
        let (reaction, arguments) = cut_once(or_empty(words), b' ');
        let (reaction, reacts_in) = cut_once(reaction, b'@');
        Module {
            kinds,
            reaction: reaction_named(reaction),
            reacts_in,
            arguments,
        }
    }

    /// Whether the module reads the argument of a row in this kind.
    fn is_read(&self, kind: Kind, row: &Row<'t>) -> bool
        ensures { result ≡ is_read (module_view self.now).kinds kind (row_view row.now) }
    {
        has_kind(or_else(row.kinds, self.kinds), kind)
    }

    /// The first row of this kind that the word is.
    fn whole(&self, kind: Kind, word: &[u8]) -> Option<Row<'t>>
        ensures { option_map row_view result
            ≡ find (λ row. is_whole row word.now && is_read (module_view self.now).kinds kind row) (module_view self.now).rows }
    {
        for part in Parts::of(self.arguments, b' ') {
            let row = Row::of(part);
            if row.is_whole(word) && self.is_read(kind, &row) {
                return Some(row);
            }
        }
        None
    }

    /// The first row of this kind that the word is taken for.
    fn longer(&self, kind: Kind, word: &[u8]) -> Option<Row<'t>>
        ensures { option_map row_view result
            ≡ find (λ row. is_longer row word.now && is_read (module_view self.now).kinds kind row) (module_view self.now).rows }
    {
        for part in Parts::of(self.arguments, b' ') {
            let row = Row::of(part);
            if row.is_longer(word) && self.is_read(kind, &row) {
                return Some(row);
            }
        }
        None
    }

    /// Whether the word is the argument of a row of any kind, or is taken for it.
    fn has_row(&self, word: &[u8]) -> bool
        ensures { result ≡ list_any (λ row. is_whole row word.now || is_longer row word.now) (module_view self.now).rows }
    {
        for part in Parts::of(self.arguments, b' ') {
            let row = Row::of(part);
            if row.is_whole(word) || row.is_longer(word) {
                return true;
            }
        }
        false
    }

    /// What the module makes of a word that it does not know.
    fn unknown(&self, kind: Kind) -> Verdict<'t>
        ensures { verdict_view result ≡ unknown_meaning (module_view self.now) kind }
    {
        let Some(reaction) = self.reaction else {
            return Verdict::Free;
        };
        if has_kind(or_else(self.reacts_in, self.kinds), kind) {
            Verdict::Unknown(reaction)
        } else {
            Verdict::Unknown(Reaction::Ignores)
        }
    }

    /// What the module makes of an argument of a rule of this kind. Takes no memory, and time linear in the module's arguments.
    #[tactic(auto, unfolding(crate::specs::arguments::Verdicts::meaning))]
    pub fn judge(&self, kind: Kind, word: &[u8]) -> Verdict<'t>
        ensures { verdict_view result ≡ meaning (module_view self.now) kind word.now }
    {
        if let Some(row) = self.whole(kind, word) {
            return whole_verdict(kind, &row, word);
        }
        if let Some(row) = self.longer(kind, word) {
            return Verdict::Longer(row.argument);
        }
        if self.has_row(word) {
            return Verdict::OtherKind;
        }
        self.unknown(kind)
    }

    /// The arguments that the module knows, in the order of the table. One that takes a value ends in `=`.
    pub fn arguments(&self, alloc: Global) -> Result<Vec<&'t [u8]>, AllocError>
        ensures { IfOk result (λ words. map (λ word. word.now) words.items ≡ arguments_of (module_view self.now)) }
    {
        let mut words = Vec::new(alloc);
        for part in Parts::of(self.arguments, b' ') {
            words.push(Row::of(part).argument)?;
        }
        Ok(words)
    }

    /// The argument that a misspelled word is nearest to, where one is near: of a word with a value only its name counts.
    pub fn nearest(&self, alloc: Global, word: &[u8]) -> Result<Option<&'t [u8]>, AllocError>
        ensures { IfOk result (λ found. option_map (λ w. w.now) found ≡ nearest_argument (module_view self.now) word.now) }
    {
        let words = self.arguments(alloc)?;
        Ok(nearest(&words, name_part(word)))
    }
}
