//! What a module makes of an argument.

use crate::arguments::values::Wanted;

/// What a module does with a word that it does not know.
#[derive(Clone, Copy, Debug, PartialEq, Eq)]
pub enum Reaction {
    /// It goes on, and says nothing.
    Ignores,
    /// It says so in the log, and goes on.
    Logs,
    /// It answers with an error at each call.
    Fails,
}

/// What a module makes of an argument of its rule.
#[derive(Clone, Copy, Debug, PartialEq, Eq)]
pub enum Verdict<'t> {
    /// The module knows it, and nothing is wrong with its value.
    Known,
    /// The module takes any word, or judges its words by a grammar.
    Free,
    /// The module takes it for this argument, since it begins so.
    Longer(&'t [u8]),
    /// The module knows it, but does not read it in this kind.
    OtherKind,
    /// The module knows it, but its value is not one of these.
    BadValue(Wanted<'t>),
    /// The module knows it, and stores passwords by a hash that is broken.
    Weak,
    /// The module does not know it.
    Unknown(Reaction),
}
