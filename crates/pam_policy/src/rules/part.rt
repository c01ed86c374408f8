//! A part of a sentence: a list of events.

use crate::text::Events;

/// A list of events of a sentence, and whether only modules of the system count for them.
#[derive(Clone, Copy)]
pub(crate) struct Part<'a> {
    pub(crate) events: &'a Events<'a>,
    pub(crate) is_strict: bool,
}
