//! A rule that holds of a stack.

use crate::needs::event::StackEvent;

/// A rule that holds of a stack.
#[derive(Drop)]
pub enum Suggestion {
    /// `needs E`, or `needs E or F ..`
    Needs(Vec<StackEvent>),
    /// `obeys E`
    Obeys(StackEvent),
    /// `needs E=any`
    NeedsAsked(StackEvent),
    /// `always asks E`
    AlwaysAsks(StackEvent),
}
