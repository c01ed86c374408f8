//! The form of answers for people.

/// Answers as text.
#[derive(Clone, Copy)]
pub(crate) struct AsText;
