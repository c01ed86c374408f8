//! The form of answers for programs.

/// Answers as JSON Lines.
#[derive(Clone, Copy)]
pub(crate) struct AsJson;
