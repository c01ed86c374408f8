//! The languages of drawings.

/// The language of a drawing.
#[derive(Clone, Copy, Debug)]
pub(crate) enum Format {
    /// DOT, of Graphviz.
    Dot,
    Mermaid,
}
