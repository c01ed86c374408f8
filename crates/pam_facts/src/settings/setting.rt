//! What one module answers.

use pam_codes::CodeSet;

/// What a module answers: one of these codes.
#[derive(Clone, Copy)]
pub struct Setting<'a> {
    /// The name of the module, its number, or `FILE:LINE` of its rule.
    pub key: &'a str,
    pub codes: CodeSet,
}
