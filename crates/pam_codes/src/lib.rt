//! Return codes, actions and controls of PAM rules: pam.conf(5).
#![tactic(auto)]

mod action;
mod code;
mod control;
mod error;
pub mod laws;
mod parts;
mod set;
mod set_text;
mod subject;
mod tokens;

pub use action::Action;
pub use code::{CODES, Code, is_name};
pub use control::{Control, closing_bracket};
pub use error::ControlError;
pub use pam_text::{Device, Out, Piece};
pub use parts::{Part, Parts};
pub use set::CodeSet;
pub use subject::Subject;
pub use tokens::first_token;
