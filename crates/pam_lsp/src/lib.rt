//! A language server: what `check` finds of a folder `pam.d`, with the documents that an editor has open in the place of its files.
#![tactic(auto)]

mod checking;
mod document;
mod finding;
mod framing;
pub mod laws;
mod message;
mod overlay;
mod place;
mod position;
mod publication;
mod publishing;
mod reply;
mod serving;
mod state;

pub use framing::frame;
pub use serving::{Fault, serve, take};
pub use state::{State, receive};
