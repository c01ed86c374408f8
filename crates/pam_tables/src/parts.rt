//! The parts of an access table, as `AccessTable` reads them: for crates that look at what a table says.

pub use crate::access::{AccessFields, cut_fields, is_passed_over};
pub use crate::address::Address;
pub use crate::lines::Lines;
pub use crate::network::Network;
pub use crate::tokens::Tokens;
