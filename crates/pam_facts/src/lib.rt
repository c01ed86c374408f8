//! What is known of modules: which of them check who logs in, in which kinds a module has a function, and which codes it can
//! answer. A table of the program has the facts of 107 modules, and a facts file adds to it.
#![tactic(auto)]

mod answers;
pub mod arguments;
mod error;
mod facts;
mod failing;
mod folder;
mod head;
mod kinds;
pub mod known;
pub mod laws;
mod missing;
mod names;
mod options;
mod paths;
mod reading;
mod replacing;
mod row;
pub mod settings;
mod table;
mod words;

pub use answers::is_there;
pub use error::{FactsError, FactsFault};
pub use facts::Facts;
pub use kinds::Kinds;
pub use missing::set_missing;
pub use paths::module_name;
pub use replacing::replace_codes;
pub use row::{Class, CodesByKind, Fact};
pub use table::write_facts;
