//! The dispatcher: runs a stack on the return codes of its modules, as pam.conf(5) describes. Says which module is
//! asked next, and at the end what the stack decides.
#![tactic(auto)]

mod asked;
mod decision;
mod entered;
mod error;
mod flat_item;
mod flatten;
mod key;
pub mod laws;
mod place;
mod place_table;
mod program;
mod read_levels;
mod seek;
mod settled;
mod state;
mod step;
mod stretches;
mod work;

pub use asked::{Question, Question as Asked, Situation};
pub use decision::Decision;
pub use error::{Memory, WrongCount};
pub use key::PlaceKey;
pub use pam_conf::MAX_MODULES;
pub use place::Place;
pub use place_table::PlaceTable;
pub use program::Program;
pub use read_levels::has_reset;
pub use settled::{SettledRun, SettledRun as Rest, keeps_failure};
pub use state::{Impression, State};
pub use step::{Outcome, Step};
pub use work::Work;
