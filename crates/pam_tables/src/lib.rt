//! Access tables (access.conf(5)), group files (group(5)) and returns files, which say what modules may return.
//! And time tables (time.conf(5)), with the moments at which they grant a login.
#![tactic(auto)]

mod access;
mod address;
mod error;
mod faults;
mod flags;
mod groups;
pub mod laws;
mod lines;
mod lists;
mod login;
mod memberships;
mod named;
mod network;
mod options;
mod origins;
pub mod parts;
mod pieces;
mod returns;
pub mod times;
mod tokens;
mod users;

pub use access::{AccessAnswer, AccessTable};
pub use error::{Table, TableError, TableFault};
pub use faults::{access_faults, group_faults};
pub use groups::Groups;
pub use lines::MAX_TABLE_BYTES;
pub use options::AccessOptions;
pub use returns::ReturnTable;
pub use times::{Login, MomentError, TimeAnswer, TimeError, TimeFault, TimeTable, civil, moment};
