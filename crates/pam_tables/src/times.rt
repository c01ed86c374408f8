//! Time tables of pam_time(8), as in time.conf(5): which logins they grant at a moment.
//! A moment is a civil time, read from text or from an instant and a POSIX time zone.
#![tactic(auto)]

mod entry;
mod error;
mod fact;
mod faults;
pub mod laws;
mod logic;
mod login;
mod moments;
mod one_pass;
pub mod parts;
mod pattern;
mod reading;
mod rule_lines;
mod table;
mod week_time;

pub use error::{TimeError, TimeFault};
pub use faults::time_faults;
pub use login::{Login, drop_dev};
pub use moments::{MomentError, civil, moment};
pub use table::{TimeAnswer, TimeTable};
