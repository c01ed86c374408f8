//! Rules and faults of policy files, from the page of their language.

mod faults;
mod parts;
mod sentences;

use std::fmt::Debug;
use std::process::Abort;

/// Asserts that what was got is what was wanted. `what` says in the message of a failure what that is.
fn same<T: PartialEq + Debug>(rt: &impl Abort, what: &str, got: &T, wanted: &T) {
    assert_eq!(rt; got, wanted, "{what}");
}
