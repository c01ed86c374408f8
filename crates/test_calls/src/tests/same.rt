//! The one assertion of these tests: it is proved once, for values of any type.

use std::fmt::Debug;
use std::process::Abort;

/// Asserts that what was got is what was wanted. `what` says in the message of a failure what that is.
pub(crate) fn same<T: PartialEq + Debug>(rt: &impl Abort, what: &str, got: &T, wanted: &T) {
    assert_eq!(rt; got, wanted, "{what}");
}
