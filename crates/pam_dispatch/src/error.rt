//! The errors of the dispatcher.

use std::alloc::AllocFailed;
use thiserror::Error;

/// Allocation failed.
#[derive(Clone, Copy, Debug, PartialEq, Eq, Error)]
#[error("no memory is left")]
pub struct Memory;

impl<T: Drop> From<AllocFailed<T>> for Memory {
    fn from(_: AllocFailed<T>) -> Memory {
        Memory
    }
}

/// The number of codes differs from the number of modules.
#[derive(Clone, Copy, Debug, PartialEq, Eq, Error)]
#[error("the stack has {modules} modules")]
pub struct WrongCount {
    /// The number of modules of the stack.
    pub modules: usize,
}
