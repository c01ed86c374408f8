//! The nodes found last, while a graph is built.

use pam_codes::CODES;
use pam_dispatch::State;
use std::alloc::{AllocError, Global};

/// The number of states: each impression with each status.
const STATES: usize = 3 * CODES;

/// For each module and each state in which it is asked, the index of the node that was found or added last. Runs part and meet
/// again, so it often is the one that is looked for. Where it is not, or there is none yet, any index will do.
#[derive(Drop)]
pub(crate) struct LastNodes {
    indices: Vec<u32>,
}

/// The position of the index for a module, by its number, and a state.
fn position(module_number: usize, state: &State) -> usize {
    let state_number = usize::from(state.impression.number()) * CODES
        + usize::from(state.status.number());
    module_number
        .saturating_sub(1)
        .saturating_mul(STATES)
        .saturating_add(state_number)
}

impl LastNodes {
    /// No nodes, for a program with this number of modules.
    pub(crate) fn new(alloc: Global, modules: usize) -> Result<LastNodes, AllocError> {
        let mut indices = Vec::new(alloc);
        indices.resize(modules.saturating_mul(STATES), 0)?;
        Ok(LastNodes { indices })
    }

    /// The index for a module, by its number, and a state.
    #[inline(always)]
    pub(crate) fn get(&self, module_number: usize, state: &State) -> usize {
        match self.indices.get(position(module_number, state)) {
            Some(index) => *index as usize,
            None => 0,
        }
    }

    /// Remembers the index of a node.
    #[inline(always)]
    pub(crate) fn set(&mut self, module_number: usize, state: &State, index: u32) {
        if let Some(last) = self.indices.get_mut(position(module_number, state)) {
            *last = index;
        }
    }
}
