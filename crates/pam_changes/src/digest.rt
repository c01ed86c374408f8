//! A digest of two stacks, by which an equal pair is found again.

use crate::pair::BothStacks;
use pam_compare::Digest;

/// The digest of two stacks of a kind. Those with the same items have the same digest, and others rarely.
pub(crate) fn digest_of(stacks: &BothStacks) -> u64 {
    let mut digest = Digest::new();
    digest.add_kind(stacks.kind);
    digest.add_stack(&stacks.old);
    digest.add_stack(&stacks.new);
    digest.value()
}
