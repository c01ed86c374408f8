//! Which rules of a file apply to each kind.
ghost use Rattle.std.specs.Prelude.{◌≡◌, ◌++◌, [], OnOk};
ghost use Rattle.pam_conf.specs.inner.ByKind.{index_for, indices_for, indices_of, with_index};
ghost use Rattle.pam_conf.specs.inner.FilesRead.{by_kind_view};
ghost use Rattle.pam_conf.specs.inner.Kept.{kept_view};

use crate::kept::{KeptRule, is_of};
use crate::rule::Kind;
use std::alloc::{AllocError, AllocFailed, Global};

/// For each kind the indices of the rules of a file that apply to it, in order. An `@include` applies to all.
#[derive(Drop)]
pub(crate) struct ByKind {
    pub auth: Vec<usize>,
    pub account: Vec<usize>,
    pub password: Vec<usize>,
    pub session: Vec<usize>,
}

impl ByKind {
    /// No rules. Does not allocate.
    pub(crate) fn new(alloc: Global) -> ByKind
        ensures { by_kind_view result ≡ indices_of [] }
    {
        ByKind {
            auth: Vec::new(alloc),
            account: Vec::new(alloc),
            password: Vec::new(alloc),
            session: Vec::new(alloc),
        }
    }

    /// Appends the index of a rule for each kind to which it applies.
    pub(crate) fn add(&mut self, rule: &KeptRule, index: usize) -> Result<(), AllocError>
        ensures { OnOk result (by_kind_view self.new ≡ with_index (kept_view rule.now) index (by_kind_view self.old)) }
    {
        add_index(&mut self.auth, rule, Kind::Auth, index)?;
        add_index(&mut self.account, rule, Kind::Account, index)?;
        add_index(&mut self.password, rule, Kind::Password, index)?;
        add_index(&mut self.session, rule, Kind::Session, index)?;
        Ok(())
    }

    /// The indices of the rules that apply to `kind`.
    pub(crate) fn indices(&self, kind: Kind) -> &[usize]
        ensures { result.now ≡ indices_for kind (by_kind_view self.now) }
    {
        match kind {
            Kind::Auth => self.auth.as_slice(),
            Kind::Account => self.account.as_slice(),
            Kind::Password => self.password.as_slice(),
            Kind::Session => self.session.as_slice(),
        }
    }
}

/// Appends the index of a rule, if it applies to `kind`.
fn add_index(
    indices: &mut Vec<usize>,
    rule: &KeptRule,
    kind: Kind,
    index: usize,
) -> Result<(), AllocFailed<usize>>
    ensures { OnOk result (indices.new.items ≡ indices.old.items ++ index_for kind (kept_view rule.now) index) }
{
    if !is_of(rule, kind) {
        return Ok(());
    }
    indices.push(index)
}
