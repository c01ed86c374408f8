//! Where S1 and S2 of a stack are told.

ghost use Rattle.std.specs.Prelude.{IfOk, OnOk, slice_get};
ghost use Rattle.pam_findings.specs.host.Causes.{IsCause, IsLastOr};
ghost use Rattle.pam_findings.specs.host.Verdicts.{HasAlone, LacksAlone};
ghost use Rattle.pam_findings.specs.host.inner.Alone.{AreCauses, AreKnown};

use crate::host::alone::{AloneTable, Whole, find_alone};
use crate::host::judging::is_open;
use crate::host::stacks::Checker;
use crate::stack::Soundness;
use pam_conf::{Form, Kind, Stack};
use std::alloc::AllocError;

/// The files that are the causes of S1 and S2 of a stack, where these are said of it.
#[derive(Clone, Copy, Debug, PartialEq, Eq)]
pub struct Causes {
    pub nobody: Option<usize>,
    pub anybody: Option<usize>,
}

/// The files that the walk of a stack reached, and what it is checked by.
#[derive(Drop)]
pub(crate) struct Walked<'x, 'f> {
    pub checker: &'x Checker<'x, 'f>,
    pub reached: &'x [usize],
}

impl Walked<'_, '_> {
    /// The last file that was reached of which this is said by itself, or the first file, if it is said of none.
    fn last_with(
        &self,
        table: &mut AloneTable,
        kind: Kind,
        whole: Whole,
    ) -> Result<Option<usize>, AllocError>
        requires known { AreKnown self.now.checker.now.rules.now self.now.checker.now.modules.now table.old.items }
        ensures known { OnOk result (AreKnown self.now.checker.now.rules.now self.now.checker.now.modules.now table.new.items) }
        ensures last { IfOk result (IsLastOr (HasAlone self.now.checker.now.rules.now self.now.checker.now.modules.now kind whole)
            (LacksAlone self.now.checker.now.rules.now self.now.checker.now.modules.now kind whole) (slice_get self.now.reached.now 0)
            self.now.reached.now) }
    {
        let mut cause = self.reached.first().copied();
        for file in self.reached {
            let here = find_alone(self.checker, table, *file, kind)?;
            if here.has(whole) {
                cause = Some(*file);
            }
        }
        Ok(cause)
    }

    /// The cause of what is said of the stack.
    fn cause(
        &self,
        table: &mut AloneTable,
        kind: Kind,
        whole: Whole,
    ) -> Result<Option<usize>, AllocError>
        requires known { AreKnown self.now.checker.now.rules.now self.now.checker.now.modules.now table.old.items }
        ensures known { OnOk result (AreKnown self.now.checker.now.rules.now self.now.checker.now.modules.now table.new.items) }
        ensures cause { IfOk result (IsCause (HasAlone self.now.checker.now.rules.now self.now.checker.now.modules.now kind whole)
            (LacksAlone self.now.checker.now.rules.now self.now.checker.now.modules.now kind whole) self.now.checker.now.files.now.form
            self.now.reached.now) }
    {
        match self.checker.files.form() {
            Form::Dir => self.last_with(table, kind, whole),
            Form::Single => Ok(self.reached.first().copied()),
        }
    }

    /// The causes of S1 and S2 of the stack, as far as they are said of it.
    pub(crate) fn causes(
        &self,
        table: &mut AloneTable,
        kind: Kind,
        stack: &Stack,
        soundness: &Soundness,
    ) -> Result<Causes, AllocError>
        requires known { AreKnown self.now.checker.now.rules.now self.now.checker.now.modules.now table.old.items }
        ensures known { OnOk result (AreKnown self.now.checker.now.rules.now self.now.checker.now.modules.now table.new.items) }
        ensures causes { IfOk result (AreCauses self.now.checker.now.rules.now self.now.checker.now.modules.now self.now.reached.now kind stack.now
            soundness.now) }
    {
        let mut causes = Causes {
            nobody: None,
            anybody: None,
        };
        if soundness.lets_nobody_in && is_open(kind, stack) {
            causes.nobody = self.cause(table, kind, Whole::Nobody)?;
        }
        if kind == Kind::Auth && soundness.lets_anybody_in.is_some() {
            causes.anybody = self.cause(table, kind, Whole::Anybody)?;
        }
        Ok(causes)
    }
}
