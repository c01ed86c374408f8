//! The parts of a control: its codes, grouped by action.

ghost use Rattle.std.specs.Prelude.{◌≡◌, slice_index_or};
ghost use Rattle.pam_codes.specs.declared.action.Action.TheVariants.{Ignore};
ghost use Rattle.pam_codes.specs.Action.{same_action};
ghost use Rattle.pam_codes.specs.Parts.{IsParts};
ghost use Rattle.pam_codes.specs.Set.{codes_where};

use crate::action::Action;
use crate::code::{CODES, Code};
use crate::control::Control;
use crate::set::CodeSet;
use arrayvec::ArrayVec;
use std::marker::Model;

/// The codes with one action.
#[derive(Clone, Copy, Debug, PartialEq, Eq)]
pub struct Part {
    pub codes: CodeSet,
    pub action: Action,
}

/// A part without codes.
impl Default for Part {
    ghost use Rattle.std.specs.Prelude.{[]};

    ghost is_default = { λ part. part.codes ≡ [] };

    fn default() -> Part {
        Part {
            codes: CodeSet::empty(),
            action: Action::Ignore,
        }
    }
}

/// The parts of a control, in the order of their least codes.
#[derive(Debug, Drop)]
pub struct Parts {
    parts: ArrayVec<Part, CODES>,
}

impl Model for Parts {
    ghost use Rattle.std.specs.Prelude.{List};
    ghost use Rattle.pam_codes.specs.declared.parts.Part.{Part};

    ghost Value = { List Part };

    ghost view = { λ p. p.parts.items };
}

impl Parts {
    /// The parts, in the order of their least codes.
    pub fn as_slice(&self) -> &[Part]
        ensures { result.now ≡ self.now }
    {
        self.parts.as_slice()
    }
}

impl Control {
    /// The codes with this action.
    fn codes_with(&self, action: Action) -> CodeSet
        ensures { result ≡ codes_where (λ c. same_action (slice_index_or self.now c Ignore) action) }
    {
        let mut codes = CodeSet::empty();
        for number in 0..CODES as u8 {
            let code = Code::of_number(number);
            if self.action(code).is_same(action) {
                codes.insert(code);
            }
        }
        codes
    }

    /// The parts of this control: each code is in exactly one of them.
    pub fn parts(&self) -> Parts
        ensures { IsParts self.now result }
    {
        let mut parts = ArrayVec::new();
        let mut remaining = CodeSet::all();
        while let Some(code) = remaining.least() {
            let action = self.action(code);
            let codes = self.codes_with(action);
            parts.push(Part { codes, action });
            remaining = remaining.without(codes);
        }
        Parts { parts }
    }
}
