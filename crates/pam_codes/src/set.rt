//! Sets of return codes.

ghost use Rattle.std.specs.Prelude.{◌≡◌, ◌↔◌, ◌==◌, ◌||◌, ◌&&◌, ◌<◌, ◌≤◌, ◌-◌, ◌^◌, ℕ, false, min, not};
ghost use Rattle.std.specs.Prelude.{◌∷◌, [], IfNone, IfSome, IsTrue, drop, length, slice_get};
ghost use Rattle.pam_codes.specs.Code.{all_codes};
ghost use Rattle.pam_codes.specs.Set.{codes_where, is_in, IsCodeSet};

use crate::code::{CODES, Code};
use std::marker::Model;

/// A set of return codes, one bit per code.
#[derive(Clone, Copy, Debug, PartialEq, Eq)]
pub struct CodeSet {
    bits: u32,
}

impl Model for CodeSet {
    ghost use Rattle.std.specs.Prelude.{ℕ, List, ◌<◌, ◌^◌};
    ghost use Rattle.std.proofs.Common.{ap};
    ghost use Rattle.pam_codes.specs.declared.code.TheConstants.{CODES};
    ghost use Rattle.pam_codes.specs.SetBits.{codes_of_bits};
    ghost use Rattle.pam_codes.specs.inner.SetBits.{bits_of_codes, bits_of_codes-codes_of_bits};

    ghost Value = { List ℕ };

    ghost view = { λ s. codes_of_bits s.bits };

    ghost invariant = { λ s. s.bits < 2 ^ CODES };

    ghost inverse = { λ codes. record { bits = bits_of_codes codes } };

    ghost inverse_ok = { λ s small. ap (λ n. record { bits = n }) (bits_of_codes-codes_of_bits s.bits small) };
}

impl CodeSet {
    /// The empty set.
    pub fn empty() -> CodeSet
        ensures { result ≡ [] }
    {
        CodeSet { bits: 0 }
    }

    /// The set of all codes.
    pub fn all() -> CodeSet
        ensures { result ≡ all_codes }
    {
        CodeSet {
            bits: u32::MAX >> 1,
        }
    }

    /// The set with `code` alone.
    pub fn single(code: Code) -> CodeSet
        ensures { result ≡ code ∷ [] }
    {
        CodeSet {
            bits: 1 << code.number(),
        }
    }

    /// Adds `code`. Does nothing if the set has it already.
    pub fn insert(&mut self, code: Code)
        ensures { self.new ≡ codes_where (λ c. c == code || is_in c self.old) }
    {
        self.bits |= 1 << code.number();
    }

    /// Whether the set contains `code`.
    pub fn contains(self, code: Code) -> bool
        ensures { result ≡ is_in code self }
    {
        (self.bits >> code.number()) & 1 == 1
    }

    /// The codes in `self` or `other`.
    pub fn union(self, other: CodeSet) -> CodeSet
        ensures { result ≡ codes_where (λ c. is_in c self || is_in c other) }
    {
        CodeSet {
            bits: self.bits | other.bits,
        }
    }

    /// The codes in both `self` and `other`.
    pub fn intersection(self, other: CodeSet) -> CodeSet
        ensures { result ≡ codes_where (λ c. is_in c self && is_in c other) }
    {
        CodeSet {
            bits: self.bits & other.bits,
        }
    }

    /// The codes in `self` but not in `other`.
    pub fn without(self, other: CodeSet) -> CodeSet
        ensures { result ≡ codes_where (λ c. is_in c self && not (is_in c other)) }
    {
        CodeSet {
            bits: self.bits & !other.bits,
        }
    }

    /// Whether the sets have a code in common.
    pub fn meets(self, other: CodeSet) -> bool
        ensures { IsTrue result ↔ (c : ℕ) × (c < CODES) × IsTrue (is_in c self) × IsTrue (is_in c other) }
    {
        self.bits & other.bits != 0
    }

    /// The least code by number; `None` if the set is empty.
    pub fn least(self) -> Option<Code>
        ensures first { result ≡ slice_get self 0 }
        ensures order { IsCodeSet self }
    {
        if self.bits == 0 {
            return None;
        }
        Code::new(self.bits.trailing_zeros() as u8)
    }

    /// Takes the least code by number out of the set; `None` if the set is empty.
    pub fn take_least(&mut self) -> Option<Code>
        ensures first { result ≡ slice_get self.old 0 }
        ensures rest { self.new ≡ drop 1 self.old }
    {
        let code = self.least()?;
        *self = self.without(CodeSet::single(code));
        Some(code)
    }

    /// The least code whose number is at least `first`.
    pub fn least_from(self, first: u8) -> Option<Code>
        ensures found { IfSome result (λ found. (first ≤ found) × (found < CODES) × IsTrue (is_in found self)) }
        ensures before { IfSome result (λ found. (c : ℕ) → first ≤ c → c < found → is_in c self ≡ false) }
        ensures none { IfNone result ((c : ℕ) → first ≤ c → is_in c self ≡ false) }
    {
        let codes = CodeSet {
            bits: self.bits & !bits_below(first),
        };
        codes.least()
    }

    /// The greatest code whose number is below `last`.
    pub fn greatest_below(self, last: u8) -> Option<Code>
        ensures found { IfSome result (λ found. (found < last) × (found < CODES) × IsTrue (is_in found self)) }
        ensures after { IfSome result (λ found. (c : ℕ) → found < c → c < last → is_in c self ≡ false) }
        ensures none { IfNone result ((c : ℕ) → c < last → is_in c self ≡ false) }
    {
        let bits = self.bits & bits_below(last);
        if bits == 0 {
            return None;
        }
        Code::new(bits.ilog2() as u8)
    }

    /// Whether the set is empty.
    pub fn is_empty(self) -> bool
        ensures { IsTrue result ↔ (self ≡ []) }
    {
        self.bits == 0
    }

    /// The number of codes in the set.
    pub fn len(self) -> usize
        ensures count { result ≡ length self }
        ensures order { IsCodeSet self }
    {
        self.bits.count_ones() as usize
    }
}

/// The bits of the codes below `number`.
fn bits_below(number: u8) -> u32
    ensures { result ≡ 2 ^ (min number CODES) - 1 }
{
    (1 << usize::from(number).min(CODES)) - 1
}
