//! The texts of the classes that were appended last.

ghost use Rattle.std.specs.Prelude.{◌≡◌, ◌++◌, ◌&&◌, [], if◌then◌else◌, not, IsTrue};
ghost use Rattle.pam_codes.specs.Set.{IsCodeSet, codes_where, is_in};
ghost use Rattle.pam_codes.specs.SetText.{set_text};

use crate::buffer::Buffer;
use pam_codes::{CodeSet, Out};
use std::alloc::{AllocError, Global};
use std::marker::Model;
use std::mem;

/// The greatest length of the text of a class, in bytes: `but:` and 15 names.
const CLASS_BYTES: usize = 237;

/// As many bytes as are copied at once for a class of a few names, or for `but:` and a few.
const SHORT_BYTES: usize = 32;

/// A class and its text.
#[derive(Drop)]
struct ClassText {
    class: CodeSet,
    text: Buffer,
}

/// Seen as the class.
impl Model for ClassText {
    ghost use Rattle.std.specs.Prelude.{◌≡◌, ℕ, List};
    ghost use Rattle.pam_codes.specs.SetText.{set_text};

    ghost Value = { List ℕ };

    ghost view = { λ t. t.class };

    ghost invariant = { λ t. t.text ≡ set_text t.class };
}

/// Appends the text of a class by a writer. Returns whether there was room.
#[inline(never)]
fn append_set(text: &mut Buffer, class: CodeSet) -> bool
    ensures { IsTrue result → text.new ≡ text.old ++ set_text class }
{
    let empty = Buffer::empty(text.allocator());
    let mut out = Out::new(mem::replace(text, empty));
    let fits = class.write_text(&mut out).is_ok();
    *text = out.into_inner();
    fits
}

/// Whether each code of `class` is in `other`.
fn has_no_more(class: CodeSet, other: CodeSet) -> bool
    ensures { IsTrue result → codes_where (λ c. is_in c class && not (is_in c other)) ≡ [] }
{
    class.without(other).is_empty()
}

/// Whether the sets have the same codes.
fn is_same(class: CodeSet, other: CodeSet) -> bool
    requires class { IsCodeSet class }
    requires other { IsCodeSet other }
    ensures { IsTrue result → class ≡ other }
{
    has_no_more(class, other) && has_no_more(other, class)
}

impl ClassText {
    /// The text of the empty class.
    fn new(alloc: Global) -> Result<ClassText, AllocError> {
        Ok(ClassText {
            class: CodeSet::empty(),
            text: Buffer::with_capacity(alloc, CLASS_BYTES)?,
        })
    }

    fn is_of(&self, class: CodeSet) -> bool
        ensures { IsTrue result → self.now ≡ class }
    {
        self.class.len() == class.len() && is_same(self.class, class)
    }

    /// Appends the text. Returns whether there was room.
    #[inline]
    fn append_to(&self, steps: &mut Buffer) -> bool
        ensures { steps.new ≡ (if result then steps.old ++ set_text self.now else steps.old) }
    {
        steps.append_part::<SHORT_BYTES>(&self.text, 0, self.text.len())
    }

    /// Replaces the text by the text of `class`. Returns whether there was room.
    fn replace(&mut self, class: CodeSet) -> bool
        ensures { IsTrue result → self.new ≡ class }
    {
        self.text.truncate(0);
        if append_set(&mut self.text, class) {
            self.class = class;
            return true;
        }
        self.text.truncate(0);
        self.class = CodeSet::empty();
        false
    }
}

/// The texts of three classes. Modules with one control rarely have others of more than one code.
#[derive(Drop)]
pub(crate) struct ClassTexts {
    last: ClassText,
    earlier: ClassText,
    /// The text of the class before both.
    first: ClassText,
}

impl ClassTexts {
    pub(crate) fn new(alloc: Global) -> Result<ClassTexts, AllocError> {
        Ok(ClassTexts {
            last: ClassText::new(alloc)?,
            earlier: ClassText::new(alloc)?,
            first: ClassText::new(alloc)?,
        })
    }

    /// Appends the text of `class`. Returns whether there was room.
    pub(crate) fn append_to(&mut self, steps: &mut Buffer, class: CodeSet) -> bool
        ensures { IsTrue result → steps.new ≡ steps.old ++ set_text class }
    {
        if self.last.is_of(class) {
            return self.last.append_to(steps);
        }
        if self.earlier.is_of(class) {
            return self.earlier.append_to(steps);
        }
        if self.first.is_of(class) {
            return self.first.append_to(steps);
        }
        mem::swap(&mut self.earlier, &mut self.first);
        mem::swap(&mut self.last, &mut self.earlier);
        self.last.replace(class) && self.last.append_to(steps)
    }
}
