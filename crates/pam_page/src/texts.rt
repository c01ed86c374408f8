//! The kept texts of the path whose line was written last.

ghost use Rattle.std.specs.Prelude.{◌≡◌, ◌++◌, ◌∷◌, ◌-◌, ◌<◌, [], if◌then◌else◌, IfOk, IsTrue, codes, length, map, take};
ghost use Rattle.pam_codes.specs.SetText.{set_text};
ghost use Rattle.pam_page.specs.inner.KeptSteps.{code_text};
ghost use Rattle.pam_page.specs.Page.{path_line, step_text};
ghost use Rattle.pam_paths.specs.Steps.{step_seen};

use crate::buffer::Buffer;
use crate::classes::ClassTexts;
use crate::code_texts::{append_name, append_number};
use crate::copied::append_line;
use crate::tail_texts::TailTexts;
use pam_codes::{CODES, CodeSet};
use pam_dispatch::MAX_MODULES;
use pam_paths::{Path, PathStep};
use std::alloc::{AllocError, Global};
use std::marker::Model;
use std::mem;

/// The greatest length of the text of a code, in bytes, with the dot before it.
const CODE_BYTES: usize = 3;

/// The greatest length of the text of a step, in bytes. The names missing from a class of 16 codes, or the names in one
/// of 15, are at most 233 bytes, after `but:`, the number and two signs.
const STEP_BYTES: usize = 242;

/// The number of bytes of lines that are written at once. It is twice as many as the longest line has.
const LINES_BYTES: usize = 128 * 1024;

/// A step whose texts are kept, and their ends in the buffers.
#[derive(Clone, Copy, Debug)]
struct KeptStep {
    step: PathStep,
    cursor_end: usize,
    steps_end: usize,
}

/// The texts of the path whose line was written last. The next line copies the steps it shares with that path from
/// here.
#[derive(Drop)]
pub struct LineTexts {
    /// The first steps of that path, as many as there was room for.
    kept: Vec<KeptStep>,
    /// `.CODE` for each step.
    cursor: Buffer,
    /// ` NUMBER=CLASS` for each step.
    steps: Buffer,
    /// The texts of the steps after those, at which the answers no longer matter.
    tail_texts: TailTexts,
    /// The texts of the classes of more than one code that were appended last.
    classes: ClassTexts,
    /// The buffer for lines that are not written yet.
    lines: Buffer,
}

/// Seen as the steps whose texts are kept.
impl Model for LineTexts {
    ghost use Rattle.std.specs.Prelude.{List, map};
    ghost use Rattle.pam_page.specs.KeptSteps.{step_of};
    ghost use Rattle.pam_page.specs.inner.KeptSteps.{AreTexts};
    ghost use Rattle.pam_paths.specs.Paths.{StepValue};

    ghost Value = { List StepValue };

    ghost view = { λ t. map step_of t.kept.items };

    ghost invariant = { λ t. AreTexts t.kept.items t.cursor t.steps };
}

/// Appends `.CODE`, the least code of the class of a step. Returns whether there was room.
#[tactic(auto, unfolding(crate::specs::inner::KeptSteps::code_text))]
fn append_code(cursor: &mut Buffer, step: &PathStep) -> bool
    ensures { IsTrue result → cursor.new ≡ cursor.old ++ code_text (step_seen step.now) }
{
    match step.class().least() {
        Some(code) => append_number(cursor, code),
        None => false,
    }
}

/// Appends the text of a class. Returns whether there was room.
fn append_class(steps: &mut Buffer, classes: &mut ClassTexts, class: CodeSet) -> bool
    ensures { IsTrue result → steps.new ≡ steps.old ++ set_text class }
{
    match class.len() {
        1 => match class.least() {
            Some(code) => append_name(steps, code),
            None => unreachable!(),
        },
        CODES => steps.append_front(b"any", 3),
        _ => classes.append_to(steps, class),
    }
}

/// Appends the text of a step. Returns whether there was room.
fn append_step(
    steps: &mut Buffer,
    tail_texts: &mut TailTexts,
    classes: &mut ClassTexts,
    step: &PathStep,
) -> bool
    ensures { IsTrue result → steps.new ≡ steps.old ++ step_text (step_seen step.now) }
{
    let number = step.number();
    if number == 0 {
        return false;
    }
    if !tail_texts.reach(number) {
        return false;
    }
    tail_texts.append_number_to(steps, number) && append_class(steps, classes, step.class())
}

/// Appends a step if there is room. Returns whether there was.
fn push_kept(kept: &mut Vec<KeptStep>, step: KeptStep) -> bool
    ensures { kept.new.items ≡ (if result then kept.old.items ++ step ∷ [] else kept.old.items) }
{
    kept.len() < kept.capacity() && kept.push(step).is_ok()
}

impl LineTexts {
    /// Returns no texts, with room for those of any path, so that writing a page allocates nothing. Fails if an
    /// allocation does.
    pub fn new(alloc: Global) -> Result<LineTexts, AllocError>
        ensures { IfOk result (λ texts. texts ≡ []) }
    {
        Ok(LineTexts {
            kept: Vec::with_capacity(alloc, MAX_MODULES)?,
            cursor: Buffer::with_capacity(alloc, CODE_BYTES * MAX_MODULES)?,
            steps: Buffer::with_capacity(alloc, STEP_BYTES * MAX_MODULES)?,
            tail_texts: TailTexts::new(alloc)?,
            classes: ClassTexts::new(alloc)?,
            lines: Buffer::with_capacity(alloc, LINES_BYTES)?,
        })
    }

    /// Keeps the texts of the first `count` steps.
    pub(crate) fn cut(&mut self, count: usize)
        ensures { self.new ≡ take count self.old }
    {
        self.kept.truncate(count);
        let Some(last) = self.kept.last() else {
            self.cursor.truncate(0);
            self.steps.truncate(0);
            return;
        };
        self.cursor.truncate(last.cursor_end);
        self.steps.truncate(last.steps_end);
    }

    /// Appends the texts of a step. Returns whether there was room; if not, no texts are kept.
    fn append(&mut self, step: &PathStep) -> bool
        ensures { self.new ≡ (if result then self.old ++ step_seen step.now ∷ [] else []) }
    {
        if append_code(&mut self.cursor, step)
            && append_step(
                &mut self.steps,
                &mut self.tail_texts,
                &mut self.classes,
                step,
            )
        {
            let kept = KeptStep {
                step: *step,
                cursor_end: self.cursor.len(),
                steps_end: self.steps.len(),
            };
            if push_kept(&mut self.kept, kept) {
                return true;
            }
        }
        self.kept.clear();
        self.cursor.truncate(0);
        self.steps.truncate(0);
        false
    }

    /// Replaces the kept texts by those of the steps of `path` at which the answers matter, as many as there is room for.
    /// The first `shared` of the kept steps are the first of the path.
    pub(crate) fn replace(&mut self, path: &Path, shared: usize)
        requires { take shared self.old ≡ take (length (take shared self.old)) path.now.steps }
        ensures { self.new ≡ take (length self.new) path.now.steps }
    {
        let steps = path.steps();
        let own = steps.len() - path.tail().len();
        self.replace_steps(&steps[..own], shared.min(own));
    }

    /// Replaces the kept texts by those of these steps, as many as there is room for. The first `shared` of the kept
    /// steps are the first of these.
    fn replace_steps(&mut self, steps: &[PathStep], shared: usize)
        requires { take shared self.old ≡ take (length (take shared self.old)) (map step_seen steps.now) }
        ensures { self.new ≡ take (length self.new) (map step_seen steps.now) }
    {
        self.cut(shared);
        let count = self.kept.len();
        let added = &steps[count..];
        for step in added {
            if !self.append(step) {
                return;
            }
        }
    }

    /// Appends the line of a path, whose first steps are the kept ones, to `lines`. Returns whether there was room.
    pub(crate) fn append_line(&mut self, path: &Path, lines: &mut Buffer) -> bool
        requires kept { self.old ≡ take (length self.old) path.now.steps }
        ensures kept { self.new ≡ self.old }
        ensures line { lines.new ≡ (if result then lines.old ++ path_line path.now else lines.old) }
    {
        let tail = path.tail();
        if self.kept.len() != path.steps().len() - tail.len() {
            return false;
        }
        let Some((before, last)) = self.tail_texts.reach_tail(tail) else {
            return false;
        };
        append_line(
            lines,
            &self.cursor,
            self.tail_texts.codes(tail.len()),
            &self.steps,
            self.tail_texts.steps(before, last),
            path,
        )
    }

    /// Returns the buffer for the lines that are not written yet, without bytes. Keeps none itself.
    pub(crate) fn take_lines(&mut self) -> Buffer
        ensures kept { self.new ≡ self.old }
        ensures empty { result ≡ [] }
    {
        let empty = Buffer::empty(self.lines.allocator());
        let mut lines = mem::replace(&mut self.lines, empty);
        lines.truncate(0);
        lines
    }
}
