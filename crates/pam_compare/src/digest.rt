//! Digests of stacks, by which equal ones are found again.

use pam_codes::{Action, CODES, Code, Control};
use pam_conf::{Item, Kind, Module, Stack};

/// The prime of FNV-1a, of 64 bits.
const PRIME: u64 = 0x0000_0100_0000_01b3;

/// The offset of FNV-1a, of 64 bits.
const OFFSET: u64 = 0xcbf2_9ce4_8422_2325;

/// A digest of numbers, kinds and stacks. Where the same is added in the same order it is the same, and elsewhere rarely. It is a
/// hint: what has the same digest must be compared.
#[derive(Clone, Copy, Debug)]
pub struct Digest {
    value: u64,
}

fn action_number(action: Action) -> u64 {
    match action {
        Action::Ignore => 0,
        Action::Ok => 1,
        Action::Done => 2,
        Action::Bad => 3,
        Action::Die => 4,
        Action::Reset => 5,
        Action::Jump(items) => u64::from(items) + 6,
    }
}

fn kind_number(kind: Kind) -> u64 {
    match kind {
        Kind::Auth => 0,
        Kind::Account => 1,
        Kind::Password => 2,
        Kind::Session => 3,
    }
}

impl Digest {
    /// The digest of nothing.
    pub fn new() -> Digest {
        Digest { value: OFFSET }
    }

    pub fn value(&self) -> u64 {
        self.value
    }

    pub fn add(&mut self, number: u64) {
        self.value = (self.value ^ number).wrapping_mul(PRIME);
    }

    pub fn add_kind(&mut self, kind: Kind) {
        self.add(kind_number(kind));
    }

    fn add_text(&mut self, text: &[u8]) {
        self.add(text.len() as u64);
        for byte in text {
            self.add(u64::from(*byte));
        }
    }

    fn add_control(&mut self, control: &Control) {
        for number in 0..CODES as u8 {
            if let Some(code) = Code::new(number) {
                self.add(action_number(control.action(code)));
            }
        }
    }

    fn add_module(&mut self, module: &Module) {
        self.add_control(&module.control);
        self.add_text(&module.path);
        for argument in module.arguments.iter() {
            self.add_text(argument);
        }
    }

    fn add_items(&mut self, items: &[Item]) {
        self.add(items.len() as u64);
        for item in items {
            match item {
                Item::Module(module) => self.add_module(module),
                Item::Sub(sub) => self.add_items(&sub.items),
            }
        }
    }

    /// Adds the items of a stack, wherever their rules are.
    pub fn add_stack(&mut self, stack: &Stack) {
        self.add_items(stack.items());
    }
}
