//! The classes of the stacks of a host, found one after another.

ghost use Rattle.std.specs.Prelude.{◌≡◌, ◌∷◌, ◌++◌, [], IfNone, IfOk, IfSome, IsTrue, OnOk, length, slice_get};
ghost use Rattle.pam_compare.specs.Same.{AreSame};
ghost use Rattle.pam_conf.specs.Stack.{module_count};
ghost use Rattle.pam_facts.specs.known.Knowledge.{Agree};
ghost use Rattle.pam_paths.specs.Known.{may_answer};
ghost use Rattle.pam_policy.specs.host.HostStacks.{HasGraph};
ghost use Rattle.pam_policy.specs.host.inner.Classes.{Adds, AreFound, Holds, HoldsAt, IsLarge, IsLargeClass, IsLikeLarge, Refuses, RefusesAt};
ghost use Rattle.pam_policy.specs.search.Witness.{IsGraphOf};

use crate::host::answers::are_same_answers;
use crate::host::stacks::{ClassStack, KnownStack, StackClass};
use crate::search::laws::graphs;
use indexmap::IndexMap;
use pam_codes::{CODES, Code, CodeSet};
use pam_compare::{Digest, are_same_stacks};
use pam_conf::{ConfError, Kind, Stack};
use pam_dispatch::Program;
use pam_graph::{Graph, GraphError};
use pam_paths::{Knowledge, Known};
use std::alloc::{AllocError, Global};

/// A stack of a kind, and the answers that its modules may give.
#[derive(Drop)]
pub(crate) struct Answered {
    pub(crate) kind: Kind,
    pub(crate) stack: Stack,
    pub(crate) known: Known,
}

/// A stack whose runs are too many, with its class.
#[derive(Drop)]
struct LargeStack {
    answered: Answered,
    class: usize,
}

/// The classes that are found so far.
#[derive(Drop)]
pub(crate) struct Classes {
    pub(crate) classes: Vec<StackClass>,
    /// Those that are too large. A class does not keep their stacks.
    large: Vec<LargeStack>,
    /// By the digest of a stack, the position of its class. It is a hint: what is there is compared before it is used.
    by_digest: IndexMap<u64, usize>,
    /// The same, of positions in `large`.
    large_by_digest: IndexMap<u64, usize>,
}

fn add_codes(digest: &mut Digest, codes: CodeSet) {
    for number in 0..CODES as u8 {
        if let Some(code) = Code::new(number) {
            digest.add(u64::from(codes.contains(code)));
        }
    }
}

/// A digest of a stack, by which an equal one is found again.
fn digest_of(answered: &Answered) -> u64 {
    let mut digest = Digest::new();
    digest.add_kind(answered.kind);
    digest.add_stack(&answered.stack);
    for index in 0..answered.stack.modules() {
        add_codes(&mut digest, answered.known.allowed(index + 1));
    }
    digest.value()
}

/// A digest of a fault.
fn digest_of_fault(kind: Kind, fault: ConfError) -> u64 {
    let mut digest = Digest::new();
    digest.add_kind(kind);
    digest.add(fault.line as u64);
    if let Some(file) = fault.at {
        digest.add(file as u64);
    }
    digest.value()
}

/// The graph of a stack with the answers of its modules; `None` if it would have too many nodes.
fn graph_of(alloc: Global, answered: &Answered) -> Result<Option<Graph>, AllocError>
    ensures graph { IfOk result (λ graph. IfSome graph (IsGraphOf (may_answer answered.now.known) answered.now.stack)) }
    ensures large { IfOk result (λ graph. IfNone graph (IsLarge answered.now)) }
{
    graphs();
    // The items say that the modules are numbered.
    let _items = answered.stack.items();
    let program = match Program::of(alloc, &answered.stack) {
        Ok(program) => program,
        Err(_) => return Err(AllocError),
    };
    match Graph::of(alloc, &program, &answered.known) {
        Ok(graph) => {
            // The nodes say that each comes after those to which its edges lead.
            let _nodes = graph.nodes();
            Ok(Some(graph))
        }
        Err(GraphError::TooManyNodes) => Ok(None),
        Err(GraphError::Memory) => Err(AllocError),
    }
}

/// The class of a stack with its runs.
fn with_graph(answered: Answered, graph: Graph) -> StackClass
    requires { IsGraphOf (may_answer answered.known) answered.stack graph }
    ensures holds { Holds answered result }
    ensures graph { HasGraph result }
{
    let Answered { kind, stack, known } = answered;
    StackClass {
        kind,
        stack: ClassStack::Known(KnownStack {
            stack,
            known,
            graph,
        }),
    }
}

/// The class of a stack whose runs are too many.
fn without_graph(answered: &Answered) -> StackClass
    requires { IsLarge answered.now }
    ensures holds { Holds answered.now result }
    ensures graph { HasGraph result }
{
    StackClass {
        kind: answered.kind,
        stack: ClassStack::TooLarge,
    }
}

/// The class of a stack, of which no other is known.
pub(crate) fn alone(alloc: Global, answered: Answered) -> Result<StackClass, AllocError>
    ensures { IfOk result (Holds answered) }
{
    match graph_of(alloc, &answered)? {
        Some(graph) => Ok(with_graph(answered, graph)),
        None => Ok(without_graph(&answered)),
    }
}

/// Whether two stacks have the same items, and their modules the same answers.
fn are_alike(stack: &Stack, known: &Known, other: &Answered) -> bool
    ensures same { IsTrue result → AreSame stack.now other.now.stack }
    ensures agree { IsTrue result → Agree (module_count other.now.stack) (may_answer known.now) (may_answer other.now.known) }
{
    are_same_stacks(stack, &other.stack)
        && are_same_answers(known, &other.known, other.stack.modules())
}

/// Whether a class is that of a stack, and its runs are not too many.
fn is_known_class(class: &StackClass, answered: &Answered) -> bool
    ensures { IsTrue result → HasGraph class.now → Holds answered.now class.now }
{
    match &class.stack {
        ClassStack::Known(known) => {
            class.kind == answered.kind && are_alike(&known.stack, &known.known, answered)
        }
        ClassStack::Refused(_) | ClassStack::TooLarge => false,
    }
}

/// Whether a class is that of the stacks of a kind that are refused for this fault.
fn is_refused_class(class: &StackClass, kind: Kind, fault: ConfError) -> bool
    ensures { IsTrue result → Refuses kind fault class.now }
{
    match &class.stack {
        ClassStack::Refused(other) => class.kind == kind && *other == fault,
        ClassStack::TooLarge | ClassStack::Known(_) => false,
    }
}

/// Whether a class is that of the stacks of a kind that are too large.
fn is_large_class(class: &StackClass, kind: Kind) -> bool
    ensures { IsTrue result → IsLargeClass kind class.now }
{
    match &class.stack {
        ClassStack::TooLarge => class.kind == kind,
        ClassStack::Refused(_) | ClassStack::Known(_) => false,
    }
}

impl Classes {
    pub(crate) fn none(alloc: Global) -> Classes
        ensures classes { result.classes.items ≡ [] }
        ensures found { AreFound result }
    {
        Classes {
            classes: Vec::new(alloc),
            large: Vec::new(alloc),
            by_digest: IndexMap::new(alloc),
            large_by_digest: IndexMap::new(alloc),
        }
    }

    /// The class at the position for a digest.
    fn hinted(&self, digest: u64) -> Option<usize> {
        match self.by_digest.get(&digest) {
            Some(position) => Some(*position),
            None => None,
        }
    }

    /// The class of a stack whose runs are not too many, if it is found.
    fn find_known(&self, answered: &Answered, digest: u64) -> Option<usize>
        ensures { AreFound self.now → IfSome result (λ k. HoldsAt answered.now (slice_get self.now.classes.items k)) }
    {
        let position = self.hinted(digest)?;
        let class = self.classes.get(position)?;
        if is_known_class(class, answered) {
            return Some(position);
        }
        None
    }

    /// The class of the stacks of a kind that are refused for a fault, if it is found.
    fn find_refused(&self, kind: Kind, fault: ConfError, digest: u64) -> Option<usize>
        ensures { IfSome result (λ k. RefusesAt kind fault (slice_get self.now.classes.items k)) }
    {
        let position = self.hinted(digest)?;
        let class = self.classes.get(position)?;
        if is_refused_class(class, kind, fault) {
            return Some(position);
        }
        None
    }

    /// The large stack at the position for a digest, if it has the same items and answers.
    fn hinted_large(&self, answered: &Answered, digest: u64) -> Option<&LargeStack>
        ensures { AreFound self.now → IfSome result (λ _. IsLikeLarge answered.now) }
    {
        let position = match self.large_by_digest.get(&digest) {
            Some(position) => *position,
            None => return None,
        };
        let large = self.large.get(position)?;
        if are_alike(&large.answered.stack, &large.answered.known, answered) {
            return Some(large);
        }
        None
    }

    /// The class of a stack that is too large, if it is found.
    fn find_large(&self, answered: &Answered, digest: u64) -> Option<usize>
        ensures { AreFound self.now → IfSome result (λ k. HoldsAt answered.now (slice_get self.now.classes.items k)) }
    {
        let large = self.hinted_large(answered, digest)?;
        let class = self.classes.get(large.class)?;
        if is_large_class(class, answered.kind) {
            return Some(large.class);
        }
        None
    }

    /// Adds a class. Returns its position.
    fn push(&mut self, class: StackClass, digest: u64) -> Result<usize, AllocError>
        ensures classes { OnOk result (self.new.classes.items ≡ self.old.classes.items ++ class ∷ []) }
        ensures large { OnOk result (self.new.large.items ≡ self.old.large.items) }
        ensures position { IfOk result (λ k. k ≡ length self.old.classes.items) }
    {
        let position = self.classes.len();
        self.classes.push(class)?;
        self.by_digest.insert(digest, position)?;
        Ok(position)
    }

    /// Adds the class of a stack with its graph.
    fn add_known(
        &mut self,
        answered: Answered,
        graph: Graph,
        digest: u64,
    ) -> Result<usize, AllocError>
        requires { IsGraphOf (may_answer answered.known) answered.stack graph }
        ensures adds { OnOk result (Adds self.old self.new) }
        ensures class { IfOk result (λ k. HoldsAt answered (slice_get self.new.classes.items k)) }
    {
        let class = with_graph(answered, graph);
        let position = self.push(class, digest)?;
        Ok(position)
    }

    /// Adds the class of a stack whose runs are too many.
    fn add_large(&mut self, answered: Answered, digest: u64) -> Result<usize, AllocError>
        requires { IsLarge answered }
        ensures adds { OnOk result (Adds self.old self.new) }
        ensures class { IfOk result (λ k. HoldsAt answered (slice_get self.new.classes.items k)) }
    {
        let class = self.push(without_graph(&answered), digest)?;
        let position = self.large.len();
        self.large.push(LargeStack { answered, class })?;
        self.large_by_digest.insert(digest, position)?;
        Ok(class)
    }

    /// Adds the class of a stack.
    fn add(&mut self, alloc: Global, answered: Answered, digest: u64) -> Result<usize, AllocError>
        ensures adds { OnOk result (Adds self.old self.new) }
        ensures class { IfOk result (λ k. HoldsAt answered (slice_get self.new.classes.items k)) }
    {
        match graph_of(alloc, &answered)? {
            Some(graph) => self.add_known(answered, graph, digest),
            None => self.add_large(answered, digest),
        }
    }

    /// The class of a stack with its answers, which is added if there is none.
    pub(crate) fn class_of(
        &mut self,
        alloc: Global,
        answered: Answered,
    ) -> Result<usize, AllocError>
        ensures adds { OnOk result (Adds self.old self.new) }
        ensures class { AreFound self.old → IfOk result (λ k. HoldsAt answered (slice_get self.new.classes.items k)) }
    {
        let digest = digest_of(&answered);
        if let Some(class) = self.find_known(&answered, digest) {
            return Ok(class);
        }
        if let Some(class) = self.find_large(&answered, digest) {
            return Ok(class);
        }
        self.add(alloc, answered, digest)
    }

    /// The class of the stacks of a kind that are refused for a fault, which is added if there is none.
    pub(crate) fn class_refused(
        &mut self,
        kind: Kind,
        fault: ConfError,
    ) -> Result<usize, AllocError>
        ensures adds { OnOk result (Adds self.old self.new) }
        ensures class { IfOk result (λ k. RefusesAt kind fault (slice_get self.new.classes.items k)) }
    {
        let digest = digest_of_fault(kind, fault);
        if let Some(class) = self.find_refused(kind, fault, digest) {
            return Ok(class);
        }
        let class = StackClass {
            kind,
            stack: ClassStack::Refused(fault),
        };
        let position = self.push(class, digest)?;
        Ok(position)
    }
}
