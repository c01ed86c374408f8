//! The first of the runs that ask the fewest modules.

ghost use Rattle.std.specs.Prelude.{◌≡◌, ◌≤◌, ◌<◌, ◌∷◌, [], IfOk, List, length, ℕ};
ghost use Rattle.pam_graph.specs.Order.{AreNodes, IsStart};
ghost use Rattle.pam_graph.specs.Walks.{walks_of, walks_to};
ghost use Rattle.pam_graph.specs.inner.Within.{AreWithin, IsWithin};
ghost use Rattle.pam_paths.specs.Paths.{PathValue};
ghost use Rattle.pam_policy.specs.declared.search.distances.TheConstants.{FAR};
ghost use Rattle.pam_policy.specs.search.inner.Choices.{IsFirstChoice, SaysChoice, first_of};
ghost use Rattle.pam_policy.specs.search.inner.Monitor.{first_state};
ghost use Rattle.pam_policy.specs.search.inner.Searches.{IsFirstFrom, IsLeastFrom, Knows};
ghost use Rattle.pam_policy.specs.search.Runs.{rank, run_value};
ghost use Rattle.pam_policy.specs.search.Witness.{AreApart};

use crate::search::distances::Search;
use crate::search::run::{Run, Step};
use pam_codes::Code;
use pam_graph::{Edge, Node, Target};
use pam_paths::Knowledge;
use std::alloc::{AllocError, Global};

/// An answer with which a run goes on, and where and in which state it does.
#[derive(Clone, Copy)]
pub(crate) struct Choice {
    code: Code,
    target: Target,
    state: u8,
}

/// The place of an answer in the order in which they are shown: success, auth_err, perm_denied, user_unknown, authinfo_unavail,
/// ignore, and then by number.
pub(crate) fn rank(code: Code) -> u8
    ensures { result ≡ rank code }
{
    match code.number() {
        0 => 0,
        7 => 1,
        6 => 2,
        10 => 3,
        9 => 4,
        25 => 5,
        number => number + 6,
    }
}

/// The first of two choices, if there is one.
fn first_of(one: Option<Choice>, other: Option<Choice>) -> Option<Choice>
    ensures { result ≡ first_of one other }
{
    match one {
        None => other,
        Some(a) => match other {
            None => Some(a),
            Some(b) => if rank(b.code) < rank(a.code) {
                Some(b)
            } else {
                Some(a)
            },
        },
    }
}

impl Search<'_> {
    /// The choice of this answer, if a run asks at least `distance` modules after it.
    fn choice_at(
        &self,
        number: usize,
        target: &Target,
        code: Code,
        state: u8,
        distance: u16,
    ) -> Option<Choice>
        requires target { IsWithin (length self.now.far.now) target.now }
        requires state { state ≤ first_state self.now.query.now }
        requires distance { distance < FAR }
        ensures { (known : List (List PathValue)) → Knows self.now known → SaysChoice self.now known number code state distance target.now result }
    {
        let next = self.query.after(number, code, state)?;
        if self.distance_to(target, next) != distance {
            return None;
        }
        Some(Choice {
            code,
            target: *target,
            state: next,
        })
    }

    /// The first choice of an answer of the class of `edge`, after which a run asks at least `distance` modules.
    fn choice_by(&self, number: usize, edge: &Edge, state: u8, distance: u16) -> Option<Choice>
        requires target { IsWithin (length self.now.far.now) edge.now.target }
        requires state { state ≤ first_state self.now.query.now }
        requires distance { distance < FAR }
        ensures { (known : List (List PathValue)) → Knows self.now known → IsFirstChoice self.now known number state distance (edge.now ∷ []) result }
    {
        let mut first = None;
        let mut left = edge.class.intersection(self.known.allowed(number));
        while let Some(code) = left.take_least() {
            let choice = self.choice_at(number, &edge.target, code, state, distance);
            first = first_of(first, choice);
        }
        first
    }

    /// The first choice at `node`, after which a run asks at least `distance` modules.
    fn choice(&self, node: &Node, state: u8, distance: u16) -> Option<Choice>
        requires edges { AreWithin (length self.now.far.now) node.now.edges.items }
        requires state { state ≤ first_state self.now.query.now }
        requires distance { distance < FAR }
        ensures { (known : List (List PathValue)) → Knows self.now known
            → IsFirstChoice self.now known node.now.module_number state distance node.now.edges.items result }
    {
        let mut first = None;
        for edge in &node.edges {
            let choice = self.choice_by(node.module_number, edge, state, distance);
            first = first_of(first, choice);
        }
        first
    }

    /// The first run from `start` on of those that ask the fewest modules, of which there are some.
    pub(crate) fn first_run(
        &self,
        alloc: Global,
        nodes: &[Node],
        start: Target,
    ) -> Result<Run, AllocError>
        requires order { AreNodes [] nodes.now }
        requires len { length self.now.far.now ≡ length nodes.now }
        requires far { Knows self.now (walks_of nodes.now) }
        requires start { IsStart nodes.now start }
        requires some { (distance : ℕ) → IsLeastFrom self.now (walks_to (walks_of nodes.now) start) (first_state self.now.query.now) distance → distance < FAR }
        ensures { AreApart nodes.now
            → IfOk result (λ run. IsFirstFrom self.now (walks_to (walks_of nodes.now) start) (first_state self.now.query.now) (run_value run)) }
    {
        let mut steps = Vec::new(alloc);
        let mut target = start;
        let mut state = self.query.first_state();
        let mut left = self.distance_to(&target, state);
        loop {
            match target {
                Target::End(decision) => return Ok(Run { steps, decision }),
                Target::At(index) => {
                    let node = &nodes[index as usize];
                    left -= 1;
                    let Some(choice) = self.choice(node, state, left) else {
                        unreachable!()
                    };
                    steps.push(Step {
                        module_number: node.module_number,
                        code: choice.code,
                    })?;
                    target = choice.target;
                    state = choice.state;
                }
            }
        }
    }
}
