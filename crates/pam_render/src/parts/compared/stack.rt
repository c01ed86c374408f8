//! What changes in the stack of a service.

ghost use Rattle.pam_text.specs.Out.{Writes};
ghost use Rattle.pam_report.specs.ReplyViews.{compare_view};
ghost use Rattle.pam_render.specs.parts.Compared.{lines_of_stack, pair_at};

use super::CompareLines;
use super::line::{CompareLine, DifferingStack, Head, RefusedStack, Side};
use super::pair::put_pair;
use crate::parts::changes::service_at;
use pam_changes::{ComparedStack, StackChange, StackPair};
use pam_report::CompareReply;
use pam_text::{Device, Out};
use std::io::Write;

/// Writes the lines of two stacks, or at which service they were met first.
fn put_pair_at<L: CompareLines, W: Write>(
    lines: &L,
    reply: &CompareReply<'_>,
    stack: &ComparedStack,
    pair: &StackPair,
    out: &mut Out<W>,
) -> Result<(), Device>
    ensures { Writes W.contents out.old out.new result (pair_at L.line (compare_view reply.now) stack.now pair.now) }
{
    let services = &reply.changes.services;
    let head = Head {
        service: service_at(services, stack.service),
        kind: stack.kind,
    };
    if stack.service == pair.service {
        return put_pair(lines, reply, DifferingStack { head, pair }, out);
    }
    let first = Head {
        service: service_at(services, pair.service),
        kind: pair.kind,
    };
    lines.put_line(CompareLine::As { head, first }, out)
}

/// Writes what changes in a stack, which is nothing if nothing does.
#[tactic(auto, unfolding(crate::specs::parts::Compared::lines_of_stack))]
pub(super) fn put_stack<L: CompareLines, W: Write>(
    lines: &L,
    reply: &CompareReply<'_>,
    stack: &ComparedStack,
    out: &mut Out<W>,
) -> Result<(), Device>
    ensures { Writes W.contents out.old out.new result (lines_of_stack L.line (compare_view reply.now) stack.now) }
{
    match &stack.change {
        StackChange::NoStack | StackChange::Same => Ok(()),
        StackChange::Refused { old, new } => {
            let head = Head {
                service: service_at(&reply.changes.services, stack.service),
                kind: stack.kind,
            };
            let old = Side {
                files: reply.old,
                fault: old,
            };
            let new = Side {
                files: reply.new,
                fault: new,
            };
            lines.put_line(CompareLine::Refused(RefusedStack { head, old, new }), out)
        }
        StackChange::Differs(position) => match reply.changes.pairs.get(*position) {
            Some(pair) => put_pair_at(lines, reply, stack, pair, out),
            None => Ok(()),
        },
    }
}
