//! Policy files.

ghost use Rattle.std.specs.Prelude.{◌≡◌, ◌+◌, length, map, nat_lt};
ghost use Rattle.pam_policy.specs.text.Error.{Gives};
ghost use Rattle.pam_policy.specs.text.Policy.{counted_rule, rules_of};
ghost use Rattle.pam_policy.specs.text.Rules.{rule_view};
ghost use Rattle.pam_policy.specs.text.Words.{words_of};
ghost use Rattle.pam_policy.specs.text.inner.Error.{GivesPart};
ghost use Rattle.pam_policy.specs.text.inner.Policy.{with_line};

use crate::text::error::{PolicyError, PolicyFault};
use crate::text::rule::Rule;
use crate::text::words::Words;
use pam_tables::parts::Lines;
use pam_text::{MAX_FILE_BYTES, Source};
use std::alloc::Global;

/// The maximum length of a policy file, in bytes. A longer one is `TableTooLong`.
pub const MAX_POLICY_BYTES: usize = MAX_FILE_BYTES;

/// The greatest number of rules, of all files together.
pub const MAX_RULES: usize = 1000;

/// The rules of a policy file, from the top.
///
/// A rule is a line of words: services, kinds and a sentence, as in `sshd,login auth needs pam_unix or pam_sss`. Words are
/// separated by spaces, tabs and carriage returns, and one that begins with `#` begins a comment. A rule borrows the names of
/// its line.
#[derive(Drop)]
pub struct Policy<'a> {
    pub rules: Vec<Rule<'a>>,
}

/// Whether another rule is allowed after those of earlier files and of this one.
fn has_room(rules_before: usize, count: usize) -> bool
    ensures { result ≡ nat_lt (rules_before + count) MAX_RULES }
{
    rules_before < MAX_RULES && count < MAX_RULES - rules_before
}

/// The rule of a line with words, after the rules of earlier files and of this one.
#[tactic(auto, unfolding(crate::specs::text::Policy::counted_rule))]
fn counted_rule<'a>(
    alloc: Global,
    rules_before: usize,
    count: usize,
    number: u32,
    line: &'a [u8],
) -> Result<Rule<'a>, PolicyFault>
    ensures { GivesPart rule_view result (counted_rule (rules_before + count) number (words_of line.now)) }
{
    if has_room(rules_before, count) {
        Rule::read(alloc, number, line)
    } else {
        Err(PolicyFault::TooManyRules)
    }
}

impl<'a> Policy<'a> {
    /// Adds the rule of a line, if it has words.
    fn add_line(
        &mut self,
        alloc: Global,
        rules_before: usize,
        number: u32,
        line: &'a [u8],
    ) -> Result<(), PolicyFault>
        ensures { GivesPart (λ _. map rule_view self.new.rules.items) result
            (with_line (map rule_view self.old.rules.items) (rules_before + length self.old.rules.items) number (words_of line.now)) }
    {
        if Words::of(line).is_empty() {
            return Ok(());
        }
        let rule = counted_rule(alloc, rules_before, self.rules.len(), number, line)?;
        self.rules.push(rule)?;
        Ok(())
    }

    /// Reads a policy file, or returns its first fault. `rules_before` is the number of rules in earlier files.
    ///
    /// `TableTooLong` (line 0) comes first, then `NulByte`, then the lines from the top. Within a line the words are judged from
    /// the left. A failed allocation is `Memory`, with line 0.
    pub fn read(
        alloc: Global,
        bytes: &'a [u8],
        rules_before: usize,
    ) -> Result<Policy<'a>, PolicyError>
        ensures { Gives (λ policy. map rule_view policy.rules.items) result (rules_of bytes.now rules_before) }
    {
        let source = match Source::of(bytes) {
            Ok(source) => source,
            Err(fault) => return Err(PolicyError::of_source(fault)),
        };
        let mut policy = Policy {
            rules: Vec::new(alloc),
        };
        for (number, line) in Lines::of(source) {
            if let Err(fault) = policy.add_line(alloc, rules_before, number, line) {
                return Err(PolicyError::at(fault, number));
            }
        }
        Ok(policy)
    }
}
