//! Rules.

ghost use Rattle.std.specs.Prelude.{◌≡◌};
ghost use Rattle.pam_policy.specs.text.Rules.{rule_of, rule_view};
ghost use Rattle.pam_policy.specs.text.Sentences.{sentence_decisions, sentence_view};
ghost use Rattle.pam_policy.specs.text.Services.{fits, services_view};
ghost use Rattle.pam_policy.specs.text.Words.{words_of};
ghost use Rattle.pam_policy.specs.text.inner.Error.{GivesPart};

use crate::text::error::PolicyFault;
use crate::text::sentence::Sentence;
use crate::text::services::{Services, read_kinds};
use crate::text::words::{Words, with_spaces};
use pam_codes::CodeSet;
use pam_conf::Kind;
use pam_facts::Kinds;
use std::alloc::Global;

/// A rule of a policy file.
#[derive(Drop)]
pub struct Rule<'a> {
    /// From 1.
    pub line: u32,
    /// The words of the line, with one space between them.
    pub text: Vec<u8>,
    pub services: Services<'a>,
    pub kinds: Kinds,
    pub sentence: Sentence<'a>,
}

impl<'a> Rule<'a> {
    /// The rule of the words of a line with this number.
    #[tactic(auto, unfolding(crate::specs::text::Rules::rule_of, crate::specs::text::Rules::parts_of))]
    pub(crate) fn read(alloc: Global, number: u32, line: &'a [u8]) -> Result<Rule<'a>, PolicyFault>
        ensures { GivesPart rule_view result (rule_of number (words_of line.now)) }
    {
        let mut rest = Words::of(line);
        let services = Services::read(alloc, rest.next()?)?;
        let kinds = read_kinds(rest.next()?)?;
        let sentence = Sentence::read(alloc, &mut rest)?;
        if !rest.is_empty() {
            return Err(PolicyFault::ExtraWord);
        }
        let text = with_spaces(alloc, line)?;
        Ok(Rule {
            line: number,
            text,
            services,
            kinds,
            sentence,
        })
    }

    /// Whether the rule is about a service.
    pub fn fits(&self, service: &[u8]) -> bool
        ensures { result ≡ fits (services_view self.now.services) service.now }
    {
        self.services.fits(service)
    }

    /// The decisions that the rule is about, of a stack of this kind.
    pub fn decisions(&self, kind: Kind) -> CodeSet
        ensures { result ≡ sentence_decisions (sentence_view self.now.sentence) kind }
    {
        self.sentence.decisions(kind)
    }
}
