//! What is said of a fault for which a request has no answer: what is wrong, and how to mend it.

ghost use Rattle.std.specs.Prelude.{◌≡◌};
ghost use Rattle.pam_render.specs.sentences.Refusals as spec;

use crate::sentences::faults::plain_sentence;
use crate::sentences::tables::{table_fault_sentence, time_fault_sentence};
use pam_conf::FaultKind;
use pam_facts::FactsFault;
use pam_findings::accepted::AcceptError;
use pam_policy::text::PolicyFault;
use pam_report::Fault;
use pam_tables::times::{MomentError, TimeFault};
use pam_tables::{Table, TableFault};
use pam_text::SourceFault;

fn sentence_in(table: Table, fault: TableFault) -> &'static str
    ensures { result.now ≡ spec.sentence_in table fault }
{
    match (table, fault) {
        (Table::Returns, TableFault::MissingField) => {
            "the line ends too early; a line has the name of a module, and then its codes"
        }
        (_, TableFault::Memory) => "",
        _ => table_fault_sentence(fault),
    }
}

fn conf_sentence(line: usize, kind: FaultKind) -> &'static str
    ensures { result.now ≡ spec.conf_sentence line kind }
{
    match kind {
        FaultKind::Memory => "",
        _ => plain_sentence(line, kind),
    }
}

fn time_sentence(fault: TimeFault) -> &'static str
    ensures { result.now ≡ spec.time_sentence fault }
{
    match fault {
        TimeFault::Memory => "",
        _ => time_fault_sentence(fault),
    }
}

#[tactic(auto, unfolding(crate::specs::sentences::Refusals::facts_sentence))]
fn facts_sentence(fault: FactsFault) -> &'static str
    ensures { result.now ≡ spec.facts_sentence fault }
{
    match fault {
        FactsFault::BadFact => {
            "the line says nothing of a module; write its name without .so, then checks, ignores, passes or fails, and kinds with their codes"
        }
        FactsFault::NulByte => "the facts file has a NUL byte; remove it",
        FactsFault::Memory => "",
        FactsFault::TooLong => "the facts file is longer than 1,048,576 bytes; shorten it",
    }
}

#[tactic(auto, unfolding(crate::specs::sentences::Refusals::policy_sentence))]
fn policy_sentence(fault: PolicyFault) -> &'static str
    ensures { result.now ≡ spec.policy_sentence fault }
{
    match fault {
        PolicyFault::MissingField => {
            "the line ends too early; a rule has services, kinds and what is to hold of them"
        }
        PolicyFault::NulByte => "the policy has a NUL byte; remove it",
        PolicyFault::Memory => "",
        PolicyFault::TableTooLong => "the policy is longer than 1,048,576 bytes; shorten it",
        PolicyFault::BadCode => {
            "a word is no return code, or no code is left; write one as success, failure or any"
        }
        PolicyFault::BadServices => {
            "the first word is no list of services; write names with commas between them, as sshd,login, or *"
        }
        PolicyFault::BadKinds => {
            "the second word is no list of kinds; write auth, account, password or session, with commas between them, or *"
        }
        PolicyFault::BadVerb => {
            "the verb is none, or cannot stand there; write needs, obeys, asks, always asks, or never or can with asks, succeeds, fails, ends or decides"
        }
        PolicyFault::BadEvent => {
            "a word is no module; write one as pam_unix, pam_unix[ARGUMENT] or pam_unix=CODES"
        }
        PolicyFault::BadList => {
            "the list joins by both and and or, or by or after obeys, or has too many modules; write two rules"
        }
        PolicyFault::NoAnswers => {
            "a module after with or without has no codes; write them after =, as =success"
        }
        PolicyFault::ExtraWord => {
            "a word stands after the end of the rule; join modules by and, or by or"
        }
        PolicyFault::TooManyRules => {
            "the policies have more than 1,000 rules; judge them one after the other"
        }
    }
}

#[tactic(auto, unfolding(crate::specs::sentences::Refusals::accept_sentence))]
fn accept_sentence(error: AcceptError) -> &'static str
    ensures { result.now ≡ spec.accept_sentence error }
{
    match error {
        AcceptError::BadAccept(_) => {
            "the line is no finding and its place; write L1 login:3 for a line, S2 login auth for a stack, or S7 Login for a file"
        }
        AcceptError::Memory => "",
        AcceptError::Source(SourceFault::NulByte(_)) => {
            "the accept file has a NUL byte; remove it"
        }
        AcceptError::Source(SourceFault::TooLong) => {
            "the accept file is longer than 1,048,576 bytes; shorten it"
        }
    }
}

#[tactic(auto, unfolding(crate::specs::sentences::Refusals::moment_sentence))]
fn moment_sentence(error: MomentError) -> &'static str
    ensures { result.now ≡ spec.moment_sentence error }
{
    match error {
        MomentError::Range => {
            "the moment is after 9999-12-30T22:00:00Z; count seconds, and not milliseconds"
        }
        MomentError::Rule => {
            "the value of --zone is no POSIX zone rule; write one as CET-1CEST,M3.5.0,M10.5.0/3"
        }
        MomentError::Memory => "",
        MomentError::Syntax => {
            "the value of --at is no date and time that exist; write one as 2024-05-06T10:00"
        }
    }
}

/// Returns what is wrong where a fault is, and how to mend it, or nothing if the line of the fault says all.
#[tactic(auto, unfolding(crate::specs::sentences::Refusals::refusal_sentence))]
pub fn refusal_sentence(fault: &Fault) -> &'static str
    ensures { result.now ≡ spec.refusal_sentence fault.now }
{
    match fault {
        Fault::Conf(error) => conf_sentence(error.line, error.kind),
        Fault::Table(error) => sentence_in(error.error.table, error.error.fault),
        Fault::Time(error) => time_sentence(error.fault),
        Fault::Facts(error) => facts_sentence(error.fault),
        Fault::Policy(error) => policy_sentence(error.error.fault),
        Fault::Accept(error) => accept_sentence(*error),
        Fault::Moment(error) => moment_sentence(*error),
        Fault::TooManyStates => {
            "a run of the stack can be at more than 65,536 places; say what modules can answer, with --set or --returns"
        }
        _ => "",
    }
}
