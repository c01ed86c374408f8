//! Replies: the values that answer requests.

ghost use Rattle.std.specs.Prelude.{◌≡◌};
ghost use Rattle.pam_report.specs.Reply.{access_status, status_of, status_of_decision, time_status};
ghost use Rattle.pam_report.specs.ReplyViews.{reply_view};

use super::Status;
use super::check::CheckReply;
use super::compare::CompareReply;
use super::decide::RunReply;
use super::graph::GraphReply;
use super::needs::NeedsReply;
use super::outcomes::OutcomesReply;
use super::paths::PathsPage;
use super::policy::PolicyReply;
use super::released::ReleasedReply;
use super::show::StackReply;
use pam_dispatch::Decision;
use pam_explain::Explanation;
use pam_tables::AccessAnswer;
use pam_tables::times::TimeAnswer;

/// Which line of the access tables decides.
#[derive(Clone, Copy)]
pub struct AccessReply<'a> {
    /// The answer, with the number of the line.
    pub answer: AccessAnswer,
    /// The name of the line's table, where several are named and a line decides.
    pub table: Option<&'a str>,
}

/// The value that answers a request.
#[derive(Drop)]
pub enum Reply<'a> {
    /// Of `show`: a stack for each kind.
    Stacks(Vec<StackReply<'a>>),
    /// Of `show` with `--as`: the rules of each kind.
    Released(Vec<ReleasedReply<'a>>),
    /// Of `decide`.
    Run(RunReply<'a>),
    /// Of `access`.
    Access(AccessReply<'a>),
    /// Of `time`.
    Time(TimeAnswer),
    /// Of `paths`.
    Paths(PathsPage<'a>),
    /// Of `outcomes`.
    Outcomes(OutcomesReply<'a>),
    /// Of `graph`.
    Graph(GraphReply<'a>),
    /// Of `check`.
    Check(CheckReply<'a>),
    /// Of `compare`.
    Compared(CompareReply<'a>),
    /// Of `policy`.
    Policy(PolicyReply<'a>),
    /// Of `needs`.
    Needs(NeedsReply<'a>),
    /// Of `explain` with a number.
    Explained(Explanation),
    /// Of `explain` without one: a list of all explanations.
    Explanations,
    /// Of `facts`.
    Facts,
    /// Of `version`.
    Version,
}

impl Reply<'_> {
    /// Returns how the answer ended: `Success` for a decision of `success`, a login that is granted, a check that finds nothing
    /// that counts, a comparison without a change, policies of which nothing is found that counts, and any answer of the other
    /// commands; `Faulty` for a comparison with a stack that is refused; else `Refusal`.
    pub fn status(&self) -> Status
        ensures { result ≡ status_of (reply_view self.now) }
    {
        match self {
            Reply::Run(run) => status_of_decision(run.trace.decision),
            Reply::Access(access) => status_of_access(access.answer),
            Reply::Time(answer) => status_of_time(*answer),
            Reply::Check(check) => check.status(),
            Reply::Compared(compared) => compared.status(),
            Reply::Policy(policies) => policies.status(),
            Reply::Stacks(_) | Reply::Released(_) | Reply::Paths(_) => Status::Success,
            Reply::Outcomes(_) | Reply::Graph(_) | Reply::Needs(_) => Status::Success,
            Reply::Explained(_) | Reply::Explanations | Reply::Facts | Reply::Version =>
                Status::Success,
        }
    }
}

fn status_of_decision(decision: Decision) -> Status
    ensures { result ≡ status_of_decision decision }
{
    if decision.code().number() == 0 {
        Status::Success
    } else {
        Status::Refusal
    }
}

fn status_of_access(answer: AccessAnswer) -> Status
    ensures { result ≡ access_status answer }
{
    match answer {
        AccessAnswer::Granted(_) => Status::Success,
        AccessAnswer::Denied(_) => Status::Refusal,
    }
}

fn status_of_time(answer: TimeAnswer) -> Status
    ensures { result ≡ time_status answer }
{
    match answer {
        TimeAnswer::Granted => Status::Success,
        TimeAnswer::Denied(_) => Status::Refusal,
    }
}
