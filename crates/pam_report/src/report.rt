//! Replies to requests: each is computed, and nothing is written.

ghost use Rattle.std.specs.Prelude.{◌≡◌, ◌≤◌, is_some, map, unwrap_or};
ghost use Rattle.pam_report.specs.Answer.{AnswersBy, Replies};
ghost use Rattle.pam_report.specs.Finds.{Finds};
ghost use Rattle.pam_report.specs.Inputs.{files_given, no_files};
ghost use Rattle.pam_report.specs.Memory.{WantsOnly, wants};
ghost use Rattle.pam_report.specs.Moments.{IsGivenMoment};
ghost use Rattle.pam_report.specs.Reply.{status_number};
ghost use Rattle.pam_words.specs.Wanted.{candidate_view};
ghost use Rattle.pam_report.specs.inner.Tasks.{IsAboutRuns, IsAboutService};

mod accepting;
mod access;
mod check;
mod compare;
mod compared_keys;
mod decide;
mod explain;
mod goal_pages;
mod graph;
mod host_sources;
mod known_stack;
mod login;
mod needs;
mod outcomes;
mod paths;
mod policy;
mod released;
mod renderer;
mod replies;
mod settings;
mod show;
mod table_keys;
mod time;
mod trace;
mod unused;

use crate::fault::Fault;
use crate::inputs::Inputs;
use access::answer_access;
pub use check::CheckReply;
use check::{CheckRequest, checked};
pub use compare::CompareReply;
use compare::{CompareRequest, compared};
pub(crate) use compared_keys::names_module;
pub use decide::RunReply;
use decide::decided;
use explain::explained;
pub use graph::{GraphReply, MAX_PICTURE_NODES};
use graph::{DrawingRequest, answer_graph};
use known_stack::{Sources, StackRequest};
pub use needs::NeedsReply;
use needs::answer_needs;
use outcomes::answer_outcomes;
pub use outcomes::{Outcome, Outcomes, OutcomesReply};
use pam_conf::{Files, Form, Kind};
use pam_words::{KnowledgeSource, Request, Task};
pub use paths::PathsPage;
use paths::{PageRequest, answer_paths};
pub use policy::{JudgedPolicy, PolicyReply, policy_level, policy_name, policy_number, policy_row};
use policy::{PolicyRequest, answer_policy};
pub use released::ReleasedReply;
pub use renderer::PageRenderer;
pub use replies::{AccessReply, Reply};
pub(crate) use settings::names_one;
pub use show::StackReply;
use show::{ShowRequest, shown_by};
use std::alloc::Global;
use time::{answer_time, given_moment, moment_of};
pub use trace::{AskedModule, Trace, path_at};
pub use unused::{UnusedLine, unused_row};

/// How a request was answered, which gives the exit status.
#[derive(Clone, Copy, Debug, PartialEq, Eq)]
pub enum Status {
    /// Answered. A decision is `success` or granted.
    Success,
    /// Answered with another decision, denied, or with something that is found.
    Refusal,
    /// Answered, but a stack of it has a fault.
    Faulty,
}

impl Status {
    /// Returns the exit status: 0, 1 or 3.
    pub fn number(self) -> u8
        ensures status { result ≡ status_number self }
        ensures bound { result ≤ 6 }
    {
        match self {
            Status::Success => 0,
            Status::Refusal => 1,
            Status::Faulty => 3,
        }
    }
}

/// Returns the reply to a request, or its first fault. A fault of the cursor of `paths` comes later: see `PathsPage::render`.
///
/// Inputs of another command have no files and no tables that this one uses; see `Inputs::fits`.
pub fn reply_to<'a>(
    alloc: Global,
    request: &Request<'a>,
    inputs: &'a Inputs,
) -> Result<Reply<'a>, Fault>
    ensures { Replies result request.now.service.now (map candidate_view request.now.candidates.items) request.now.task inputs.now }
{
    match inputs.files() {
        Some(files) => reply_from(alloc, request, files, inputs),
        None => reply_from(alloc, request, &Files::new(alloc, Form::Dir), inputs),
    }
}

fn stack_request<'a>(
    service: &'a str,
    kind: Kind,
    knowledge: &KnowledgeSource<'a>,
) -> StackRequest<'a>
    ensures service { result.service.now ≡ service.now }
    ensures kind { result.kind ≡ kind }
    ensures login { result.login ≡ knowledge.now.login }
{
    StackRequest {
        service,
        kind,
        login: knowledge.login,
    }
}

/// What the runs of a stack are found from.
fn sources_of<'x, 's>(
    alloc: Global,
    files: &'x Files,
    inputs: &'x Inputs,
    knowledge: &'x KnowledgeSource<'s>,
) -> Sources<'x, 's>
    ensures files { result.files.now ≡ files.now }
    ensures inputs { result.inputs.now ≡ inputs.now }
    ensures answers { result.answers ≡ knowledge.now.answers }
    ensures settings { result.settings.now ≡ knowledge.now.settings.items }
    ensures moment { IsGivenMoment knowledge.now.moment result.moment }
    ensures given { is_some result.moment ≡ is_some knowledge.now.moment }
{
    Sources {
        alloc,
        files,
        inputs,
        answers: knowledge.answers,
        settings: &knowledge.settings,
        moment: given_moment(knowledge.moment),
    }
}

/// Returns the reply to a request about the runs of a stack: what they come to, by which paths, or a drawing of them.
#[tactic(auto, unfolding(crate::specs::Answer::AnswersBy))]
fn reply_about_runs<'a>(
    alloc: Global,
    request: &Request<'a>,
    files: &Files,
    inputs: &'a Inputs,
) -> Result<Reply<'a>, Fault>
    requires { IsAboutRuns request.now.task }
    ensures answer { AnswersBy (Finds result) request.now.service.now (map candidate_view request.now.candidates.items) request.now.task files.now inputs.now }
    ensures wants { WantsOnly (wants request.now.task inputs.now) result }
{
    let service = request.service;
    match &request.task {
        Task::Paths {
            kind,
            limit,
            part,
            filter,
            knowledge,
            ..
        } => {
            let page = PageRequest {
                stack: stack_request(service, *kind, knowledge),
                limit: *limit,
                part: *part,
                filter: *filter,
            };
            answer_paths(&sources_of(alloc, files, inputs, knowledge), &page)
        }
        Task::Outcomes {
            kind,
            knowledge,
            ..
        } => {
            let stack = stack_request(service, *kind, knowledge);
            answer_outcomes(&sources_of(alloc, files, inputs, knowledge), &stack)
        }
        Task::Graph {
            kind,
            format,
            knowledge,
            ..
        } => {
            let drawing = DrawingRequest {
                stack: stack_request(service, *kind, knowledge),
                format: *format,
            };
            answer_graph(&sources_of(alloc, files, inputs, knowledge), &drawing)
        }
        _ => unreachable!(),
    }
}

/// Returns the reply to a request about a service: its stack, one run of it, the rules that hold of it, or what a table says of a login.
#[tactic(auto, unfolding(crate::specs::Answer::AnswersBy))]
fn reply_about_service<'a>(
    alloc: Global,
    request: &Request<'a>,
    files: &Files,
    inputs: &'a Inputs,
) -> Result<Reply<'a>, Fault>
    requires files { unwrap_or (files_given inputs.now) no_files ≡ files.now }
    requires task { IsAboutService request.now.task }
    ensures answer { AnswersBy (Finds result) request.now.service.now (map candidate_view request.now.candidates.items) request.now.task files.now inputs.now }
    ensures wants { WantsOnly (wants request.now.task inputs.now) result }
{
    let service = request.service;
    match &request.task {
        Task::Show { kind, release, .. } => {
            let asked = ShowRequest {
                service,
                kind: *kind,
                release: *release,
            };
            shown_by(alloc, asked, files, inputs.files())
        }
        Task::Decide { kind, codes, .. } => decided(alloc, service, *kind, codes, files),
        Task::Access {
            tables,
            login,
            arguments,
            ..
        } => answer_access(alloc, service, *login, arguments, tables, inputs),
        Task::Time { login, moment, .. } => {
            let moment = moment_of(*moment);
            answer_time(alloc, service, *login, moment, inputs)
        }
        Task::Needs {
            kind,
            knowledge,
            ..
        } => {
            let stack = stack_request(service, *kind, knowledge);
            answer_needs(&sources_of(alloc, files, inputs, knowledge), &stack)
        }
        _ => reply_about_runs(alloc, request, files, inputs),
    }
}

/// Returns the reply to a request from these files, which are those of `inputs` or none, and the tables of `inputs`.
#[tactic(auto, unfolding(crate::specs::Answer::AnswersBy))]
fn reply_from<'a>(
    alloc: Global,
    request: &Request<'a>,
    files: &Files,
    inputs: &'a Inputs,
) -> Result<Reply<'a>, Fault>
    requires { unwrap_or (files_given inputs.now) no_files ≡ files.now }
    ensures answer { AnswersBy (Finds result) request.now.service.now (map candidate_view request.now.candidates.items) request.now.task files.now inputs.now }
    ensures wants { WantsOnly (wants request.now.task inputs.now) result }
{
    match &request.task {
        Task::Check {
            services,
            fail_on,
            given,
            ..
        } => {
            let asked = CheckRequest {
                services,
                candidates: &request.candidates,
                fail_on: *fail_on,
                given,
            };
            checked(alloc, asked, files, inputs)
        }
        Task::Compare {
            service,
            kind,
            given,
            ..
        } => {
            let asked = CompareRequest {
                service: *service,
                kind: *kind,
                settings: &given.settings,
            };
            compared(alloc, asked, inputs)
        }
        Task::Policy {
            policies,
            fail_on,
            knowledge,
            ..
        } => answer_policy(&PolicyRequest {
            alloc,
            files,
            kept: inputs.files(),
            inputs,
            candidates: &request.candidates,
            names: policies,
            fail_on: *fail_on,
            login: knowledge.login,
            settings: &knowledge.settings,
            moment: given_moment(knowledge.moment),
        }),
        Task::Explain(number) => explained(*number),
        Task::Facts => Ok(Reply::Facts),
        Task::Version => Ok(Reply::Version),
        _ => reply_about_service(alloc, request, files, inputs),
    }
}
