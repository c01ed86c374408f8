//! What can be wrong with a host, and where.

ghost use Rattle.std.specs.Prelude.{◌≡◌, ◌≤◌};
ghost use Rattle.pam_findings.specs.host.Problems.{kind_of, number_of_answer, number_of_anybody, number_of_kind, number_of_lack, number_of_nobody};
ghost use Rattle.pam_findings.specs.host.Problems.{number_of_reaction, number_of_refuser, place_of, rank_of};
ghost use Rattle.pam_findings.specs.host.Problems.{rank_of_argument, rank_of_control, rank_of_fault, reaction_of, service_of};

use crate::host::missing_files::Absence;
use crate::host::refusing::Refuser;
use pam_codes::ControlError;
use pam_conf::{FaultKind, Kind};
use pam_facts::arguments::{Lack, Reaction};
use pam_released::Difference;

/// What is wrong with an argument of a rule.
#[derive(Clone, Copy, Debug, PartialEq, Eq)]
pub enum ArgumentProblem {
    /// S15: the module does not know it.
    Unknown(Reaction),
    /// S16: the module takes it for another one, since it begins so.
    Longer,
    /// S17: the module knows it, but not in this kind.
    OtherKind,
    /// S18: the module does not take its value.
    BadValue,
    /// S20: by it the module takes only a password that a module before it asked for, and none does in any run.
    NoToken,
    /// S23: with it the module stores passwords by a hash that is broken.
    Weak,
    /// S24: it names a file that is not there, and this is what the module does without it.
    MissingFile(Absence),
}

/// What is wrong.
#[derive(Clone, Copy, Debug, PartialEq, Eq)]
pub enum Problem {
    /// E1 to E18: a fault of a line of a file, or of the file as a whole.
    Fault(FaultKind),
    /// E1 to E18: a fault of the walk from a service over its includes, at the line that is followed.
    Walk(FaultKind),
    /// L1 to L9: released Linux-PAM reads the line otherwise.
    Released(Difference),
    /// L10: a rule includes a file that only the vendor folder has, or has it as a substack.
    IncludedFromVendor {
        /// Whether the rule is an `@include`, which has no kind.
        is_at_include: bool,
    },
    /// A5: an argument `fieldsep=` or `listsep=` of pam_access has no value, which released Linux-PAM reads otherwise.
    EmptySeparator,
    /// S1: a stack with another module than `pam_deny.so` and `pam_warn.so`, which does not begin with a denial that fails it, never
    /// decides success. It is told at its cause.
    LetsNobodyIn {
        /// In pam.conf the position of the service in `HostReport::services`; in a folder `None`, as the file is its cause.
        service: Option<usize>,
        kind: Kind,
    },
    /// S2: an `auth` stack decides success although each module that checks who logs in fails. It is told at its cause.
    LetsAnybodyIn {
        /// In pam.conf the position of the service in `HostReport::services`; in a folder `None`, as the file is its cause.
        service: Option<usize>,
        /// Whether the services are those of greeters, which ask for their own users alone.
        is_greeter: bool,
    },
    /// S3: no answers ask a module, in any stack that its rule is in.
    NeverAsked,
    /// S4: a module jumps past the end of its list.
    JumpPastEnd,
    /// S5: a module is not there.
    NoModule {
        /// Whether the kind of the rule has a dash, which says that the module may not be there.
        is_dashed: bool,
    },
    /// S6: a folder has no `other`.
    NoOther,
    /// S7: the name of a file has a capital letter, but services are looked up in lowercase, and no rule includes the file.
    UnreachableName,
    /// S9: the graph of a stack has more nodes than the limit, so S1 to S4, S20 to S22 and S26 are not known for it.
    TooLarge {
        /// The position of the service in `HostReport::services`.
        service: usize,
        kind: Kind,
    },
    /// S10: `other` answers for one of auth and account for which the program asks, though the service has rules for the other one, or
    /// has a file without a rule.
    OtherAnswers {
        /// The position of the service in `HostReport::services`.
        service: usize,
        /// The kind for which `other` answers.
        kind: Kind,
        /// Whether the file of the service has no rule at all.
        has_no_rule: bool,
        /// Whether `other` is known to let nobody in.
        lets_nobody_in: bool,
    },
    /// S11: the name of a file is that of a copy which an editor or a package left.
    LeftOver,
    /// S12: a jump lands inside what an include brought in.
    JumpIntoInclude,
    /// S13: a module has no function in the kind of its rule.
    NoFunction,
    /// S14: a module of an `auth` stack looks at the user of the calling process, which is root where a daemon asks.
    CallerIsRoot {
        /// Whether the service is that of a daemon, which asks on behalf of whoever comes.
        is_daemon: bool,
    },
    /// S15 to S18, S20, S23, S24: an argument is not one that the module takes, or not one to be written.
    Argument {
        /// The position of the argument in the rule, from 0.
        argument: usize,
        wrong: ArgumentProblem,
    },
    /// S19: the arguments lack something as a whole, so the module cannot do what it is for.
    BadArguments(Lack),
    /// S21: in some run a module that checks new passwords fails, and this one then asks for another one itself, and stores it.
    StoredThoughRefused {
        by: Refuser,
    },
    /// S22: a rule of pam_faillock counts failures, or refuses who failed too often, and no run asks one that does the other.
    NotCounted {
        /// Whether the rule counts failures.
        counts: bool,
    },
    /// S22: a rule of pam_faillock counts failures, and is asked, but in no run after a module that says who logs in failed.
    NoFailureCounted,
    /// S25: nothing is known of a module of an `auth` stack, so it is taken for one that checks who logs in.
    UnknownModule,
    /// S26: the success of a module that says who logs in never makes an `auth` stack succeed, though others let somebody in.
    SuccessNeverCounts,
    /// S27: a file of a folder is a link that leads out of the folder.
    LinkOutside,
}

/// A problem at a line of a file.
#[derive(Clone, Copy, Debug, PartialEq, Eq)]
pub struct Spot {
    /// The position of the file in `Files`; `None` for the configuration as a whole.
    pub file: Option<usize>,
    /// From 1; 0 for the file as a whole.
    pub line: usize,
    pub problem: Problem,
}

/// The place of a problem. Places are in the order in which findings are listed.
#[derive(Clone, Copy, Debug, PartialEq, Eq, PartialOrd, Ord)]
pub struct Place {
    /// The position of the file in `Files`; `None` for the configuration as a whole.
    pub file: Option<usize>,
    /// From 1; 0 for the file as a whole.
    pub line: usize,
    /// Problems of one line are in the order of their ranks: faults of the line, those of walks, differences, and then the others.
    pub rank: u8,
    /// The service of a problem that names one, and the position of an argument; else 0.
    pub service: usize,
    /// The number of the kind of a problem that names one, which for S10 also tells why and how `other` answers, and for S1
    /// whether a service is named; for S2 the number of whether a service is named and whether it is a greeter; 1 for L10 of an
    /// `@include`, for S5 of a dashed rule, for S14 of a daemon and for S22 of a rule that counts, and 2 for one that counts
    /// after no failure; for S15 the number of what the module does, for S19 of what is lacking, and for S21 of the module that
    /// refuses; else 0.
    pub kind: u8,
}

/// The number after `E`, from 4 to 8.
fn rank_of_control(error: ControlError) -> u8
    ensures { result ≡ rank_of_control error }
{
    match error {
        ControlError::BadControl => 4,
        ControlError::BadValue => 5,
        ControlError::BadAction => 6,
        ControlError::ZeroJump => 7,
        ControlError::OpenBracket => 8,
    }
}

/// The number after `E`.
fn rank_of_fault(fault: FaultKind) -> u8
    ensures value { result ≡ rank_of_fault fault }
    ensures bound { result ≤ 18 }
{
    match fault {
        FaultKind::NulByte => 1,
        FaultKind::MissingField => 2,
        FaultKind::BadKind => 3,
        FaultKind::Control(error) => rank_of_control(error),
        FaultKind::MissingTarget => 9,
        FaultKind::BadTarget => 10,
        FaultKind::Cycle => 11,
        FaultKind::TooDeep => 12,
        FaultKind::TooManyModules => 13,
        FaultKind::IncludeInSingleFile => 14,
        FaultKind::NoService => 15,
        FaultKind::FileTooLong => 16,
        FaultKind::Memory => 17,
        FaultKind::TooManyFollowed => 18,
    }
}

pub(crate) fn number_of_kind(kind: Kind) -> u8
    ensures value { result ≡ number_of_kind kind }
    ensures bound { result ≤ 3 }
{
    match kind {
        Kind::Auth => 0,
        Kind::Account => 1,
        Kind::Password => 2,
        Kind::Session => 3,
    }
}

/// The number of a kind for which `other` answers, of why it does, and of whether it lets nobody in.
fn number_of_answer(kind: Kind, has_no_rule: bool, lets_nobody_in: bool) -> u8
    ensures { result ≡ number_of_answer kind has_no_rule lets_nobody_in }
{
    let reason = if has_no_rule { 2 } else { 0 };
    let outcome = if lets_nobody_in { 1 } else { 0 };
    4 * number_of_kind(kind) + reason + outcome
}

/// The number of a kind for which nobody is let in, and of whether a service is named.
fn number_of_nobody(service: Option<usize>, kind: Kind) -> u8
    ensures { result ≡ number_of_nobody service kind }
{
    let named = if service.is_some() { 4 } else { 0 };
    number_of_kind(kind) + named
}

/// The number of whether greeters let anybody in, and of whether a service is named.
fn number_of_anybody(service: Option<usize>, is_greeter: bool) -> u8
    ensures { result ≡ number_of_anybody service is_greeter }
{
    let greeter = if is_greeter { 1 } else { 0 };
    let named = if service.is_some() { 2 } else { 0 };
    greeter + named
}

fn number_of_reaction(reaction: Reaction) -> u8
    ensures { result ≡ number_of_reaction reaction }
{
    match reaction {
        Reaction::Ignores => 0,
        Reaction::Logs => 1,
        Reaction::Fails => 2,
    }
}

fn number_of_lack(lack: Lack) -> u8
    ensures { result ≡ number_of_lack lack }
{
    match lack {
        Lack::Program => 0,
        Lack::List => 1,
        Lack::Database => 2,
        Lack::UserType => 3,
        Lack::Condition => 4,
    }
}

fn number_of_refuser(by: Refuser) -> u8
    ensures { result ≡ number_of_refuser by }
{
    match by {
        Refuser::Cracklib => 0,
        Refuser::Passwdqc => 1,
        Refuser::Pwhistory => 2,
        Refuser::Pwquality => 3,
    }
}

/// What the module does, by its number, where it does not know an argument, or the file of one is not there; else 0.
fn reaction_of(wrong: ArgumentProblem) -> u8
    ensures { result ≡ reaction_of wrong }
{
    match wrong {
        ArgumentProblem::Unknown(reaction) => number_of_reaction(reaction),
        ArgumentProblem::MissingFile(absence) => absence.number(),
        ArgumentProblem::Longer
        | ArgumentProblem::OtherKind
        | ArgumentProblem::BadValue
        | ArgumentProblem::NoToken
        | ArgumentProblem::Weak => 0,
    }
}

fn rank_of_argument(wrong: ArgumentProblem) -> u8
    ensures { result ≡ rank_of_argument wrong }
{
    match wrong {
        ArgumentProblem::Unknown(_) => 75,
        ArgumentProblem::Longer => 76,
        ArgumentProblem::OtherKind => 77,
        ArgumentProblem::BadValue => 78,
        ArgumentProblem::NoToken => 80,
        ArgumentProblem::Weak => 83,
        ArgumentProblem::MissingFile(_) => 84,
    }
}

impl Problem {
    #[tactic(auto, using(crate::proofs::HostProofs::Places::number_small))]
    fn rank(self) -> u8
        ensures { result ≡ rank_of self }
    {
        match self {
            Problem::Fault(fault) => rank_of_fault(fault),
            Problem::Walk(fault) => 20 + rank_of_fault(fault),
            Problem::Released(difference) => 40 + difference.number(),
            Problem::IncludedFromVendor { .. } => 50,
            Problem::EmptySeparator => 55,
            Problem::LetsNobodyIn { .. } => 61,
            Problem::LetsAnybodyIn { .. } => 62,
            Problem::NeverAsked => 63,
            Problem::JumpPastEnd => 64,
            Problem::NoModule { .. } => 65,
            Problem::NoOther => 66,
            Problem::UnreachableName => 67,
            Problem::TooLarge { .. } => 69,
            Problem::OtherAnswers { .. } => 70,
            Problem::LeftOver => 71,
            Problem::JumpIntoInclude => 72,
            Problem::NoFunction => 73,
            Problem::CallerIsRoot { .. } => 74,
            Problem::Argument { wrong, .. } => rank_of_argument(wrong),
            Problem::BadArguments(_) => 79,
            Problem::StoredThoughRefused { .. } => 81,
            Problem::NotCounted { .. } | Problem::NoFailureCounted => 82,
            Problem::UnknownModule => 85,
            Problem::SuccessNeverCounts => 86,
            Problem::LinkOutside => 87,
        }
    }

    /// The fields `service` and `kind` of its place.
    fn service_and_kind(self) -> (usize, u8)
        ensures service { result.0 ≡ service_of self }
        ensures kind { result.1 ≡ kind_of self }
    {
        match self {
            Problem::LetsNobodyIn { service, kind } => {
                (service.unwrap_or(0), number_of_nobody(service, kind))
            }
            Problem::TooLarge { service, kind } => (service, number_of_kind(kind)),
            Problem::OtherAnswers {
                service,
                kind,
                has_no_rule,
                lets_nobody_in,
            } => (service, number_of_answer(kind, has_no_rule, lets_nobody_in)),
            Problem::LetsAnybodyIn {
                service,
                is_greeter,
            } => (service.unwrap_or(0), number_of_anybody(service, is_greeter)),
            Problem::IncludedFromVendor { is_at_include } => (0, u8::from(is_at_include)),
            Problem::NoModule { is_dashed } => (0, u8::from(is_dashed)),
            Problem::CallerIsRoot { is_daemon } => (0, u8::from(is_daemon)),
            Problem::Argument { argument, wrong } => (argument, reaction_of(wrong)),
            Problem::BadArguments(lack) => (0, number_of_lack(lack)),
            Problem::StoredThoughRefused { by } => (0, number_of_refuser(by)),
            Problem::NotCounted { counts } => (0, u8::from(counts)),
            Problem::NoFailureCounted => (0, 2),
            Problem::Fault(_)
            | Problem::Walk(_)
            | Problem::Released(_)
            | Problem::EmptySeparator
            | Problem::NeverAsked
            | Problem::JumpPastEnd
            | Problem::NoOther
            | Problem::UnreachableName
            | Problem::LeftOver
            | Problem::JumpIntoInclude
            | Problem::NoFunction
            | Problem::UnknownModule
            | Problem::SuccessNeverCounts
            | Problem::LinkOutside => (0, 0),
        }
    }
}

impl Spot {
    /// The place of the problem.
    #[tactic(auto, unfolding(crate::specs::host::Problems::place_of))]
    pub fn place(self) -> Place
        ensures { result ≡ place_of self }
    {
        let (service, kind) = self.problem.service_and_kind();
        Place {
            file: self.file,
            line: self.line,
            rank: self.problem.rank(),
            service,
            kind,
        }
    }
}
