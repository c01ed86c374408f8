//! The row of what is wrong with a host: its number, its name, its level, and what it means.

ghost use Rattle.std.specs.Prelude.{◌≡◌};
ghost use Rattle.pam_explain.specs.Views.{explanation_view};
ghost use Rattle.pam_findings.specs.host.Rows.{row_of, row_of_argument, row_of_control, row_of_difference, row_of_fault};

use crate::host::problem::{ArgumentProblem, Problem};
use pam_codes::ControlError;
use pam_conf::FaultKind;
use pam_explain::{
    Explanation, arguments, hosts, links, modules, old_tables, released, rules, stacks,
};
use pam_released::Difference;

fn row_of_control(error: ControlError) -> &'static Explanation
    ensures { explanation_view result.now ≡ row_of_control error }
{
    match error {
        ControlError::BadControl => &rules::BAD_CONTROL,
        ControlError::BadValue => &rules::BAD_VALUE,
        ControlError::BadAction => &rules::BAD_ACTION,
        ControlError::ZeroJump => &rules::ZERO_JUMP,
        ControlError::OpenBracket => &rules::OPEN_BRACKET,
    }
}

fn row_of_fault(fault: FaultKind) -> &'static Explanation
    ensures { explanation_view result.now ≡ row_of_fault fault }
{
    match fault {
        FaultKind::NulByte => &rules::NUL_BYTE,
        FaultKind::MissingField => &rules::MISSING_FIELD,
        FaultKind::BadKind => &rules::BAD_KIND,
        FaultKind::Control(error) => row_of_control(error),
        FaultKind::MissingTarget => &stacks::MISSING_TARGET,
        FaultKind::BadTarget => &stacks::BAD_TARGET,
        FaultKind::Cycle => &stacks::CYCLE,
        FaultKind::TooDeep => &stacks::TOO_DEEP,
        FaultKind::TooManyModules => &stacks::TOO_MANY_MODULES,
        FaultKind::IncludeInSingleFile => &stacks::INCLUDE_IN_SINGLE_FILE,
        FaultKind::NoService => &stacks::NO_SERVICE,
        FaultKind::FileTooLong => &stacks::FILE_TOO_LONG,
        FaultKind::Memory => &stacks::MEMORY,
        FaultKind::TooManyFollowed => &stacks::TOO_MANY_FOLLOWED,
    }
}

fn row_of_difference(difference: Difference) -> &'static Explanation
    ensures { explanation_view result.now ≡ row_of_difference difference }
{
    match difference {
        Difference::CarriageReturn => &released::CARRIAGE_RETURN,
        Difference::ContinuedOverBlank => &released::CONTINUED_OVER_BLANK,
        Difference::BackslashBlank => &released::BACKSLASH_BLANK,
        Difference::BackslashComment => &released::BACKSLASH_COMMENT,
        Difference::EndsInContinuation => &released::ENDS_IN_CONTINUATION,
        Difference::CapitalInBrackets => &released::CAPITAL_IN_BRACKETS,
        Difference::LongLine => &released::LONG_LINE,
        Difference::EmptyModuleName => &released::EMPTY_MODULE_NAME,
        Difference::DroppedBlank => &released::DROPPED_BLANK,
    }
}

fn row_of_argument(wrong: ArgumentProblem) -> &'static Explanation
    ensures { explanation_view result.now ≡ row_of_argument wrong }
{
    match wrong {
        ArgumentProblem::Unknown(_) => &arguments::UNKNOWN_ARGUMENT,
        ArgumentProblem::Longer => &arguments::LONGER_WORD,
        ArgumentProblem::OtherKind => &arguments::ARGUMENT_OF_OTHER_KIND,
        ArgumentProblem::BadValue => &arguments::BAD_VALUE,
        ArgumentProblem::NoToken => &arguments::NO_TOKEN,
        ArgumentProblem::Weak => &arguments::WEAK_HASH,
        ArgumentProblem::MissingFile(_) => &arguments::MISSING_FILE,
    }
}

impl Problem {
    /// The row of the problem, as `explain` prints it.
    pub fn row(self) -> &'static Explanation
        ensures { explanation_view result.now ≡ row_of self }
    {
        match self {
            Problem::Fault(fault) | Problem::Walk(fault) => row_of_fault(fault),
            Problem::Released(difference) => row_of_difference(difference),
            Problem::IncludedFromVendor { .. } => &released::INCLUDED_FROM_VENDOR,
            Problem::EmptySeparator => &old_tables::EMPTY_SEPARATOR,
            Problem::LetsNobodyIn { .. } => &hosts::LETS_NOBODY_IN,
            Problem::LetsAnybodyIn { .. } => &hosts::LETS_ANYBODY_IN,
            Problem::NeverAsked => &hosts::NEVER_ASKED,
            Problem::JumpPastEnd => &hosts::JUMP_PAST_END,
            Problem::NoModule { .. } => &hosts::NO_MODULE,
            Problem::NoOther => &hosts::NO_OTHER,
            Problem::UnreachableName => &hosts::UNREACHABLE_NAME,
            Problem::TooLarge { .. } => &hosts::TOO_LARGE,
            Problem::OtherAnswers { .. } => &hosts::OTHER_ANSWERS,
            Problem::LeftOver => &hosts::LEFT_OVER,
            Problem::JumpIntoInclude => &hosts::JUMP_INTO_INCLUDE,
            Problem::NoFunction => &hosts::NO_FUNCTION,
            Problem::CallerIsRoot { .. } => &hosts::CALLER_IS_ROOT,
            Problem::Argument { wrong, .. } => row_of_argument(wrong),
            Problem::BadArguments(_) => &arguments::BAD_ARGUMENTS,
            Problem::StoredThoughRefused { .. } => &arguments::STORED_THOUGH_REFUSED,
            Problem::NotCounted { .. } | Problem::NoFailureCounted => &arguments::NOT_COUNTED,
            Problem::UnknownModule => &modules::UNKNOWN_MODULE,
            Problem::SuccessNeverCounts => &modules::SUCCESS_NEVER_COUNTS,
            Problem::LinkOutside => &links::LINK_OUTSIDE,
        }
    }

    /// The number, as `S2`.
    pub fn number(self) -> &'static str
        ensures { result.now ≡ (row_of self).number }
    {
        self.row().number
    }

    /// The name, as `LetsAnybodyIn`.
    pub fn name(self) -> &'static str
        ensures { result.now ≡ (row_of self).name }
    {
        self.row().name
    }
}
