//! Faults of what the words name: services, candidates, answers, and files that are read or written.

ghost use Rattle.std.specs.Prelude.{◌≡◌};
ghost use Rattle.std.specs.List.{slice_get};
ghost use Rattle.std.specs.Option.{option_map};
ghost use Rattle.pam_explain.specs.Named.{of_named};
ghost use Rattle.pam_explain.specs.Views.{explanation_view};

use crate::explanation::{Explanation, Level};
use crate::shared::{FAULT_OF_RUN, FAULT_OF_WORDS};

pub const NO_SUCH_SERVICE: Explanation = Explanation {
    number: "U18",
    name: "NoSuchService",
    level: Level::Error,
    meaning: concat!(
        "A SERVICE that check, outcomes, graph or needs was given is none of the\n",
        "source: no file of the folder has this name, or no rule of pam.conf has this\n",
        "service. For compare, neither side has it. Nothing is checked."
    ),
    example: concat!(
        "# sshd\n",
        "auth required pam_unix.so\n",
        "$ pamcheck check ssdh --dir ."
    ),
    linux_pam: concat!(
        "it answers any name that a program asks for: where no file or rule\n",
        "is of it, the rules of the service other decide."
    ),
    mending: concat!(
        "write the name of a service: that of its file, without its folder.\n",
        "check other checks the rules that answer for all that have none."
    ),
};

pub const UNUSED_CANDIDATE: Explanation = Explanation {
    number: "U19",
    name: "UnusedCandidate",
    level: Level::Error,
    meaning: concat!(
        "No service that check looks at reads the file of a candidate: not as its own\n",
        "file, not by an include, and not as the file of the service other. So the\n",
        "check would be the same without the candidate, and would say nothing of it."
    ),
    example: concat!(
        "# sshd\n",
        "auth required pam_unix.so\n",
        "$ pamcheck check sshd --dir . --with ssdh=sshd"
    ),
    linux_pam: concat!(
        "it reads the file of the service that a program asks for, the\n",
        "files that this one includes, and other. A file that none of them names\n",
        "changes nothing."
    ),
    mending: concat!(
        "write the name of the file that is to be replaced, or name a\n",
        "service that reads it. check without a SERVICE looks at all of them."
    ),
};

pub const ANSWERS_NAME: Explanation = Explanation {
    number: "U20",
    name: "AnswersName",
    level: Level::Error,
    meaning: "The word after --answers is neither any nor possible.",
    example: "$ pamcheck outcomes login auth --dir . --answers all",
    linux_pam: FAULT_OF_WORDS,
    mending: concat!(
        "write any, for all 31 codes of each module of which nothing else\n",
        "tells, or possible, for those that pamcheck facts and a facts file leave."
    ),
};

pub const FAILED_READ: Explanation = Explanation {
    number: "V1",
    name: "Read",
    level: Level::Error,
    meaning: concat!(
        "A file or folder cannot be read: it is not there, or may not be read. Where it\n",
        "is a file of the folder, check leaves out the services that take it in, says\n",
        "what it finds of the others, and has the status 5. Else nothing is said."
    ),
    example: "$ pamcheck check --dir no-such-folder",
    linux_pam: FAULT_OF_RUN,
    mending: "correct the name, or run pamcheck as a user who may read it.",
};

pub const FAILED_WRITE: Explanation = Explanation {
    number: "V2",
    name: "Write",
    level: Level::Error,
    meaning: concat!(
        "A write to standard output failed, as on a full disk. What was written by then\n",
        "is the beginning of the answer."
    ),
    example: concat!(
        "# login\n",
        "auth required pam_unix.so\n",
        "$ pamcheck show login auth --dir . >/dev/full"
    ),
    linux_pam: FAULT_OF_RUN,
    mending: "make room, and run pamcheck again.",
};

/// Returns the explanation at this index, or `None` past the last one. They are in the order of their numbers.
pub(crate) fn of_named(row: usize) -> Option<&'static Explanation>
    ensures { option_map (λ e. explanation_view e.now) result ≡ slice_get of_named row }
{
    Some(match row {
        0 => &NO_SUCH_SERVICE,
        1 => &UNUSED_CANDIDATE,
        2 => &ANSWERS_NAME,
        3 => &FAILED_READ,
        4 => &FAILED_WRITE,
        _ => return None,
    })
}
