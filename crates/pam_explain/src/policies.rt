//! Findings of `pamcheck policy`.

ghost use Rattle.std.specs.Prelude.{◌≡◌};
ghost use Rattle.std.specs.List.{slice_get};
ghost use Rattle.std.specs.Option.{option_map};
ghost use Rattle.pam_explain.specs.Policies.{of_policies};
ghost use Rattle.pam_explain.specs.Views.{explanation_view};

use crate::explanation::{Explanation, Level};
use crate::shared::OWN_POLICY;

pub const BROKEN: Explanation = Explanation {
    number: "P1",
    name: "Broken",
    level: Level::Error,
    meaning: concat!(
        "Some answers of the modules break a rule of a policy. The line shows the\n",
        "modules that are asked then, with their answers: no run that breaks it asks\n",
        "fewer."
    ),
    example: concat!(
        "# login\n",
        "auth sufficient pam_unix.so\n",
        "auth required pam_u2f.so\n",
        "# my.policy\n",
        "login auth needs pam_u2f\n",
        "$ pamcheck policy my.policy --dir ."
    ),
    linux_pam: concat!(
        "it decides so when its modules answer so. Whether they ever do is\n",
        "known only as far as facts, a returns file and --set say it."
    ),
    mending: concat!(
        "mend the stack; or if such a run is meant, let the rule say so, as\n",
        "in needs pam_u2f or pam_rootok. If a module never answers so, say it in a\n",
        "facts file."
    ),
};

pub const IMPOSSIBLE: Explanation = Explanation {
    number: "P2",
    name: "Impossible",
    level: Level::Error,
    meaning: "What a rule with can promises cannot be: no answers of the modules make it so.",
    example: concat!(
        "# login\n",
        "auth required pam_deny.so\n",
        "auth required pam_unix.so\n",
        "# my.policy\n",
        "login auth can succeed\n",
        "$ pamcheck policy my.policy --dir ."
    ),
    linux_pam: concat!(
        "it decides by the answers of the modules alone, and none lead\n",
        "there."
    ),
    mending: concat!(
        "mend the stack: outcomes shows what it can decide, and by which\n",
        "answers. Or correct the rule."
    ),
};

pub const NO_SERVICE_FITS: Explanation = Explanation {
    number: "P3",
    name: "NoService",
    level: Level::Error,
    meaning: concat!(
        "A rule of a policy names a service that the configuration does not have, or\n",
        "fits none of them. So it says nothing, or less than was meant."
    ),
    example: concat!(
        "# login\n",
        "auth required pam_unix.so\n",
        "# my.policy\n",
        "logn auth needs pam_unix\n",
        "$ pamcheck policy my.policy --dir ."
    ),
    linux_pam: OWN_POLICY,
    mending: concat!(
        "correct the name. For a service that only some hosts have, write a\n",
        "name with *, such as gdm*, which may fit nothing as long as another name fits."
    ),
};

pub const NO_MODULE_FITS: Explanation = Explanation {
    number: "P4",
    name: "NoModule",
    level: Level::Error,
    meaning: concat!(
        "A rule of a policy names a module that no rule of the configuration calls, and\n",
        "that is not known. A rule that forbids such a module would hold anywhere."
    ),
    example: concat!(
        "# login\n",
        "auth required pam_unix.so\n",
        "# my.policy\n",
        "login auth never asks pam_exek\n",
        "$ pamcheck policy my.policy --dir ."
    ),
    linux_pam: OWN_POLICY,
    mending: concat!(
        "correct the name. A module of your own becomes known by a line in\n",
        "a facts file, or by --modules with the folder in which it is."
    ),
};

pub const IDLE: Explanation = Explanation {
    number: "P5",
    name: "Idle",
    level: Level::Warning,
    meaning: concat!(
        "A rule of a policy holds, but only since nothing of which it speaks can\n",
        "happen: no module of its stacks can answer so, or none of them can end so."
    ),
    example: concat!(
        "# login\n",
        "auth required pam_unix.so\n",
        "# my.policy\n",
        "login auth obeys pam_faillock\n",
        "$ pamcheck policy my.policy --dir ."
    ),
    linux_pam: OWN_POLICY,
    mending: concat!(
        "if the module has to be there, say so by a rule with needs or with\n",
        "always asks; else leave the service or the rule out."
    ),
};

pub const NOT_KNOWN: Explanation = Explanation {
    number: "P6",
    name: "NotKnown",
    level: Level::Error,
    meaning: concat!(
        "A rule of a policy speaks of a stack that cannot be judged: it has a fault,\n",
        "which the line names, or its runs can be at too many places."
    ),
    example: concat!(
        "# login\n",
        "auth include base\n",
        "# my.policy\n",
        "login auth needs pam_unix\n",
        "$ pamcheck policy my.policy --dir ."
    ),
    linux_pam: concat!(
        "what it does with such a stack, explain tells of the number of the\n",
        "fault."
    ),
    mending: concat!(
        "mend the fault: show prints it too. Or leave the service out of\n",
        "the rule, as in *,!login."
    ),
};

pub const NO_ARGUMENT: Explanation = Explanation {
    number: "P7",
    name: "NoArgument",
    level: Level::Warning,
    meaning: concat!(
        "A rule of a policy asks for an argument that no rule of its module has, and\n",
        "some rule of the module has one that is spelled nearly so."
    ),
    example: concat!(
        "# login\n",
        "auth required pam_unix.so nullok\n",
        "# my.policy\n",
        "login auth never asks pam_unix[nulok]\n",
        "$ pamcheck policy my.policy --dir ."
    ),
    linux_pam: OWN_POLICY,
    mending: "correct the argument in the policy, or in the configuration.",
};

/// Returns the explanation at this index, or `None` past the last one. They are in the order of their numbers.
pub(crate) fn of_policies(row: usize) -> Option<&'static Explanation>
    ensures { option_map (λ e. explanation_view e.now) result ≡ slice_get of_policies row }
{
    Some(match row {
        0 => &BROKEN,
        1 => &IMPOSSIBLE,
        2 => &NO_SERVICE_FITS,
        3 => &NO_MODULE_FITS,
        4 => &IDLE,
        5 => &NOT_KNOWN,
        6 => &NO_ARGUMENT,
        _ => return None,
    })
}
