//! Faults of tables.

ghost use Rattle.std.specs.Prelude.{◌≡◌};
ghost use Rattle.std.specs.List.{slice_get};
ghost use Rattle.std.specs.Option.{option_map};
ghost use Rattle.pam_explain.specs.Tables.{of_tables};
ghost use Rattle.pam_explain.specs.Views.{explanation_view};

use crate::explanation::{Explanation, Level};
use crate::shared::{FAULT_OF_RUN, FREE_MEMORY, RESTORE_FILE};

pub const MISSING_FIELD: Explanation = Explanation {
    number: "TE1",
    name: "MissingField",
    level: Level::Error,
    meaning: concat!(
        "A line of a table has too few fields, or an empty one:\n",
        "permission:users:origins in an access table, services;ttys;users;times in a\n",
        "time table, a module and its codes in a returns file. Or a rule of a policy\n",
        "ends where a word is needed."
    ),
    example: concat!(
        "# access.conf\n",
        "-:ALL\n",
        "$ pamcheck access login --access access.conf --user alice"
    ),
    linux_pam: "access.conf(5) wants three fields in each line, and time.conf(5)\nfour.",
    mending: concat!(
        "write the field that is missing. ALL, or * in a time table, stands\n",
        "for everything."
    ),
};

pub const BAD_PERMISSION: Explanation = Explanation {
    number: "TE2",
    name: "BadPermission",
    level: Level::Error,
    meaning: concat!(
        "A line of an access table begins neither with + nor with -, so it neither lets\n",
        "in nor keeps out."
    ),
    example: concat!(
        "# access.conf\n",
        "deny:ALL:ALL\n",
        "$ pamcheck access login --access access.conf --user alice"
    ),
    linux_pam: "access.conf(5) knows + for access granted and - for access denied.",
    mending: "write + or - before the first colon.",
};

pub const NETGROUP: Explanation = Explanation {
    number: "TE3",
    name: "Netgroup",
    level: Level::Note,
    meaning: concat!(
        "A table names a netgroup, a word that begins with @. Who is in it stands in no\n",
        "file of the tables, so pamcheck does not judge such a line."
    ),
    example: concat!(
        "# access.conf\n",
        "+:@admins:ALL\n",
        "-:ALL:ALL\n",
        "$ pamcheck access login --access access.conf --user alice"
    ),
    linux_pam: "it knows netgroups, where the system has them: access.conf(5).",
    mending: concat!(
        "nothing is wrong on the host. To check the rest, try a copy of the\n",
        "table in which a group or users stand in place of the netgroup."
    ),
};

pub const USER_AT_HOST: Explanation = Explanation {
    number: "TE4",
    name: "UserAtHost",
    level: Level::Note,
    meaning: concat!(
        "An access table has a user of the form user@host, which pamcheck does not\n",
        "judge."
    ),
    example: concat!(
        "# access.conf\n",
        "-:alice@web:ALL\n",
        "$ pamcheck access login --access access.conf --user alice"
    ),
    linux_pam: "it knows this form.",
    mending: concat!(
        "nothing is wrong on the host. To check the rest, try a copy of the\n",
        "table with the user alone."
    ),
};

pub const BAD_MASK: Explanation = Explanation {
    number: "TE5",
    name: "BadMask",
    level: Level::Error,
    meaning: concat!(
        "In an access table, what stands after an address and / is no mask: a number of\n",
        "bits up to 32, or 128 for IPv6, or an address of the same family."
    ),
    example: concat!(
        "# access.conf\n",
        "-:ALL:10.0.0.0/33\n",
        "$ pamcheck access login --access access.conf --user alice"
    ),
    linux_pam: "access.conf(5) takes a decimal number or an address as the mask.",
    mending: "correct the mask, as in 10.0.0.0/8 or 10.0.0.0/255.0.0.0.",
};

pub const BAD_TIMES: Explanation = Explanation {
    number: "TE6",
    name: "BadTimes",
    level: Level::Error,
    meaning: concat!(
        "In a time table, a word of the times is not days and a range, such as\n",
        "MoTu0800-1800."
    ),
    example: concat!(
        "# time.conf\n",
        "login;*;*;Al0800-2500\n",
        "$ pamcheck time login --time time.conf --user alice --at 2024-05-06T07:59"
    ),
    linux_pam: "time.conf(5) says that badly formatted rules are logged as errors.",
    mending: concat!(
        "write days (Mo Tu We Th Fr Sa Su, Wk, Wd or Al), and two times of\n",
        "four digits joined by -, the latest of which is 2400."
    ),
};

pub const TWO_WILDCARDS: Explanation = Explanation {
    number: "TE7",
    name: "TwoWildcards",
    level: Level::Error,
    meaning: "In a time table, a word has more than one *.",
    example: concat!(
        "# time.conf\n",
        "login;*;*min*;Al0800-1800\n",
        "$ pamcheck time login --time time.conf --user alice --at 2024-05-06T07:59"
    ),
    linux_pam: "time.conf(5) allows one * in a word.",
    mending: "write the names out, joined by |.",
};

pub const BAD_LOGIC: Explanation = Explanation {
    number: "TE8",
    name: "BadLogic",
    level: Level::Error,
    meaning: concat!(
        "A field of a time table is not a list of words joined by & and |, each with at\n",
        "most one ! before it."
    ),
    example: concat!(
        "# time.conf\n",
        "login;*;alice bob;Al0800-1800\n",
        "$ pamcheck time login --time time.conf --user alice --at 2024-05-06T07:59"
    ),
    linux_pam: "time.conf(5) wants these signs between words.",
    mending: "write | for or, and & for and.",
};

pub const BAD_GROUP: Explanation = Explanation {
    number: "TE9",
    name: "BadGroup",
    level: Level::Error,
    meaning: concat!(
        "A line of the group file does not have four fields joined by colons, or its\n",
        "name is empty."
    ),
    example: concat!(
        "$ echo 'wheel:x:10' >group\n",
        "$ echo '+:(wheel):ALL' >access.conf\n",
        "$ pamcheck access login --access access.conf --group group --user alice"
    ),
    linux_pam: "group(5) wants group_name:password:GID:user_list in each line.",
    mending: concat!(
        "write the fields that are missing. The last one may be empty, as\n",
        "in wheel:x:10: for no members."
    ),
};

pub const NUL_BYTE: Explanation = Explanation {
    number: "TE10",
    name: "NulByte",
    level: Level::Error,
    meaning: concat!(
        "A table or a policy has a NUL byte, so it is no text: it was damaged, or is\n",
        "something else."
    ),
    example: concat!(
        "$ printf '+:ALL:ALL\\0\\n' >access.conf\n",
        "$ pamcheck access login --access access.conf --user alice"
    ),
    linux_pam: concat!(
        "access.conf(5), time.conf(5) and group(5) say nothing of such\n",
        "files."
    ),
    mending: RESTORE_FILE,
};

pub const MEMORY: Explanation = Explanation {
    number: "TE11",
    name: "Memory",
    level: Level::Error,
    meaning: concat!(
        "The system gave no memory while a table was read. This says nothing of the\n",
        "table."
    ),
    example: "",
    linux_pam: FAULT_OF_RUN,
    mending: FREE_MEMORY,
};

pub const TABLE_TOO_LONG: Explanation = Explanation {
    number: "TE12",
    name: "TableTooLong",
    level: Level::Error,
    meaning: "A table or a policy has more than 1,048,576 bytes, and is not read.",
    example: concat!(
        "$ yes '# comment' | head -c 1048577 >access.conf\n",
        "$ pamcheck access login --access access.conf --user alice"
    ),
    linux_pam: "the manual pages name no limit. This one is pamcheck's.",
    mending: concat!(
        "shorten the table, for example by groups in place of users; or\n",
        "write two policies."
    ),
};

/// Returns the explanation at this index, or `None` past the last one. They are in the order of their numbers.
pub(crate) fn of_tables(row: usize) -> Option<&'static Explanation>
    ensures { option_map (λ e. explanation_view e.now) result ≡ slice_get of_tables row }
{
    Some(match row {
        0 => &MISSING_FIELD,
        1 => &BAD_PERMISSION,
        2 => &NETGROUP,
        3 => &USER_AT_HOST,
        4 => &BAD_MASK,
        5 => &BAD_TIMES,
        6 => &TWO_WILDCARDS,
        7 => &BAD_LOGIC,
        8 => &BAD_GROUP,
        9 => &NUL_BYTE,
        10 => &MEMORY,
        11 => &TABLE_TOO_LONG,
        _ => return None,
    })
}
