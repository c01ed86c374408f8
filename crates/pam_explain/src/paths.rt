//! Faults of cursors and moments.

ghost use Rattle.std.specs.Prelude.{◌≡◌};
ghost use Rattle.std.specs.List.{slice_get};
ghost use Rattle.std.specs.Option.{option_map};
ghost use Rattle.pam_explain.specs.Paths.{of_paths};
ghost use Rattle.pam_explain.specs.Views.{explanation_view};

use crate::explanation::{Explanation, Level};
use crate::shared::{FAULT_OF_WORDS, OWN_CURSOR, TAKE_CURSOR};

pub const CURSOR_SYNTAX: Explanation = Explanation {
    number: "C1",
    name: "Syntax",
    level: Level::Error,
    meaning: concat!(
        "The word after --after or --before is not a cursor: numbers from 0 to 30\n",
        "joined by dots, without leading zeros, or - for none."
    ),
    example: concat!(
        "# login\n",
        "auth required pam_unix.so\n",
        "$ pamcheck paths login auth --dir . --after 1,2"
    ),
    linux_pam: OWN_CURSOR,
    mending: "copy the cursor from the last line of a page.",
};

pub const NOT_LEAST: Explanation = Explanation {
    number: "C2",
    name: "NotLeast",
    level: Level::Error,
    meaning: concat!(
        "A number of the cursor is not the least of its class: all answers that lead on\n",
        "alike are one path, which has the number of the least of them. The cursor was\n",
        "written by hand, or the stack is not the one that it came from."
    ),
    example: concat!(
        "# login\n",
        "auth optional pam_unix.so\n",
        "$ pamcheck paths login auth --dir . --after 3"
    ),
    linux_pam: OWN_CURSOR,
    mending: TAKE_CURSOR,
};

pub const TOO_SHORT: Explanation = Explanation {
    number: "C3",
    name: "TooShort",
    level: Level::Error,
    meaning: concat!(
        "The cursor ends while a module is still asked. It was cut, or the stack has\n",
        "more modules than the one that it came from."
    ),
    example: concat!(
        "# login\n",
        "auth required pam_unix.so\n",
        "auth required pam_unix.so\n",
        "$ pamcheck paths login auth --dir . --after 0"
    ),
    linux_pam: OWN_CURSOR,
    mending: TAKE_CURSOR,
};

pub const TOO_LONG: Explanation = Explanation {
    number: "C4",
    name: "TooLong",
    level: Level::Error,
    meaning: concat!(
        "The run ends before the cursor does. The stack has fewer modules than the one\n",
        "that the cursor came from."
    ),
    example: concat!(
        "# login\n",
        "auth required pam_unix.so\n",
        "$ pamcheck paths login auth --dir . --after 0.0"
    ),
    linux_pam: OWN_CURSOR,
    mending: TAKE_CURSOR,
};

pub const MOMENT_RANGE: Explanation = Explanation {
    number: "M1",
    name: "Range",
    level: Level::Error,
    meaning: concat!(
        "The seconds of --at-unix are past 9999-12-30T22:00:00Z, the last instant of\n",
        "which every clock can show a date."
    ),
    example: concat!(
        "$ echo 'login;*;*;Al0800-1800' >time.conf\n",
        "$ pamcheck time login --time time.conf --user alice --at-unix 253402207201"
    ),
    linux_pam: FAULT_OF_WORDS,
    mending: concat!(
        "count the seconds since 1970-01-01 00:00 UTC. A time in\n",
        "milliseconds has three digits too many."
    ),
};

pub const ZONE_RULE: Explanation = Explanation {
    number: "M2",
    name: "Rule",
    level: Level::Error,
    meaning: concat!(
        "The text of --zone is not a POSIX rule for a time zone: a name alone, such as\n",
        "CET, does not say how far it is from UTC."
    ),
    example: concat!(
        "$ echo 'login;*;*;Al0800-1800' >time.conf\n",
        "$ pamcheck time login --time time.conf --user alice --at-unix 0 --zone CET"
    ),
    linux_pam: FAULT_OF_WORDS,
    mending: concat!(
        "write a rule such as CET-1CEST,M3.5.0,M10.5.0/3. The last line of\n",
        "a file in /usr/share/zoneinfo is one."
    ),
};

pub const MOMENT_SYNTAX: Explanation = Explanation {
    number: "M4",
    name: "Syntax",
    level: Level::Error,
    meaning: "The text of --at is not a date and a time that exist, as in 2024-05-11T07:59.",
    example: concat!(
        "$ echo 'login;*;*;Al0800-1800' >time.conf\n",
        "$ pamcheck time login --time time.conf --user alice --at 2024-02-30T07:59"
    ),
    linux_pam: FAULT_OF_WORDS,
    mending: "write YYYY-MM-DDTHH:MM, or the same with :SS.",
};

/// Returns the explanation at this index, or `None` past the last one. They are in the order of their numbers.
pub(crate) fn of_paths(row: usize) -> Option<&'static Explanation>
    ensures { option_map (λ e. explanation_view e.now) result ≡ slice_get of_paths row }
{
    Some(match row {
        0 => &CURSOR_SYNTAX,
        1 => &NOT_LEAST,
        2 => &TOO_SHORT,
        3 => &TOO_LONG,
        4 => &MOMENT_RANGE,
        5 => &ZONE_RULE,
        6 => &MOMENT_SYNTAX,
        _ => return None,
    })
}
