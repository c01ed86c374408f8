//! What released Linux-PAM reads otherwise in tables.

ghost use Rattle.std.specs.Prelude.{◌≡◌};
ghost use Rattle.std.specs.List.{slice_get};
ghost use Rattle.std.specs.Option.{option_map};
ghost use Rattle.pam_explain.specs.OldTables.{of_old_tables};
ghost use Rattle.pam_explain.specs.Views.{explanation_view};

use crate::explanation::{Explanation, Level};
use crate::shared::END_LINE;

pub const ZERO_MASK: Explanation = Explanation {
    number: "A1",
    name: "ZeroMask",
    level: Level::Warning,
    meaning: concat!(
        "An origin of an access table is an address, a slash and a mask of 0 bits,\n",
        "which stands for all addresses."
    ),
    example: concat!(
        "# pam.conf\n",
        "login account required pam_access.so\n",
        "# access.conf\n",
        "-:ALL:0.0.0.0/0\n",
        "$ pamcheck check --conf pam.conf --access access.conf"
    ),
    linux_pam: concat!(
        "1.5.2 and 1.7.0 take a mask of 0 for no mask, so the line is for\n",
        "this address alone. A line that was to keep out everybody keeps out nobody."
    ),
    mending: "write ALL, or the addresses.",
};

pub const NO_LINE_FEED_IN_ACCESS_TABLE: Explanation = Explanation {
    number: "A2",
    name: "NoLineFeed",
    level: Level::Warning,
    meaning: "The last line of an access table has a rule and no line feed.",
    example: concat!(
        "# pam.conf\n",
        "login account required pam_access.so\n",
        "$ printf '%s' '-:ALL:ALL' >access.conf\n",
        "$ pamcheck check --conf pam.conf --access access.conf"
    ),
    linux_pam: concat!(
        "1.5.2 and 1.7.0 skip it. A last line that keeps out all others\n",
        "then keeps out nobody."
    ),
    mending: END_LINE,
};

pub const LEADING_BLANK: Explanation = Explanation {
    number: "A3",
    name: "LeadingBlank",
    level: Level::Warning,
    meaning: "A line of an access table begins with a blank before its rule.",
    example: concat!(
        "# pam.conf\n",
        "login account required pam_access.so\n",
        "# access.conf\n",
        " -:ALL:ALL\n",
        "$ pamcheck check --conf pam.conf --access access.conf"
    ),
    linux_pam: concat!(
        "1.5.2 and 1.7.0 skip it, so a line that was to keep somebody\n",
        "out lets them in."
    ),
    mending: "remove the blanks before the rule.",
};

pub const BLANK_IN_TOKEN: Explanation = Explanation {
    number: "A4",
    name: "BlankInToken",
    level: Level::Warning,
    meaning: concat!(
        "With listsep= only its bytes separate the names of a list, and a name has a\n",
        "blank at an end. It is dropped here."
    ),
    example: concat!(
        "# pam.conf\n",
        "login account required pam_access.so listsep=,\n",
        "# access.conf\n",
        "-:bob , alice:ALL\n",
        "$ pamcheck check --conf pam.conf --access access.conf"
    ),
    linux_pam: concat!(
        "1.5.2 and 1.7.0 take the blank as a part of the name, which then is\n",
        "that of nobody: bob and alice are let in."
    ),
    mending: "remove the blanks around names, or write them into listsep=.",
};

pub const EMPTY_SEPARATOR: Explanation = Explanation {
    number: "A5",
    name: "EmptySeparator",
    level: Level::Warning,
    meaning: concat!(
        "A rule with pam_access has an argument fieldsep= or listsep= without a value.\n",
        "pamcheck then uses the default ones."
    ),
    example: concat!("# login\n", "account required pam_access.so listsep="),
    linux_pam: concat!(
        "1.5.2 and 1.7.0 then have none: they skip every line, or take\n",
        "each list for one name, and let in whom a line was to keep out."
    ),
    mending: "give the argument a value, or remove it.",
};

pub const MASK_DIGITS: Explanation = Explanation {
    number: "A6",
    name: "MaskDigits",
    level: Level::Warning,
    meaning: concat!(
        "A mask of an access table has several digits, and the first is 0.\n",
        "pamcheck takes it as a decimal number."
    ),
    example: concat!(
        "# pam.conf\n",
        "login account required pam_access.so\n",
        "# access.conf\n",
        "-:ALL:10.0.0.0/08\n",
        "$ pamcheck check --conf pam.conf --access access.conf"
    ),
    linux_pam: concat!(
        "1.5.2 and 1.7.0 read it as an octal number. Where it is none, as\n",
        "08, the line matches nothing, and lets in whom it was to keep out."
    ),
    mending: "write the number of bits without zeros before it.",
};

pub const LOOPBACK: Explanation = Explanation {
    number: "A7",
    name: "Loopback",
    level: Level::Note,
    meaning: concat!(
        "An origin of an access table is 127.0.0.1 or ::1, also before a slash. Each\n",
        "is an address of its own here."
    ),
    example: concat!(
        "# pam.conf\n",
        "login account required pam_access.so\n",
        "# access.conf\n",
        "-:ALL:127.0.0.1\n",
        "$ pamcheck check --conf pam.conf --access access.conf"
    ),
    linux_pam: "1.7.0 takes each of the two for the other.",
    mending: "name both, if the line is meant for logins over either.",
};

pub const NO_LINE_FEED_IN_TIME_TABLE: Explanation = Explanation {
    number: "T1",
    name: "NoLineFeed",
    level: Level::Warning,
    meaning: concat!(
        "The last line of a time table has a rule, and neither a comment nor a line\n",
        "feed."
    ),
    example: concat!(
        "# pam.conf\n",
        "login account required pam_time.so\n",
        "$ printf '%s' '*;*;*;Al0000-2400' >time.conf\n",
        "$ pamcheck check --conf pam.conf --time time.conf"
    ),
    linux_pam: concat!(
        "1.5.2 and 1.7.0 read no times in it, so the rule denies at all\n",
        "times."
    ),
    mending: END_LINE,
};

pub const ODD_BYTES: Explanation = Explanation {
    number: "T2",
    name: "OddBytes",
    level: Level::Warning,
    meaning: "A name in a time table has a byte other than letters, digits and *_-./:.",
    example: concat!(
        "# pam.conf\n",
        "login account required pam_time.so\n",
        "# time.conf\n",
        "*;*;host$;!Al0000-2400\n",
        "$ pamcheck check --conf pam.conf --time time.conf"
    ),
    linux_pam: concat!(
        "1.5.2 and 1.7.0 cut the name there. Users such as DOM\\alice and\n",
        "host$ then match no rule, and are let in at all times."
    ),
    mending: "write * for the part of the name that has such bytes.",
};

pub const LONG_FIELD: Explanation = Explanation {
    number: "T3",
    name: "LongField",
    level: Level::Warning,
    meaning: "A field of a time table has 1,000 bytes or more, with its blanks.",
    example: concat!(
        "# pam.conf\n",
        "login account required pam_time.so\n",
        "$ printf '%01000d;*;*;!Al0000-2400\\n' 0 >time.conf\n",
        "$ pamcheck check --conf pam.conf --time time.conf"
    ),
    linux_pam: concat!(
        "1.5.2 and 1.7.0 have no room for it. They skip the rule, which\n",
        "lets in; or, if it is the field of the times, they deny at all times."
    ),
    mending: "shorten the field, or write several rules.",
};

pub const FINISH_MINUTE: Explanation = Explanation {
    number: "T4",
    name: "FinishMinute",
    level: Level::Note,
    meaning: concat!(
        "The times of a rule go past midnight. The minute at which they finish does\n",
        "not count here."
    ),
    example: concat!(
        "# pam.conf\n",
        "login account required pam_time.so\n",
        "# time.conf\n",
        "*;*;*;Mo2200-0800\n",
        "$ pamcheck check --conf pam.conf --time time.conf"
    ),
    linux_pam: concat!(
        "1.5.2 and 1.7.0 count the minute at which such times finish too, on\n",
        "the day after."
    ),
    mending: "write two ranges, the first of which ends at 2400.",
};

/// Returns the explanation at this index, or `None` past the last one. They are in the order of their numbers.
pub(crate) fn of_old_tables(row: usize) -> Option<&'static Explanation>
    ensures { option_map (λ e. explanation_view e.now) result ≡ slice_get of_old_tables row }
{
    Some(match row {
        0 => &ZERO_MASK,
        1 => &NO_LINE_FEED_IN_ACCESS_TABLE,
        2 => &LEADING_BLANK,
        3 => &BLANK_IN_TOKEN,
        4 => &EMPTY_SEPARATOR,
        5 => &MASK_DIGITS,
        6 => &LOOPBACK,
        7 => &NO_LINE_FEED_IN_TIME_TABLE,
        8 => &ODD_BYTES,
        9 => &LONG_FIELD,
        10 => &FINISH_MINUTE,
        _ => return None,
    })
}
