//! What several explanations have in common.

/// Of Linux-PAM, where the words of the command line are wrong.
pub(crate) const FAULT_OF_WORDS: &str = "this is a fault of the words that pamcheck was given.";

/// Of Linux-PAM, where a run of pamcheck failed.
pub(crate) const FAULT_OF_RUN: &str = "this is a fault of pamcheck's run alone.";

/// Of Linux-PAM, where a stack has more of something than pamcheck takes.
pub(crate) const NO_LIMIT: &str = "pam.conf(5) names no limit. This one is pamcheck's.";

/// Of Linux-PAM, where a run can be at too many places.
pub(crate) const OWN_LIMIT: &str = "this limit is pamcheck's. The stack itself may be sound.";

/// Of Linux-PAM, where a cursor is wrong.
pub(crate) const OWN_CURSOR: &str = "a cursor is pamcheck's own.";

/// Of Linux-PAM, where an accept file is wrong.
pub(crate) const OWN_ACCEPT_FILE: &str =
    "an accept file is pamcheck's own, and Linux-PAM does not read it.";

/// Of Linux-PAM, where a returns file is wrong.
pub(crate) const OWN_RETURNS_FILE: &str =
    "a returns file is pamcheck's own, and Linux-PAM does not read it.";

/// Of Linux-PAM, where a policy is wrong.
pub(crate) const OWN_POLICY: &str = "a policy is pamcheck's own, and Linux-PAM does not read it.";

/// Of Linux-PAM, where a control cannot be read.
pub(crate) const CONTROL_FAILS: &str = concat!(
    "where 1.5.2 and 1.7.0 cannot read a control, each answer of the\n",
    "module counts as a failure (bad), success too. The other kinds go on."
);

/// To mend that the system gave no memory.
pub(crate) const FREE_MEMORY: &str = concat!(
    "free memory, or raise the limit of the process, and run pamcheck\n",
    "again."
);

/// To mend a file with a NUL byte.
pub(crate) const RESTORE_FILE: &str = concat!(
    "restore the file from a copy. If only the byte is wrong, tr -d\n",
    "'\\000' removes it."
);

/// To mend a file whose last line has no line feed.
pub(crate) const END_LINE: &str = "end the line with a line feed: echo >>FILE.";

/// To mend a cursor of no path.
pub(crate) const TAKE_CURSOR: &str = concat!(
    "list the paths of the stack as it is now, and take a cursor from\n",
    "there."
);

/// To mend two options that exclude each other.
pub(crate) const GIVE_ONE: &str = "give one of the two.";

/// An example of files whose substacks nest so deep that a run can be at too many places, and the lines after them.
macro_rules! deep_substacks {
    ($($line:literal),*) => {
        concat!(
            "$ for n in $(seq 1 15); do\n",
            "> printf 'auth required pam_unix.so\\nauth substack f%d\\n' $((n+1)) >f$n\n",
            "> echo 'auth [success=ok ignore=reset default=bad] pam_ldap.so' >>f$n\n",
            "> done\n",
            "$ echo 'auth required pam_unix.so' >f16"
            $(, "\n", $line)*
        )
    };
}

pub(crate) use deep_substacks;
