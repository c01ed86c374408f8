//! What is said of a fault or a finding.

/// How grave a fault or a finding is, from the least to the most.
#[derive(Clone, Copy, Debug, PartialEq, Eq)]
pub enum Level {
    /// Nothing is wrong with the host, but it is good to know.
    Note,
    /// Somebody may be locked out or let in.
    Warning,
    /// No answer, or no stack.
    Error,
}

/// What a fault or a finding means. All texts are ASCII.
///
/// All texts but the number and the name are lines with line feeds between them. The lines of `meaning`, `linux_pam` and
/// `mending` have at most 78 bytes. The last two are meant to stand after `Linux-PAM: ` and `To mend it: `, for which their
/// first lines leave room.
#[derive(Clone, Copy, Debug)]
pub struct Explanation<Text = &'static str> {
    /// The number, as `E15`.
    pub number: Text,
    /// The name, as `NoService`.
    pub name: Text,
    /// The level at which `check` reports it; of what `check` does not report, `Error`.
    pub level: Level,
    /// What is wrong, and why it matters.
    pub meaning: Text,
    /// An example that has it, in lines of at most 74 bytes. A line `# NAME` begins the file of this name, and is its first
    /// line. A line `$ COMMAND` is for a shell, in the folder of these files; lines `> TEXT` belong to the command before
    /// them. If there is no command with `pamcheck`, it is `pamcheck check --dir .` that reports it. The example is empty
    /// where the fault depends on the machine.
    pub example: Text,
    /// What releases of Linux-PAM do.
    pub linux_pam: Text,
    /// What to do.
    pub mending: Text,
}
