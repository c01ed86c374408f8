//! What is wrong with words that are refused.

/// What of the words is wrong, so that a refusal can say it.
#[derive(Clone, Copy)]
pub enum Mistake<'a> {
    /// More than one option names a source.
    ManySources,
    /// `--vendor-dir` is given without `--dir`.
    VendorAlone,
    /// Both `--conf` and `--root` are given for the sources of `compare`.
    BothForms,
    /// A KIND that is none.
    Kind(&'a str),
    /// A name in the CODES of `--set` that is none of a code.
    Code(&'a [u8]),
    /// A value of `--format` that is no format of a drawing.
    Drawing(&'a str),
    /// A value of `--format` of `check` that is no form.
    Form(&'a str),
    /// Another form than JSON is named beside `--json`.
    BesideJson,
    /// A value of `--fail-on` that is no level.
    Level(&'a str),
    /// A value of `--answers` that is none of answers.
    Answers(&'a str),
    /// A value of `--set` that is not KEY=CODES.
    Setting(&'a str),
    /// A value of `--with` that is not NAME=FILE.
    Candidate(&'a str),
    /// A SERVICE that ends in a slash.
    Folder(&'a str),
    /// A candidate is given beside `--conf`.
    BesideConf,
    /// A table is given without a user.
    NoUser,
    /// Not exactly one moment is given.
    NoMoment,
}
