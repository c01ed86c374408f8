//! The contents of the files that a request names.

ghost use Rattle.std.specs.Prelude.{◌≡◌};

mod fits;
mod given;
mod known_tables;

pub(crate) use known_tables::{Given, tables_with, timed_given};
use pam_conf::{Files, NameList};
use pam_text::Texts;
use std::alloc::{AllocError, AllocFailed};
use thiserror::Error;

/// Why the system does not read a file, a folder or a link.
#[derive(Clone, Copy, Debug, PartialEq, Eq)]
pub enum ReadFault {
    NotFound,
    NotPermitted,
    /// A folder, or a part of a path, is none.
    NotFolder,
    /// A file is a folder.
    IsFolder,
    /// A file is neither a file nor a folder.
    NotFile,
    /// Links lead back to themselves.
    Looping,
    /// A passwd file has more than `MAX_FILE_BYTES` of pam_text.
    TooLong,
    /// A passwd file has a NUL byte.
    NulByte,
    Failed,
}

/// Why an input cannot be read.
#[derive(Debug, Drop, Error)]
pub enum InputError {
    /// The name, as given on the command line, or that of an entry of the folder.
    #[error("{0} cannot be read")]
    Read(String, ReadFault),
    #[error("out of memory")]
    Memory,
}

impl From<AllocError> for InputError {
    ghost use Rattle.pam_report.specs.declared.inputs.InputError.TheVariants.{Memory};

    ghost from_gives = { λ _ e. e ≡ Memory };

    fn from(_: AllocError) -> InputError {
        InputError::Memory
    }
}

impl<T: Drop> From<AllocFailed<T>> for InputError {
    ghost use Rattle.pam_report.specs.declared.inputs.InputError.TheVariants.{Memory};

    ghost from_gives = { λ _ e. e ≡ Memory };

    fn from(_: AllocFailed<T>) -> InputError {
        InputError::Memory
    }
}

/// A table, and the path under which it was read.
#[derive(Drop)]
pub struct TableFile {
    pub path: Vec<u8>,
    pub bytes: Vec<u8>,
}

/// The access tables, in the order in which they are read. Both lists are empty where there is none.
#[derive(Drop)]
pub struct AccessFiles {
    /// The path under which each was read.
    pub paths: Texts,
    pub contents: Texts,
}

/// The tables that modules read, as far as they are given.
#[derive(Drop)]
pub struct TableFiles {
    pub groups: Option<TableFile>,
    pub access: AccessFiles,
    pub time: Option<TableFile>,
}

/// What a check is given besides the configuration.
#[derive(Drop)]
pub struct CheckInputs {
    /// The position from which on the files are those that only the second folder has; without a second folder the number of files.
    pub vendor_start: usize,
    /// By the position of each file, whether it is a link that leads out of the folder from which it was read; files past its end are
    /// none. No finding at such a file shows a word of it.
    pub outside: Vec<bool>,
    /// By the position of each file, whether it cannot be read, and then stands here without a byte; files past its end can. A service
    /// that takes rules from such a file is not checked.
    pub unread: Vec<bool>,
    /// Why each of these files cannot be read, with its path.
    pub unread_errors: Vec<InputError>,
    /// The names of the entries of the folders that are links which lead nowhere, where no other file has the name.
    pub dead: NameList,
    /// The paths at which a module is there, as rules write them; `None` if that is not known.
    pub there: Option<NameList>,
    /// The arguments that name a file which is there, as rules write them; `None` if that is not known.
    pub named_files: Option<NameList>,
    /// The tables that are named, and those of a root that are there.
    pub tables: TableFiles,
    /// The contents of the facts file, if one is named.
    pub facts: Option<Vec<u8>>,
    /// The contents of the accept file, if one is named.
    pub accept: Option<Vec<u8>>,
}

/// What the commands about paths are given besides the configuration.
#[derive(Drop)]
pub struct KnowledgeInputs {
    /// The paths at which a module is there, as rules write them; `None` if that is not known.
    pub there: Option<NameList>,
    /// The tables that are named, and those of a root that are there.
    pub tables: TableFiles,
    /// The contents of the facts file, if one is named and it is asked what is possible.
    pub facts: Option<Vec<u8>>,
    /// The contents of the returns file, if one is named.
    pub returns: Option<Vec<u8>>,
    /// The contents of the policies, in the order in which they are named; none for another command than `policy`.
    pub policies: Texts,
}

/// One of the two configurations of a comparison.
#[derive(Drop)]
pub struct SideInputs {
    pub files: Files,
    /// The paths at which a module is there, as rules write them; `None` if that is not known.
    pub there: Option<NameList>,
}

/// The contents of the files that a request names, and of the tables of a root. Where neither gives a file, it is `None`.
#[derive(Drop)]
pub enum Inputs {
    /// For `check`. The first path belongs to the whole configuration; under each other one a file was read, in the order of
    /// the files.
    Host {
        files: Files,
        paths: Texts,
        given: CheckInputs,
    },
    /// For `compare`: the two configurations, and the contents of the facts file and the returns file, if they are named.
    Sides {
        old: SideInputs,
        new: SideInputs,
        facts: Option<Vec<u8>>,
        returns: Option<Vec<u8>>,
    },
    /// For `show` and `decide`.
    Stack(Files),
    Access {
        /// The contents of the access tables, in the order in which they are read.
        tables: Texts,
        groups: Option<Vec<u8>>,
    },
    Time {
        table: Vec<u8>,
    },
    /// For `paths`, `outcomes`, `graph`, `needs` and `policy`.
    Paths {
        files: Files,
        given: KnowledgeInputs,
    },
    /// For a command that reads no file.
    Nothing,
}
