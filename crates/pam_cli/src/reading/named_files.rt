//! The arguments that name a file without which their module cannot do, and the file of which is there: the manual page of each module.

ghost use Rattle.std.specs.Prelude.{IfErr, IfOk};
ghost use Rattle.pam_cli.specs.Reading.{HasNamedFiles};
ghost use Rattle.pam_cli.specs.Sources.{IsInSource, IsUnread};

use crate::host::is_of_target;
use crate::reading::files::unread_at;
use crate::reading::module_paths::split_path;
use crate::system::{Found, Place, System};
use indexmap::IndexSet;
use pam_conf::{Files, Form, NameList, Words, text_of};
use pam_report::{InputError, may_name_file};
use pam_text::{Source, Text};
use pam_words::ConfSource;
use std::alloc::{AllocError, Global};
use std::io::ErrorKind;

/// The argument of pam_userdb, which names a database without the ending of its file.
const DATABASE: &[u8] = b"db=";

/// The ending of the file of a database.
const ENDING: &[u8] = b".db";

/// The arguments of a configuration that name a file, each once.
#[derive(Drop)]
struct NamedFiles {
    words: IndexSet<Vec<u8>>,
}

impl NamedFiles {
    /// Adds an argument of the module at a path, if it names a file.
    fn put_word(&mut self, alloc: Global, path: &[u8], word: &[u8]) -> Result<(), AllocError> {
        if may_name_file(path, word) && !self.words.contains(word) {
            self.words.insert(Vec::from_slice(alloc, word)?)?;
        }
        Ok(())
    }

    /// Adds the first of these arguments that name a file, as many as are counted.
    fn put_words(
        &mut self,
        alloc: Global,
        path: &[u8],
        arguments: Words<'_>,
        count: usize,
    ) -> Result<(), AllocError> {
        let mut inside = Vec::new(alloc);
        let mut rest = arguments;
        for _ in 0..count {
            let Some((word, after)) = rest.split_first() else {
                return Ok(());
            };
            self.put_word(alloc, path, text_of(word, &mut inside)?)?;
            rest = after;
        }
        Ok(())
    }

    /// Adds the arguments of a line that name a file.
    fn put_line(&mut self, alloc: Global, form: Form, line: &[u8]) -> Result<(), AllocError> {
        // Most lines have no argument with a value, so their words need not be found.
        if !line.contains(&b'=') {
            return Ok(());
        }
        let Some((path, arguments)) = split_path(form, line) else {
            return Ok(());
        };
        let mut inside = Vec::new(alloc);
        let path = text_of(path, &mut inside)?;
        self.put_words(alloc, path, arguments, line.len())
    }

    /// Adds the arguments of a file that name a file.
    fn put_file(&mut self, alloc: Global, form: Form, bytes: &[u8]) -> Result<(), AllocError> {
        // A file that is too long or has a NUL byte has no rules.
        let Ok(source) = Source::of(bytes) else {
            return Ok(());
        };
        let mut text = Text::of(source);
        let mut joined = Vec::new(alloc);
        while let Some(line) = text.next_line(&mut joined)? {
            self.put_line(alloc, form, line.bytes)?;
        }
        Ok(())
    }

    /// Reads the arguments of a configuration that name a file.
    fn of(alloc: Global, files: &Files) -> Result<NamedFiles, AllocError> {
        let mut found = NamedFiles {
            words: IndexSet::new(alloc),
        };
        for position in 0..files.len() {
            if let Some(bytes) = files.bytes(position) {
                found.put_file(alloc, files.form(), bytes)?;
            }
        }
        Ok(found)
    }
}

/// Returns the path of the file that an argument names, without the slash at its front.
fn file_of(alloc: Global, word: &[u8]) -> Result<Vec<u8>, AllocError> {
    let mut path = Vec::new(alloc);
    for byte in word.iter().skip_while(|byte| **byte != b'/') {
        path.push(*byte)?;
    }
    if word.starts_with(DATABASE) {
        path.extend_from_slice(ENDING)?;
    }
    Ok(path)
}

/// Whether something is at a place.
fn is_at<S: System>(system: &S, alloc: Global, place: Place<'_>) -> Result<bool, InputError> {
    match system.look(alloc, place) {
        Ok(Found::Nothing) => Ok(false),
        Ok(Found::File | Found::Folder | Found::Other) => Ok(true),
        Err(error) if is_of_target(&error) => Ok(false),
        Err(error) => Err(unread_at(alloc, place, &error)),
    }
}

/// Whether the file that an argument names is there below a root. A path that is not UTF-8 counts as there, since `std::path` cannot
/// name it.
fn is_file_there<S: System>(
    system: &S,
    alloc: Global,
    root: &str,
    word: &[u8],
) -> Result<bool, InputError> {
    let path = file_of(alloc, word)?;
    let Ok(path) = std::str::from_utf8(&path) else {
        return Ok(true);
    };
    let path = path.trim_start_matches('/');
    is_at(system, alloc, Place::Below { root, path })
}

/// Returns the arguments of a configuration that name a file which is there below a root, as rules write them.
fn there_below<S: System>(
    system: &S,
    alloc: Global,
    root: &str,
    files: &Files,
) -> Result<NameList, InputError> {
    let named = NamedFiles::of(alloc, files)?;
    let mut there = NameList::new(alloc);
    for word in &named.words {
        if is_file_there(system, alloc, root, word)? {
            there.add(alloc, word)?;
        }
    }
    Ok(there)
}

/// Returns the arguments of a configuration that name a file which is there, as rules write them, if the source is a system; else
/// `None`, as it is not known to which one the configuration belongs.
pub(super) fn files_there<S: System>(
    system: &S,
    alloc: Global,
    source: ConfSource<'_>,
    files: &Files,
) -> Result<Option<NameList>, InputError>
    ensures ok { IfOk result (HasNamedFiles source.entry) }
    ensures error { IfErr result (IsUnread (IsInSource source.entry)) }
{
    match source {
        ConfSource::Root(root) => Ok(Some(there_below(system, alloc, root, files)?)),
        ConfSource::Dir(_) | ConfSource::Over { .. } | ConfSource::Conf(_) => Ok(None),
    }
}
