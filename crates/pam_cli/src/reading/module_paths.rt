//! The module paths that contain a slash: pam.conf(5), module-path.

use indexmap::IndexSet;
use pam_conf::{Files, Form, Words, text_of};
use pam_text::{Source, Text};
use std::alloc::{AllocError, Global};

/// The module paths of a configuration that contain a slash, each once. The word after the control is taken for one, even if it is
/// the target of an include.
#[derive(Drop)]
pub(super) struct ModulePaths {
    pub(super) paths: IndexSet<Vec<u8>>,
}

/// The number of words before the module path of a rule.
fn words_before_path(form: Form) -> usize {
    match form {
        Form::Dir => 2,
        Form::Single => 3,
    }
}

/// Returns the module path of a line, as it is written, and the words after it.
pub(super) fn split_path(form: Form, line: &[u8]) -> Option<(&[u8], Words<'_>)> {
    let Ok(mut words) = Words::of(line) else {
        return None;
    };
    for _ in 0..words_before_path(form) {
        let (_, after) = words.split_first()?;
        words = after;
    }
    words.split_first()
}

impl ModulePaths {
    /// Adds the module path of a line, if it contains a slash.
    fn put_line(&mut self, alloc: Global, form: Form, line: &[u8]) -> Result<(), AllocError> {
        // Most lines contain no slash, so their words need not be found.
        if !line.contains(&b'/') {
            return Ok(());
        }
        let Some((word, _)) = split_path(form, line) else {
            return Ok(());
        };
        let mut inside = Vec::new(alloc);
        let path = text_of(word, &mut inside)?;
        if path.contains(&b'/') && !self.paths.contains(path) {
            self.paths.insert(Vec::from_slice(alloc, path)?)?;
        }
        Ok(())
    }

    /// Adds the module paths of a file that contain a slash.
    fn put_file(&mut self, alloc: Global, form: Form, bytes: &[u8]) -> Result<(), AllocError> {
        // A file that is too long or has a NUL byte has no rules.
        let Ok(source) = Source::of(bytes) else {
            return Ok(());
        };
        let mut text = Text::of(source);
        let mut joined = Vec::new(alloc);
        while let Some(line) = text.next_line(&mut joined)? {
            self.put_line(alloc, form, line.bytes)?;
        }
        Ok(())
    }

    /// Reads the module paths of a configuration.
    pub(super) fn of(alloc: Global, files: &Files) -> Result<ModulePaths, AllocError> {
        let mut found = ModulePaths {
            paths: IndexSet::new(alloc),
        };
        for position in 0..files.len() {
            if let Some(bytes) = files.bytes(position) {
                found.put_file(alloc, files.form(), bytes)?;
            }
        }
        Ok(found)
    }
}
