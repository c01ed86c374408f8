//! The bytes of files from a line on, each file passed once where its lines are asked for in order.

ghost use Rattle.std.specs.Prelude.{◌≡◌, ◌≤◌, ◌-◌};
ghost use Rattle.pam_findings.specs.misspelled.Lines.{bytes_of};
ghost use Rattle.pam_findings.specs.misspelled.Spots.{after_feed, after_feeds, from_line};
ghost use Rattle.pam_findings.specs.misspelled.Cursors.{IsAt};

use crate::misspelled::offsets::line_len;
use crate::misspelled::reader::source_of;
use pam_conf::{Files, Form};

/// The bytes of a file after some of its line feeds.
#[derive(Drop)]
pub struct Cursor<'a> {
    files: &'a Files,
    /// The position of the file; `None` for no file, which has no bytes.
    file: Option<usize>,
    /// The number of line feeds before the rest.
    passed: usize,
    rest: &'a [u8],
}

/// The bytes after the first line feed.
fn after_feed(bytes: &[u8]) -> &[u8]
    ensures { result.now ≡ after_feed bytes.now }
{
    let len = line_len(bytes);
    if len == bytes.len() {
        return b"";
    }
    bytes.split_at(len + 1).1
}

/// The bytes after this many line feeds.
#[tactic(auto, unfolding(crate::specs::misspelled::Spots::after_feeds))]
pub fn after_feeds(count: usize, bytes: &[u8]) -> &[u8]
    ensures { result.now ≡ after_feeds count bytes.now }
{
    let mut rest = bytes;
    for _ in 0..count {
        rest = after_feed(rest);
    }
    rest
}

impl<'a> Cursor<'a> {
    /// Is in no file yet.
    #[tactic(auto, unfolding(crate::specs::misspelled::Spots::after_feeds))]
    pub fn new(files: &'a Files) -> Cursor<'a>
        ensures at { IsAt result }
        ensures same { result.files.now ≡ files.now }
    {
        Cursor {
            files,
            file: None,
            passed: 0,
            rest: b"",
        }
    }

    pub(crate) fn form(&self) -> Form
        ensures { result ≡ self.now.files.now.form }
    {
        self.files.form()
    }

    /// Goes to the beginning of a file.
    #[tactic(auto, unfolding(crate::specs::misspelled::Spots::after_feeds))]
    fn open(&mut self, file: Option<usize>)
        ensures at { IsAt self.new }
        ensures same { self.new.files ≡ self.old.files }
        ensures file { self.new.file ≡ file }
        ensures first { self.new.passed ≡ 0 }
    {
        self.rest = source_of(self.files, file).bytes;
        self.file = file;
        self.passed = 0;
    }

    /// Stays in the file and before the line feed that are asked for, or else goes to the beginning of this file.
    fn approach(&mut self, file: Option<usize>, feeds: usize)
        requires { IsAt self.old }
        ensures at { IsAt self.new }
        ensures same { self.new.files ≡ self.old.files }
        ensures file { self.new.file ≡ file }
        ensures before { self.new.passed ≤ feeds }
    {
        if file != self.file || feeds < self.passed {
            self.open(file);
        }
    }

    /// Goes on to a line of a file, or from the beginning of this file if the line was passed.
    pub fn seek(&mut self, file: Option<usize>, number: usize)
        requires { IsAt self.old }
        ensures at { IsAt self.new }
        ensures same { self.new.files ≡ self.old.files }
        ensures rest { self.new.rest.now ≡ from_line number (bytes_of self.old.files.now file) }
    {
        let feeds = number.saturating_sub(1);
        self.approach(file, feeds);
        while self.passed < feeds {
            self.rest = after_feed(self.rest);
            self.passed += 1;
        }
    }

    pub fn rest(&self) -> &'a [u8]
        ensures { result.now ≡ self.now.rest.now }
    {
        self.rest
    }
}
