//! A system for a check, which goes on where a file cannot be read.

ghost use Rattle.std.specs.Prelude.{◌≡◌};

use crate::system::{Found, Held, Place, System};
use std::alloc::{AllocError, Global};
use std::io;
use std::io::ErrorKind;

/// A system in which a file that cannot be read is an empty one.
#[derive(Clone, Copy)]
pub(super) struct GoingOn<'s, S> {
    pub(super) system: &'s S,
}

impl<S: System> System for GoingOn<'_, S> {
    ghost use Rattle.pam_cli.specs.UnreadFiles.{going_on};

    ghost told = { λ on. going_on (S.told on.system.now) };

    fn file(&self, alloc: Global, path: &str) -> io::Result<Vec<u8>> {
        self.system.file(alloc, path)
    }

    fn entries(&self, alloc: Global, folder: Place<'_>) -> io::Result<Vec<String>> {
        self.system.entries(alloc, folder)
    }

    fn names(&self, alloc: Global, folder: Place<'_>) -> io::Result<Vec<Vec<u8>>> {
        self.system.names(alloc, folder)
    }

    fn look(&self, alloc: Global, place: Place<'_>) -> io::Result<Found> {
        self.system.look(alloc, place)
    }

    fn held(&self, alloc: Global, place: Place<'_>) -> io::Result<Held> {
        match self.system.held(alloc, place) {
            Ok(held) => Ok(held),
            Err(error) if error.kind() == ErrorKind::OutOfMemory => Err(error),
            Err(_) => Ok(Held::Bytes(Vec::new(alloc))),
        }
    }

    fn leads_out(&self, alloc: Global, folder: &str, name: &[u8]) -> Result<bool, AllocError> {
        self.system.leads_out(alloc, folder, name)
    }
}
