//! The files that are open during a walk.
ghost use Rattle.std.specs.Prelude.{◌≡◌, ◌+◌, ◌-◌, ◌<◌, ◌==◌, ◌∷◌, ◌++◌, [], length};
ghost use Rattle.std.specs.List.{list_any};

use std::marker::Model;

/// The maximum number of files open at once, the service's file included; one more is `TooDeep`.
pub const MAX_OPEN_FILES: usize = 16;

/// The positions of the open files, the service's file first.
#[derive(Drop)]
pub(crate) struct Trail {
    files: [usize; MAX_OPEN_FILES],
    count: usize,
}

impl Model for Trail {
    ghost use Rattle.std.specs.Prelude.{ℕ, List, ◌≤◌, take};
    ghost use Rattle.pam_conf.specs.declared.trail.TheConstants.{MAX_OPEN_FILES};

    ghost Value = { List ℕ };

    ghost view = { λ t. take t.count t.files };

    ghost invariant = { λ t. t.count ≤ MAX_OPEN_FILES };
}

impl Trail {
    /// The trail with a service's file alone.
    pub(crate) fn of(file: usize) -> Trail
        ensures { result ≡ file ∷ [] }
    {
        Trail {
            files: [file; MAX_OPEN_FILES],
            count: 1,
        }
    }

    /// The number of files that may still be opened.
    pub(crate) fn room(&self) -> usize
        ensures { result ≡ MAX_OPEN_FILES - length self.now }
    {
        MAX_OPEN_FILES - self.count
    }

    /// Whether `file` is open.
    pub(crate) fn contains(&self, file: usize) -> bool
        ensures { result ≡ list_any (λ p. p == file) self.now }
    {
        self.files[..self.count].contains(&file)
    }

    /// The trail with `file` appended.
    pub(crate) fn with(&self, file: usize) -> Trail
        requires { length self.now < MAX_OPEN_FILES }
        ensures { result ≡ self.now ++ file ∷ [] }
    {
        let mut files = self.files;
        files[self.count] = file;
        Trail {
            files,
            count: self.count + 1,
        }
    }
}
