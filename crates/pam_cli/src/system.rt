//! What is asked of the system.

ghost use Rattle.std.specs.Prelude.{◌≡◌, IfOk, map, string_bytes};
ghost use Rattle.std.specs.Cmp.Lexicographic.{slice_cmp};
ghost use Rattle.std.specs.List.Sorted.{IsSortedByKey};
ghost use Rattle.std.specs.Ordering.{nat_cmp};
ghost use Rattle.std.specs.Path.{path_buf_bytes, path_join};
ghost use Rattle.pam_cli.specs.System.{Told, held_view, path_of, place_view, shown, with_path};

use std::alloc::{AllocError, Global};
use std::io;
use std::path::{Path, PathBuf};

/// A place of the system.
#[derive(Clone, Copy)]
pub enum Place<'a> {
    /// A path that is named. The system follows links, wherever they lead.
    Named(&'a str),
    /// The root of a system, and a path below it. Links lead where they would lead after a chroot(2) to the root.
    Below { root: &'a str, path: &'a str },
}

/// What is at a place after links are followed.
#[derive(Clone, Copy)]
pub enum Found {
    /// Nothing is there, or a link that leads nowhere.
    Nothing,
    Folder,
    /// A regular file.
    File,
    Other,
}

/// What is at a place after links are followed, with what it holds.
#[derive(Drop)]
pub enum Held {
    /// Nothing is there, or a link that leads nowhere.
    Nothing,
    /// Something that is no regular file.
    Other,
    /// The bytes of a regular file. Of one that has more than `MAX_FILE_BYTES` of pam_text, these are the first ones, one more
    /// than that.
    Bytes(Vec<u8>),
}

/// What a run asks of the system. A run sees no file but by these calls.
pub trait System {
    /// What the system may answer.
    ghost told: { Self → Told };

    /// Reads the file with this path, whatever its type is: as many bytes as of a regular file.
    fn file(&self, alloc: Global, path: &str) -> io::Result<Vec<u8>>
        ensures { IfOk result (λ bytes. (told self.now).file path.now bytes.items) };

    /// Returns the names of the entries of a folder, in ascending byte order. A name that is not UTF-8 is an error.
    fn entries(&self, alloc: Global, folder: Place<'_>) -> io::Result<Vec<String>>
        ensures names { IfOk result (λ names. (told self.now).entries (place_view folder.entry) (map string_bytes names.items)) }
        ensures order { IfOk result (λ names. IsSortedByKey string_bytes (slice_cmp nat_cmp) names.items) };

    /// Returns the names of the entries of a folder, in ascending byte order. Each may have any bytes.
    fn names(&self, alloc: Global, folder: Place<'_>) -> io::Result<Vec<Vec<u8>>>
        ensures { IfOk result (λ names. (told self.now).entries (place_view folder.entry) (map (λ name. name.items) names.items)) };

    /// Looks at a place.
    fn look(&self, alloc: Global, place: Place<'_>) -> io::Result<Found>
        ensures { IfOk result (λ found. (told self.now).look (place_view place.entry) found) };

    /// Looks at a place, and reads what is there if it is a regular file.
    fn held(&self, alloc: Global, place: Place<'_>) -> io::Result<Held>
        ensures { IfOk result (λ held. (told self.now).held (place_view place.entry) (held_view held)) };

    /// Whether the entry of a folder with this name is a link that leads out of it: one that ends, after all links are followed, at
    /// what is no entry of this very folder. A link whose end cannot be found counts as one.
    fn leads_out(&self, alloc: Global, folder: &str, name: &[u8]) -> Result<bool, AllocError>
        ensures { IfOk result (λ out. (told self.now).leads_out folder.now name.now out) };
}

impl<'a> Place<'a> {
    /// The path that is named, or that below the root.
    pub(crate) fn path(self) -> &'a str
        ensures { result.now ≡ path_of (place_view self.entry) }
    {
        match self {
            Place::Named(path) => path,
            Place::Below { path, .. } => path,
        }
    }

    /// The place with another path.
    pub(crate) fn with_path(self, path: &'a str) -> Place<'a>
        ensures { place_view result ≡ with_path (place_view self.entry) path.now }
    {
        match self {
            Place::Named(_) => Place::Named(path),
            Place::Below { root, .. } => Place::Below { root, path },
        }
    }

    /// The path of the entry of a folder that has this name.
    pub(crate) fn entry_path(self, alloc: Global, name: &str) -> Result<PathBuf, AllocError>
        ensures { IfOk result (λ path. path_buf_bytes path ≡ path_join (path_of (place_view self.entry)) name.now) }
    {
        Path::new(self.path()).join(alloc, name)
    }

    /// The path that is shown.
    pub fn shown(self, alloc: Global) -> Result<PathBuf, AllocError>
        ensures { IfOk result (λ path. path_buf_bytes path ≡ shown (place_view self.entry)) }
    {
        match self {
            Place::Named(path) => PathBuf::from_str(alloc, path),
            Place::Below { root, path } => Path::new(root).join(alloc, path),
        }
    }
}
