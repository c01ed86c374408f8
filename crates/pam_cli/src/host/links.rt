//! Where the links of a folder end.

use std::alloc::Global;
use std::io::ErrorKind;
use std::path::Path;
use std::rt::Files;
use std::{fs, io};

/// Whether a link is at a path. What is gone by now is none any more.
fn is_link<R: Files>(rt: &R, path: Path<'_>) -> io::Result<bool> {
    match fs::symlink_metadata(rt, path) {
        Ok(metadata) => Ok(metadata.is_symlink()),
        Err(error) if error.kind() == ErrorKind::NotFound => Ok(false),
        Err(error) => Err(error),
    }
}

/// Whether the entry of a folder is a link that does not end at an entry of this very folder. Both are compared by the paths at which
/// they are without links, so that a link which leaves the folder and comes back stays in it.
pub(super) fn leads_out<R: Files>(
    rt: &R,
    alloc: Global,
    folder: &str,
    name: &str,
) -> io::Result<bool> {
    let path = Path::new(folder).join(alloc, name)?;
    if !is_link(rt, path.as_path())? {
        return Ok(false);
    }
    let end = rt.canonicalize(alloc, path.as_str())?;
    let home = rt.canonicalize(alloc, folder)?;
    match end.parent() {
        Some(parent) => Ok(parent.as_str() != home.as_str()),
        None => Ok(true),
    }
}
