//! The names of the entries of a folder, which need not be UTF-8 as paths of `std::path` do.

use std::alloc::{AllocError, Global};
use std::io;
use std::io::Read;
use std::path::Path;
use std::rt::Files;

/// How many bytes of names are read at once. Any one name fits.
const READ_AT_ONCE: usize = 4096;

/// Whether a name is that of the folder itself, or of the one above it.
fn is_no_entry(name: &[u8]) -> bool {
    name == b".".as_slice() || name == b"..".as_slice()
}

/// Adds the names in these bytes, in which a NUL is after each.
fn push_names(alloc: Global, names: &mut Vec<Vec<u8>>, bytes: &[u8]) -> Result<(), AllocError> {
    for name in bytes.split(|byte| *byte == 0) {
        if !name.is_empty() && !is_no_entry(name) {
            names.push(Vec::from_slice(alloc, name)?)?;
        }
    }
    Ok(())
}

/// Returns the names of the entries of a folder, in ascending byte order.
pub(super) fn names_in<R: Files>(rt: &R, alloc: Global, folder: &str) -> io::Result<Vec<Vec<u8>>> {
    // The slash at the end makes the system follow a link.
    let path = Path::new(folder).join(alloc, "")?;
    let mut dir = rt.open_dir(path.as_str())?;
    let mut names = Vec::new(alloc);
    let mut bytes = [0_u8; READ_AT_ONCE];
    for _ in 0..u64::MAX {
        let read = dir.read(&mut bytes)?;
        if read == 0 {
            break;
        }
        push_names(alloc, &mut names, &bytes[..read])?;
    }
    names.sort()?;
    Ok(names)
}
