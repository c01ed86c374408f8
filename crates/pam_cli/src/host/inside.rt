//! Follows links below a root as the system would after a chroot(2) to it, so that none leads out of it: path_resolution(7).

use std::alloc::{AllocError, Global};
use std::io::ErrorKind;
use std::path::PathBuf;
use std::{fs, io};

/// The most links that are followed on the way along a path, as in the kernel.
const MAX_LINKS: usize = 40;

/// The most bytes of a path, as in the kernel.
const MAX_PATH_BYTES: usize = 4095;

/// Follows the links of a path below a root. Returns the path by which the end is reached, which has no link below the root, or `None`
/// if they lead nowhere inside it.
pub(super) fn reached_below<R: std::rt::Files>(
    rt: &R,
    alloc: Global,
    root: &str,
    path: &str,
) -> io::Result<Option<PathBuf>> {
    let mut walk = Walk {
        root,
        reached: PathBuf::from_str(alloc, root)?,
        depth: 0,
        is_folder: true,
        is_past_link: false,
    };
    match walk.follow(rt, alloc, path) {
        Ok(()) => Ok(Some(walk.reached)),
        Err(error) => {
            if walk.leads_nowhere(&error) {
                Ok(None)
            } else {
                Err(error)
            }
        }
    }
}

/// Whether this error says that nothing can be at a path: a circle of links, a way through a file, or a name that is too long.
pub(crate) fn is_of_target(error: &io::Error) -> bool {
    match error.kind() {
        ErrorKind::FilesystemLoop | ErrorKind::NotADirectory | ErrorKind::InvalidFilename => true,
        _ => false,
    }
}

/// A walk along a path below a root.
#[derive(Drop)]
struct Walk<'a> {
    root: &'a str,
    /// What is reached so far.
    reached: PathBuf,
    /// How many folders it is below the root.
    depth: usize,
    /// Whether it is a folder.
    is_folder: bool,
    /// Whether the end of the whole path was a link.
    is_past_link: bool,
}

impl Walk<'_> {
    /// Whether this error says that the path is a link that leads nowhere, or that nothing is there.
    fn leads_nowhere(&self, error: &io::Error) -> bool {
        error.kind() == ErrorKind::NotFound || (is_of_target(error) && self.is_past_link)
    }

    /// Walks along a path to its end.
    fn follow<R: std::rt::Files>(&mut self, rt: &R, alloc: Global, path: &str) -> io::Result<()> {
        if path.len() > MAX_PATH_BYTES {
            return Err(io::Error::from(ErrorKind::InvalidFilename));
        }
        let mut ahead = PathBuf::from_str(alloc, path)?;
        for _ in 0..=MAX_LINKS {
            match self.to_link(rt, alloc, ahead.as_str())? {
                Some(next) => ahead = next,
                None => return Ok(()),
            }
        }
        Err(io::Error::from(ErrorKind::FilesystemLoop))
    }

    /// Walks along a path to its end or to the folder of the first link on it. Returns the path to follow from there: the
    /// target of the link, and what comes after it.
    fn to_link<R: std::rt::Files>(
        &mut self,
        rt: &R,
        alloc: Global,
        path: &str,
    ) -> io::Result<Option<PathBuf>> {
        if path.starts_with('/') {
            self.reached = PathBuf::from_str(alloc, self.root)?;
            self.depth = 0;
        }
        let mut walked = 0_usize;
        for part in path.split('/') {
            if !self.is_folder {
                return Err(io::Error::from(ErrorKind::NotADirectory));
            }
            walked = walked.saturating_add(part.len());
            if let Some(target) = self.step(rt, alloc, part)? {
                return Ok(Some(self.past_link(target, path.get(walked..))?));
            }
            walked = walked.saturating_add(1);
        }
        Ok(None)
    }

    /// Returns the target of a link, and what comes after the link.
    fn past_link(
        &mut self,
        mut target: PathBuf,
        after: Option<&str>,
    ) -> Result<PathBuf, AllocError> {
        match after {
            None | Some("") => self.is_past_link = true,
            Some(after) => target.push(after.trim_start_matches('/'))?,
        }
        Ok(target)
    }

    /// Walks on by one part of a path. If it is a link, stays where it is and returns the target.
    fn step<R: std::rt::Files>(
        &mut self,
        rt: &R,
        alloc: Global,
        part: &str,
    ) -> io::Result<Option<PathBuf>> {
        match part {
            "" | "." => Ok(None),
            ".." => {
                self.leave();
                Ok(None)
            }
            _ => self.enter(rt, alloc, part),
        }
    }

    /// Goes to the folder above, but not above the root.
    fn leave(&mut self) {
        if let Some(depth) = self.depth.checked_sub(1) {
            self.depth = depth;
            self.reached.pop();
        }
    }

    /// Goes to an entry. If it is a link, stays at its folder and returns its target.
    fn enter<R: std::rt::Files>(
        &mut self,
        rt: &R,
        alloc: Global,
        name: &str,
    ) -> io::Result<Option<PathBuf>> {
        self.reached.push(name)?;
        let metadata = fs::symlink_metadata(rt, self.reached.as_path())?;
        if metadata.is_symlink() {
            let target = target_at(rt, alloc, self.reached.as_str())?;
            self.reached.pop();
            return Ok(Some(target));
        }
        self.depth = self.depth.saturating_add(1);
        self.is_folder = metadata.is_dir();
        Ok(None)
    }
}

/// Reads a link. It is an error of its own if the target is no text.
fn target_at<R: std::rt::Files>(rt: &R, alloc: Global, path: &str) -> io::Result<PathBuf> {
    match rt.read_link(alloc, path) {
        Ok(target) => Ok(target),
        Err(error) => {
            if error.kind() == ErrorKind::InvalidFilename {
                Err(io::Error::from(ErrorKind::InvalidData))
            } else {
                Err(error)
            }
        }
    }
}
