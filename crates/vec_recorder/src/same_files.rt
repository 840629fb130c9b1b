//! Whether two paths name the same file of a process.

use std::alloc::{AllocError, Global};
use std::os::unix::fs::MetadataExt;
use std::path::PathBuf;
use std::rt::Files;
use std::{fs, io};

/// Largest number of symbolic links that are followed from a path, as in Linux.
const MAX_LINKS: usize = 40;

/// The device and inode numbers of an existing file or folder.
#[derive(Clone, Copy)]
struct Node {
    dev: u64,
    ino: u64,
}

impl Node {
    /// Return the numbers of the file at a path, after following symbolic links, or `None` if there is no such file.
    fn at<R: Files>(rt: &R, path: &str) -> Option<Node> {
        let Ok(found) = fs::metadata(rt, path) else {
            return None;
        };
        Some(Node {
            dev: found.dev(),
            ino: found.ino(),
        })
    }

    /// Return whether both are the numbers of one file.
    fn is(self, other: Node) -> bool {
        self.dev == other.dev && self.ino == other.ino
    }
}

/// Return the target of a symbolic link, or `None` if the path isn't a link or its target can't be read. Fails if
/// memory runs out.
fn link_target<R: Files>(rt: &R, alloc: Global, path: &str) -> Result<Option<PathBuf>, AllocError> {
    match rt.read_link(alloc, path) {
        Ok(target) => Ok(Some(target)),
        Err(fault) if fault.kind() == io::ErrorKind::OutOfMemory => Err(AllocError),
        Err(_) => Ok(None),
    }
}

/// Follow the symbolic links at the end of a path. A target is relative to the folder of its link. Fails if memory runs
/// out.
fn followed<R: Files>(rt: &R, alloc: Global, path: &str) -> Result<PathBuf, AllocError> {
    let mut end = PathBuf::from_str(alloc, path)?;
    for _ in 0..MAX_LINKS {
        let Some(target) = link_target(rt, alloc, end.to_string_lossy())? else {
            break;
        };
        end.pop();
        end.push(target.to_string_lossy())?;
    }
    Ok(end)
}

/// Return the numbers of the folder of a path, or `None` if there is no such folder.
fn folder_of<R: Files>(rt: &R, path: &PathBuf) -> Option<Node> {
    let Some(folder) = path.parent() else {
        return None;
    };
    let folder = folder.to_string_lossy();
    if folder.is_empty() {
        return Node::at(rt, ".");
    }
    Node::at(rt, folder)
}

/// Return whether two paths without a file would create the same one: its folder and its name are the same after
/// following symbolic links. Fails if memory runs out.
fn create_same_file<R: Files>(
    rt: &R,
    alloc: Global,
    first: &str,
    second: &str,
) -> Result<bool, AllocError> {
    let first = followed(rt, alloc, first)?;
    let second = followed(rt, alloc, second)?;
    let Some(folder) = folder_of(rt, &first) else {
        return Ok(false);
    };
    let Some(other_folder) = folder_of(rt, &second) else {
        return Ok(false);
    };
    Ok(folder.is(other_folder) && first.file_name() == second.file_name())
}

/// Return whether two paths name the same file: one that exists, or one that doesn't exist and that both would create.
/// Fails if memory runs out.
pub(crate) fn is_same_file<R: Files>(
    rt: &R,
    alloc: Global,
    first: &str,
    second: &str,
) -> Result<bool, AllocError> {
    let first_node = Node::at(rt, first);
    let second_node = Node::at(rt, second);
    match (first_node, second_node) {
        (Some(node), Some(other)) => Ok(node.is(other)),
        (None, None) => create_same_file(rt, alloc, first, second),
        (Some(_), None) | (None, Some(_)) => Ok(false),
    }
}
