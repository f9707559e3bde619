//! What lies below the root of a folder store.

ghost use Rattle.std.specs.Prelude.{◌≡◌, [], IsErr};

use super::{FolderStore, joined_path};
use crate::looks::{FileNumber, Stamp, look, number_of, read_names, stamp_of};
use crate::replacing::second_named;
use crate::settling::settle;
use std::os::unix::fs::MetadataExt;
use std::rt::{Clock, Files};
use std::{fs, io};

// How often folders are walked that change meanwhile.
const MOST_WALKS: u32 = 8;

// What is left to walk, and what was found: paths below the root, and which file each one is.
#[derive(Drop)]
pub(super) struct Walk {
    left: Vec<String>,
    // Each folder as it was before its names were read.
    pub(super) folders: Vec<(String, Stamp)>,
    pub(super) files: Vec<String>,
    pub(super) numbers: Vec<FileNumber>,
    pub(super) leftovers: Vec<(String, FileNumber)>,
    pub(super) shared_mode: u32,
}

impl<'a, R: Files + Clock + AllocGlobal> FolderStore<'a, R> {
    // What lies below the root, all at one time. Some file systems pass over a name that is renamed
    // over while they tell the names of its folder; that changes the folder's times.
    pub(super) fn walk_folders(&self) -> io::Result<Walk>
        ensures { self.now.root.now ≡ [] → IsErr result }
    {
        for _ in 0..MOST_WALKS {
            let walk = self.walk_once()?;
            if self.are_unchanged(walk.folders.as_slice())? {
                return Ok(walk);
            }
        }
        Err(io::Error::from(io::ErrorKind::WouldBlock))
    }

    // Whether each of these folders is as it was, and where it was.
    pub(super) fn are_unchanged(&self, folders: &[(String, Stamp)]) -> io::Result<bool> {
        for (folder, stamp) in folders {
            if self.folder_stamp(folder.as_str())? != Some(*stamp) {
                return Ok(false);
            }
        }
        Ok(true)
    }

    // What lies below the root, where nothing changes meanwhile.
    fn walk_once(&self) -> io::Result<Walk>
        ensures { self.now.root.now ≡ [] → IsErr result }
    {
        let alloc = self.rt.alloc();
        let mut walk = Walk {
            left: Vec::new(alloc),
            folders: Vec::new(alloc),
            files: Vec::new(alloc),
            numbers: Vec::new(alloc),
            leftovers: Vec::new(alloc),
            shared_mode: 0o777,
        };
        self.visit_folder(&mut walk, String::new(alloc))?;
        for _ in 0..u64::MAX {
            let Some(folder) = walk.left.pop() else {
                break;
            };
            self.visit_folder(&mut walk, folder)?;
        }
        Ok(walk)
    }

    // Notes what a folder has. What is no folder has nothing.
    fn visit_folder(&self, walk: &mut Walk, folder: String) -> io::Result<()>
        ensures { self.now.root.now ≡ [] → IsErr result }
    {
        let Some(stamp) = self.folder_stamp(folder.as_str())? else {
            return Ok(());
        };
        settle(self.rt, stamp)?;
        let names = self.names_in(folder.as_str())?;
        for name in names.split(|byte| *byte == 0) {
            self.visit(walk, folder.as_str(), name)?;
        }
        walk.folders.push((folder, stamp))?;
        Ok(())
    }

    // The path of a folder. The root may be a symbolic link to one, which the slash follows; no other
    // link is followed.
    fn folder_path(&self, folder: &str) -> io::Result<String>
        ensures { self.now.root.now ≡ [] → IsErr result }
    {
        let mut path = self.full_path(folder)?;
        if folder.is_empty() {
            path.push('/')?;
        }
        Ok(path)
    }

    // How a folder is, or none where what has this name is gone, or is no folder. The root has to be
    // one.
    fn folder_stamp(&self, folder: &str) -> io::Result<Option<Stamp>>
        ensures { self.now.root.now ≡ [] → IsErr result }
    {
        let path = self.folder_path(folder)?;
        match fs::symlink_metadata(self.rt, path.as_str()) {
            Ok(found) if found.is_dir() => Ok(Some(stamp_of(&found))),
            Ok(_) if folder.is_empty() => Err(io::Error::from(io::ErrorKind::NotADirectory)),
            Ok(_) => Ok(None),
            Err(error) if !folder.is_empty() && is_no_folder(error.kind()) => Ok(None),
            Err(error) => Err(error),
        }
    }

    // All names in a folder, each ended by a zero byte: none where it is gone, or no folder any more.
    fn names_in(&self, folder: &str) -> io::Result<Vec<u8>>
        ensures { self.now.root.now ≡ [] → IsErr result }
    {
        let path = self.folder_path(folder)?;
        let mut names = Vec::new(self.rt.alloc());
        match self.rt.open_dir(path.as_str()) {
            Ok(mut opened) => read_names(&mut opened, &mut names)?,
            Err(error) if !folder.is_empty() && is_no_folder(error.kind()) => {}
            Err(error) => return Err(error),
        }
        Ok(names)
    }

    // Notes a name of the folder, if it may be that of a folder, or is that of a schema file or of
    // what a write has left. A name that is gone is passed over.
    fn visit(&self, walk: &mut Walk, folder: &str, name: &[u8]) -> io::Result<()> {
        if let Some(second) = second_named(name) {
            return self.visit_leftover(walk, folder, second);
        }
        if name.is_empty() || name.starts_with(b".") {
            return Ok(());
        }
        let Ok(name) = str::from_utf8(name) else {
            return Err(io::Error::from(io::ErrorKind::InvalidFilename));
        };
        let path = joined_path(self.rt.alloc(), folder, name)?;
        if name.ends_with(".proto") {
            self.visit_file(walk, path)
        } else {
            // Whether it is a folder is seen when it is visited.
            walk.left.push(path)?;
            Ok(())
        }
    }

    // Notes what a write has left in the folder. A folder of such a name is none of it.
    fn visit_leftover(&self, walk: &mut Walk, folder: &str, second: &str) -> io::Result<()> {
        let path = joined_path(self.rt.alloc(), folder, second)?;
        let full_path = self.full_path(path.as_str())?;
        match look(self.rt, full_path.as_str())? {
            Some(found) if !found.is_dir() => {
                walk.leftovers.push((path, number_of(&found)))?;
                Ok(())
            }
            _ => Ok(()),
        }
    }

    // Notes what has the name of a schema file, if it is a regular file or a folder.
    fn visit_file(&self, walk: &mut Walk, path: String) -> io::Result<()> {
        let full_path = self.full_path(path.as_str())?;
        let Some(found) = look(self.rt, full_path.as_str())? else {
            return Ok(());
        };
        if found.is_dir() {
            walk.left.push(path)?;
        } else if found.is_file() {
            walk.numbers.push(number_of(&found))?;
            walk.files.push(path)?;
            walk.shared_mode &= found.mode();
        }
        Ok(())
    }
}

// Whether a folder was not opened since none has its name.
fn is_no_folder(kind: io::ErrorKind) -> bool {
    matches!(
        kind,
        io::ErrorKind::NotFound | io::ErrorKind::NotADirectory | io::ErrorKind::FilesystemLoop
    )
}
