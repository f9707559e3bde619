//! The way to a file: its path, and the folders that it leads through.

use crate::looks::{FileNumber, number_of};
use std::alloc::Global;
use std::rt::Files;
use std::{fs, io};

// A path is used whole by each call that takes it, so a folder on it that has become a link since it
// was looked at is followed. Who has opened what is at the path looks at the folders again.
#[derive(Drop)]
pub(crate) struct Way {
    path: String,
    // The folders on it, as they were looked at one by one.
    folders: Vec<(String, FileNumber)>,
}

impl Way {
    // The way into a root, which is a folder or a symbolic link to one.
    pub(crate) fn into_root<R: Files + AllocGlobal>(rt: &R, root: String) -> io::Result<Way> {
        let mut way = Way {
            path: root,
            folders: Vec::new(rt.alloc()),
        };
        // With the slash a link is followed, which no other look does.
        way.path.push('/')?;
        way.note_folder(rt)?;
        Ok(way)
    }

    // Goes on into the folder that it leads to.
    pub(crate) fn enter<R: Files + AllocGlobal>(&mut self, rt: &R) -> io::Result<()> {
        self.note_folder(rt)?;
        self.path.push('/')?;
        Ok(())
    }

    // Goes on to a name in the folder that it has entered.
    pub(crate) fn go_to(&mut self, name: &str) -> io::Result<()> {
        self.path.push_str(name)?;
        Ok(())
    }

    // The whole path.
    pub(crate) fn path(&self) -> &str {
        self.path.as_str()
    }

    // The path of the folder where it ends.
    pub(crate) fn folder(&self) -> io::Result<&str> {
        match self.path.as_str().rsplit_once('/') {
            Some((folder, _)) => Ok(folder),
            None => Err(io::Error::from(io::ErrorKind::InvalidFilename)),
        }
    }

    // The path of another name in that folder.
    pub(crate) fn beside(&self, alloc: Global, name: &str) -> io::Result<String> {
        let mut path = String::from_str(alloc, self.folder()?)?;
        path.push('/')?;
        path.push_str(name)?;
        Ok(path)
    }

    // Fails where a folder on it is none any more, or another one.
    pub(crate) fn check<R: Files>(&self, rt: &R) -> io::Result<()> {
        for (path, number) in self.folders.iter() {
            if folder_number(rt, path.as_str())? != *number {
                return Err(io::Error::from(io::ErrorKind::NotADirectory));
            }
        }
        Ok(())
    }

    // Notes the folder that it leads to.
    fn note_folder<R: Files + AllocGlobal>(&mut self, rt: &R) -> io::Result<()> {
        let number = folder_number(rt, self.path.as_str())?;
        let path = String::from_str(rt.alloc(), self.path.as_str())?;
        self.folders.push((path, number))?;
        Ok(())
    }
}

// The number of the folder at a path. What is none, a symbolic link among it, fails.
fn folder_number<R: Files>(rt: &R, path: &str) -> io::Result<FileNumber> {
    let found = fs::symlink_metadata(rt, path)?;
    if found.is_dir() {
        Ok(number_of(&found))
    } else {
        Err(io::Error::from(io::ErrorKind::NotADirectory))
    }
}
