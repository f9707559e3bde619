//! Whether files below the root of a folder store may be replaced, seen without a write.

ghost use Rattle.std.specs.Prelude.{◌≡◌, [], IsErr};

use super::{FolderStore, JOURNAL, joined_path};
use crate::looks::regular_file;
use crate::mounts::mounted_paths;
use crate::replacing::{look_ahead, refuse_read_only};
use proto_base::{MAX_JOURNAL_LEN, MAX_LEN};
use std::collections::BTreeSet;
use std::io;
use std::rt::{Clock, Files};

impl<'a, R: Files + Clock + AllocGlobal> FolderStore<'a, R> {
    // Fails where the journal or a file at one of these paths could not be replaced now.
    pub(super) fn foresee(&self, paths: &[&str]) -> io::Result<()>
        ensures { self.now.root.now ≡ [] → IsErr result }
    {
        let journal = self.journal_way()?;
        let found = regular_file(self.rt, journal.path())?;
        let place = self.place(
            JOURNAL,
            found.as_ref(),
            self.shared_mode,
            MAX_JOURNAL_LEN + 1,
        );
        look_ahead(self.rt, &journal, place)?;
        self.refuse_mounted(paths)?;
        for path in paths {
            self.foresee_file(path)?;
        }
        Ok(())
    }

    // The same of the file at a path.
    fn foresee_file(&self, path: &str) -> io::Result<()> {
        let way = self.way_to(path)?;
        let Some(found) = regular_file(self.rt, way.path())? else {
            return Err(io::Error::from(io::ErrorKind::NotFound));
        };
        refuse_read_only(self.rt, way.path(), &found)?;
        let place = self.place(path, Some(&found), 0o7777, MAX_LEN + 1);
        look_ahead(self.rt, &way, place)
    }

    // Fails where something is mounted at the journal or at one of these paths: that is not renamed
    // over. Whoever does not tell the whole path of the root does not tell of mounts either.
    fn refuse_mounted(&self, paths: &[&str]) -> io::Result<()> {
        let Ok(root) = self.rt.canonicalize(self.rt.alloc(), self.root) else {
            return Ok(());
        };
        let root = root.into_string();
        let mounted = mounted_paths(self.rt)?;
        self.refuse_at(&mounted, root.as_str(), JOURNAL)?;
        for path in paths {
            self.refuse_at(&mounted, root.as_str(), path)?;
        }
        Ok(())
    }

    // The same of a path below the root.
    fn refuse_at(&self, mounted: &BTreeSet<String>, root: &str, path: &str) -> io::Result<()> {
        let whole = joined_path(self.rt.alloc(), root, path)?;
        if mounted.contains(whole.as_str()) {
            return Err(io::Error::from(io::ErrorKind::ResourceBusy));
        }
        Ok(())
    }
}
