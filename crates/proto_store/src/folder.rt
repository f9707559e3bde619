//! Files in a folder.

ghost use Rattle.std.specs.Prelude.{◌≡◌, ◌⊎◌, ◌+◌, ◌-◌, ◌^◌, ◌<◌, [], IfOk, IsErr, OnErr, OnOk, map, option_map};
ghost use Rattle.std.specs.String.{string_bytes};
ghost use Rattle.proto_base.specs.declared.profile.Profile.TheVariants.{Core};
ghost use Rattle.proto_store.specs.Stores.{AreOf, Counts, HoldsBytes, HoldsJournal, ListsPaths, unknown, with_file, with_journal};

mod foreseeing;
mod walking;

use crate::locking::lock_alone;
use crate::looks::{
    FileNumber, Known, Stamp, bytes_of, digest_of, number_of, open_numbered, regular_file, stamp_of,
};
use crate::replacing::{
    OTHER_SECOND, Place, SECOND, clear_leftover, put_file, refuse_read_only, rights_of, sync_folder,
};
use crate::store::{Store, StoreFault};
use crate::ways::Way;
use proto_base::{MAX_JOURNAL_LEN, MAX_LEN, Profile};
use std::alloc::Global;
use std::collections::{BTreeMap, BTreeSet};
use std::fs::{File, Metadata};
use std::io;
use std::rt::{Clock, Files};
use walking::Walk;

// Names that begin with a dot are passed over, so the journal is never listed.
const JOURNAL: &str = ".protoref-journal";

/// The `.proto` files below a folder, as they lie there, and the file
/// `.protoref-journal` in it. Names that begin with a dot are passed over, and so
/// is all that is neither a folder nor a regular file whose name ends in `.proto`.
/// A root that is the empty word names no folder, so each call fails. No symbolic
/// link below the root is followed; a file that was listed is read where it is still the file that
/// was seen then, and looked for anew where it is another. No contract can say what a folder holds.
///
/// Other programs may write the folder meanwhile. `lock` keeps other runs away that ask for it, and
/// a replace fails where not the file stands that this store has last read or written there. A file
/// of which only names, mode, owner or access list were changed is still that file, for a store that
/// was locked before it read it. A list is of a time at which no folder changed; the first write
/// after it fails where other files would be listed by then.
#[derive(Drop)]
pub struct FolderStore<'a, R: Files + AllocGlobal> {
    rt: &'a R,
    root: &'a str,
    // The language of its files.
    profile: Profile,
    failures: u64,
    // The folder while it is locked.
    locked: Option<File>,
    // Whether digests are kept of what is read: for who has asked for the lock, and so is to write.
    keeps_digests: bool,
    // What is known of each path.
    seen: BTreeMap<String, Seen>,
    // The folders of the last list as they were then, and none once something was written.
    folders: Vec<(String, Stamp)>,
    // How many files that list has.
    listed: usize,
    // The folders with new files that were not brought to the disk since.
    unsynced: BTreeSet<String>,
    // The bits that the modes of all schemas have that were listed.
    shared_mode: u32,
    // The name of the second files that it makes.
    second: &'static str,
    // What was found where leftovers were looked for, for the next list.
    walked: Option<Walk>,
}

// What is known of a path.
#[derive(Clone, Copy)]
enum Seen {
    // A file was listed, which is this one.
    Listed(FileNumber),
    // This was last read or written, or there was no journal.
    Held(Option<Known>),
}

impl<'a, R: Files + Clock + AllocGlobal> FolderStore<'a, R> {
    /// The store of the folder at this path, whose files are of the core language.
    pub fn new(rt: &'a R, root: &'a str) -> FolderStore<'a, R>
        ensures root { result.root.now ≡ root.now }
        ensures failures { result.failures ≡ 0 }
        ensures language { result.profile ≡ Core }
    {
        FolderStore::of_language(rt, root, Profile::Core)
    }

    /// The store of the folder at this path, whose files are of this language.
    pub fn of_language(rt: &'a R, root: &'a str, profile: Profile) -> FolderStore<'a, R>
        ensures root { result.root.now ≡ root.now }
        ensures failures { result.failures ≡ 0 }
        ensures count { ⟦<FolderStore<'a, R> as Store>⟧.failure_count result ≡ 0 }
        ensures language { result.profile ≡ profile }
    {
        FolderStore {
            rt,
            root,
            profile,
            failures: 0,
            locked: None,
            keeps_digests: false,
            seen: BTreeMap::new(rt.alloc()),
            folders: Vec::new(rt.alloc()),
            listed: 0,
            unsynced: BTreeSet::new(rt.alloc()),
            shared_mode: 0o777,
            second: SECOND,
            walked: None,
        }
    }

    /// Removes the files `.protoref-new` and `.protoref-new2` that writes which were cut off have
    /// left, in the root and in each folder below it that `list` goes through. A symbolic link of
    /// such a name goes itself, and a folder stays. What the store holds stays, since `list` passes
    /// over these names. Fails where the root is no folder, or where a folder cannot be read or such
    /// a file not be removed; all others are removed then, and who goes on all the same writes by
    /// the second of these names, beside what was left. It is for who holds the lock: another run
    /// may be writing such a file, and fails where it is gone. Which files go no clause can say: of
    /// what is in a folder beside the store's files nothing is known.
    pub fn clear_leftovers(&mut self) -> Result<(), StoreFault>
        requires { self.old.failures < 2 ^ 64 - 1 }
        ensures same { ⟦<FolderStore<'a, R> as Store>⟧.holds self.new
            ≡ ⟦<FolderStore<'a, R> as Store>⟧.holds self.old }
        ensures nowhere { self.old.root.now ≡ [] → IsErr result }
        ensures root { self.new.root.now ≡ self.old.root.now }
        ensures language { self.new.profile ≡ self.old.profile }
        ensures count { Counts self.old.failures self.new.failures result }
    {
        match self.remove_leftovers() {
            Ok(()) => Ok(()),
            Err(_) => {
                self.second = OTHER_SECOND;
                Err(self.fault())
            }
        }
    }

    // Counts a failure.
    fn fault(&mut self) -> StoreFault
        requires { self.old.failures < 2 ^ 64 - 1 }
        ensures root { self.new.root.now ≡ self.old.root.now }
        ensures language { self.new.profile ≡ self.old.profile }
        ensures count { self.new.failures ≡ self.old.failures + 1 }
    {
        self.failures += 1;
        StoreFault::Failed
    }

    // Notes what is known of a path.
    fn note(&mut self, path: &str, seen: Seen) -> io::Result<()>
        ensures root { self.new.root.now ≡ self.old.root.now }
        ensures language { self.new.profile ≡ self.old.profile }
        ensures failures { self.new.failures ≡ self.old.failures }
    {
        note_seen(self.rt.alloc(), &mut self.seen, path, seen)
    }

    // Notes what was read or written at a path, or that no journal is there.
    fn note_held(
        &mut self,
        path: &str,
        stamp: Option<Stamp>,
        bytes: &[u8],
    ) -> Result<(), StoreFault>
        requires { self.old.failures < 2 ^ 64 - 1 }
        ensures root { self.new.root.now ≡ self.old.root.now }
        ensures language { self.new.profile ≡ self.old.profile }
        ensures count { Counts self.old.failures self.new.failures result }
    {
        let known = match stamp {
            Some(stamp) => Some(self.known(stamp, bytes)),
            None => None,
        };
        match self.note(path, Seen::Held(known)) {
            Ok(()) => Ok(()),
            Err(_) => Err(self.fault()),
        }
    }

    // What is to be known of a file that has these bytes.
    fn known(&self, stamp: Stamp, bytes: &[u8]) -> Known {
        Known {
            stamp,
            digest: if self.keeps_digests {
                Some(digest_of(bytes))
            } else {
                None
            },
        }
    }

    // What has to stand at a path: what was noted of it, or else what a look has found there.
    fn wanted(&self, path: &str, found: Option<Stamp>) -> Option<Known> {
        match (self.seen.get(path), found) {
            (Some(Seen::Held(known)), _) => *known,
            (_, Some(stamp)) => Some(Known {
                stamp,
                digest: None,
            }),
            (_, None) => None,
        }
    }

    // Which file was last listed, read or written at a path.
    fn seen_number(&self, path: &str) -> Option<FileNumber> {
        match self.seen.get(path) {
            Some(Seen::Listed(number)) => Some(*number),
            Some(Seen::Held(Some(known))) => Some(known.stamp.file),
            Some(Seen::Held(None)) | None => None,
        }
    }

    // Removes what lies below the root and was left. What cannot be removed keeps none of the rest.
    fn remove_leftovers(&mut self) -> io::Result<()>
        ensures nowhere { self.old.root.now ≡ [] → IsErr result }
        ensures root { self.new.root.now ≡ self.old.root.now }
        ensures language { self.new.profile ≡ self.old.profile }
        ensures failures { self.new.failures ≡ self.old.failures }
    {
        let walk = self.walk_folders()?;
        let is_clear = self.remove_all(walk.leftovers.as_slice())?;
        self.walked = Some(walk);
        if is_clear {
            Ok(())
        } else {
            Err(io::Error::from(io::ErrorKind::PermissionDenied))
        }
    }

    // Removes these files, and answers whether all of them are gone.
    fn remove_all(&self, leftovers: &[(String, FileNumber)]) -> io::Result<bool> {
        let mut is_clear = true;
        for (path, number) in leftovers {
            let full_path = self.full_path(path.as_str())?;
            is_clear &= clear_leftover(self.rt, full_path.as_str(), *number).is_ok();
        }
        Ok(is_clear)
    }

    // What lies below the root now: what was found where leftovers were looked for, where no folder
    // has changed since.
    fn walk_now(&mut self) -> io::Result<Walk>
        ensures nowhere { self.old.root.now ≡ [] → IsErr result }
        ensures root { self.new.root.now ≡ self.old.root.now }
        ensures language { self.new.profile ≡ self.old.profile }
        ensures failures { self.new.failures ≡ self.old.failures }
    {
        self.refuse_no_root()?;
        if let Some(walk) = self.walked.take() {
            if let Ok(true) = self.are_unchanged(walk.folders.as_slice()) {
                return Ok(walk);
            }
        }
        self.walk_folders()
    }

    // The paths of all schema files, noted.
    fn listed(&mut self) -> io::Result<Vec<String>>
        ensures nowhere { self.old.root.now ≡ [] → IsErr result }
        ensures root { self.new.root.now ≡ self.old.root.now }
        ensures language { self.new.profile ≡ self.old.profile }
        ensures failures { self.new.failures ≡ self.old.failures }
    {
        let walk = self.walk_now()?;
        note_listed(self.rt.alloc(), &mut self.seen, &walk)?;
        self.shared_mode &= walk.shared_mode;
        self.listed = walk.files.len();
        self.folders = walk.folders;
        Ok(walk.files)
    }

    // Before the first write after a list: fails where other files would be listed now. A folder that
    // has changed is walked again, since what is no schema may have come or gone.
    fn check_list(&mut self) -> io::Result<()>
        ensures root { self.new.root.now ≡ self.old.root.now }
        ensures language { self.new.profile ≡ self.old.profile }
        ensures failures { self.new.failures ≡ self.old.failures }
    {
        if !self.are_unchanged(self.folders.as_slice())? {
            let walk = self.walk_folders()?;
            if !self.is_as_listed(&walk) {
                return Err(io::Error::from(io::ErrorKind::AlreadyExists));
            }
        }
        self.folders = Vec::new(self.rt.alloc());
        self.walked = None;
        Ok(())
    }

    // Whether a walk has found the files that were listed last, or read since.
    fn is_as_listed(&self, walk: &Walk) -> bool {
        for (path, number) in walk.files.iter().zip(walk.numbers.iter()) {
            if self.seen_number(path.as_str()) != Some(*number) {
                return false;
            }
        }
        walk.files.len() == self.listed
    }

    // The path from where the program runs. Behind an
    // empty root it would be that of another folder.
    fn full_path(&self, path: &str) -> io::Result<String>
        ensures { self.now.root.now ≡ [] → IsErr result }
    {
        self.refuse_no_root()?;
        joined_path(self.rt.alloc(), self.root, path)
    }

    // Fails where the root is the empty word.
    fn refuse_no_root(&self) -> io::Result<()>
        ensures { self.now.root.now ≡ [] → IsErr result }
    {
        if self.root.is_empty() {
            return Err(io::Error::from(io::ErrorKind::NotFound));
        }
        Ok(())
    }

    // The way into the root, which is a folder or a symbolic link to one.
    fn root_way(&self) -> io::Result<Way>
        ensures { self.now.root.now ≡ [] → IsErr result }
    {
        let root = self.full_path("")?;
        Way::into_root(self.rt, root)
    }

    // The way to a file, where each part before the last is a folder that the walk goes through. That
    // the last is a regular file is for the caller to see.
    fn way_to(&self, path: &str) -> io::Result<Way>
        ensures { self.now.root.now ≡ [] → IsErr result }
    {
        let mut way = self.root_way()?;
        let mut is_root = true;
        for part in path.split('/') {
            if !is_walked_name(part) {
                return Err(io::Error::from(io::ErrorKind::InvalidFilename));
            }
            if !is_root {
                way.enter(self.rt)?;
            }
            is_root = false;
            way.go_to(part)?;
        }
        Ok(way)
    }

    // The bytes of a file, up to the first that is too many.
    fn file_bytes(&self, path: &str) -> io::Result<(Vec<u8>, Stamp)>
        ensures { self.now.root.now ≡ [] → IsErr result }
    {
        if let Some(read) = self.seen_bytes(path)? {
            return Ok(read);
        }
        let way = self.way_to(path)?;
        match regular_file(self.rt, way.path())? {
            Some(found) => self.found_bytes(&way, number_of(&found), MAX_LEN + 1),
            None => Err(io::Error::from(io::ErrorKind::NotFound)),
        }
    }

    // The bytes of a file that was listed or read, where it is still that file: the folders above it
    // need no other look, since what else its path leads to is another file.
    fn seen_bytes(&self, path: &str) -> io::Result<Option<(Vec<u8>, Stamp)>>
        ensures { self.now.root.now ≡ [] → IsErr result }
    {
        let full_path = self.full_path(path)?;
        let Some(number) = self.seen_number(path) else {
            return Ok(None);
        };
        match open_numbered(self.rt, full_path.as_str(), number) {
            Ok((file, found)) => Ok(Some(bytes_of(self.rt, file, &found, MAX_LEN + 1)?)),
            Err(_) => Ok(None),
        }
    }

    // The bytes of a file that a look has found, where the way still leads through the same folders
    // when it is open.
    fn found_bytes(
        &self,
        way: &Way,
        number: FileNumber,
        limit: usize,
    ) -> io::Result<(Vec<u8>, Stamp)> {
        let (file, found) = open_numbered(self.rt, way.path(), number)?;
        way.check(self.rt)?;
        bytes_of(self.rt, file, &found, limit)
    }

    // A file that is not there is none of the list, and is not made.
    fn put_bytes(&mut self, path: &str, bytes: &[u8]) -> io::Result<Stamp>
        ensures nowhere { self.old.root.now ≡ [] → IsErr result }
        ensures root { self.new.root.now ≡ self.old.root.now }
        ensures language { self.new.profile ≡ self.old.profile }
        ensures failures { self.new.failures ≡ self.old.failures }
    {
        self.check_list()?;
        let way = self.way_to(path)?;
        let Some(found) = regular_file(self.rt, way.path())? else {
            return Err(io::Error::from(io::ErrorKind::NotFound));
        };
        refuse_read_only(self.rt, way.path(), &found)?;
        let folder = String::from_str(self.rt.alloc(), way.folder()?)?;
        let _ = self.unsynced.insert(folder)?;
        let place = self.place(path, Some(&found), 0o7777, MAX_LEN + 1);
        let moved = put_file(self.rt, &way, place, bytes)?;
        Ok(stamp_of(&moved))
    }

    // Where a file is put: what has to stand there, and what of it is kept, of the mode these bits.
    fn place(&self, path: &str, found: Option<&Metadata>, bits: u32, limit: usize) -> Place {
        let (stamp, rights) = match found {
            Some(found) => (Some(stamp_of(found)), Some(rights_of(found, bits))),
            None => (None, None),
        };
        Place {
            stands: self.wanted(path, stamp),
            rights,
            bits,
            limit,
            second: self.second,
        }
    }

    fn journal_way(&self) -> io::Result<Way>
        ensures { self.now.root.now ≡ [] → IsErr result }
    {
        let mut way = self.root_way()?;
        way.go_to(JOURNAL)?;
        Ok(way)
    }

    // The bytes of the journal, up to the first that is too many.
    fn journal_bytes(&self) -> io::Result<(Vec<u8>, Option<Stamp>)>
        ensures { self.now.root.now ≡ [] → IsErr result }
    {
        let way = self.journal_way()?;
        let Some(found) = regular_file(self.rt, way.path())? else {
            return Ok((Vec::new(self.rt.alloc()), None));
        };
        let (bytes, stamp) = self.found_bytes(&way, number_of(&found), MAX_JOURNAL_LEN + 1)?;
        Ok((bytes, Some(stamp)))
    }

    // The files that were replaced before are on the disk when the journal is written, and the
    // journal when it is answered.
    fn put_journal(&mut self, bytes: &[u8]) -> io::Result<Stamp>
        ensures nowhere { self.old.root.now ≡ [] → IsErr result }
        ensures root { self.new.root.now ≡ self.old.root.now }
        ensures language { self.new.profile ≡ self.old.profile }
        ensures failures { self.new.failures ≡ self.old.failures }
    {
        self.check_list()?;
        self.sync_folders()?;
        let way = self.journal_way()?;
        let found = regular_file(self.rt, way.path())?;
        let bits = self.shared_mode;
        let place = self.place(JOURNAL, found.as_ref(), bits, MAX_JOURNAL_LEN + 1);
        let moved = put_file(self.rt, &way, place, bytes)?;
        sync_folder(self.rt, way.folder()?)?;
        Ok(stamp_of(&moved))
    }

    // Brings the folders to the disk in which files were replaced.
    fn sync_folders(&mut self) -> io::Result<()>
        ensures root { self.new.root.now ≡ self.old.root.now }
        ensures language { self.new.profile ≡ self.old.profile }
        ensures failures { self.new.failures ≡ self.old.failures }
    {
        for folder in self.unsynced.iter() {
            sync_folder(self.rt, folder.as_str())?;
        }
        self.unsynced = BTreeSet::new(self.rt.alloc());
        Ok(())
    }
}

impl<'a, R: Files<File = File> + Clock + AllocGlobal> FolderStore<'a, R> {
    /// Takes the folder for this store alone, until the store is dropped or the process ends,
    /// however it ends. Nothing is written for it. A store that has the folder keeps it. Waits up to a
    /// second for those that hold a shared lock on it, since they only read, and fails then. Fails, at
    /// once, where another store has it, in this process or in another, and where the root is no
    /// folder or cannot be opened. A file system that has no such locks gives none; the store goes
    /// on without. From then on a digest is kept of what is read, by which a file is known whose bytes
    /// stay. No clause can say that others wait: of what they do nothing is known.
    pub fn lock(&mut self) -> Result<(), StoreFault>
        requires { self.old.failures < 2 ^ 64 - 1 }
        ensures same { ⟦<FolderStore<'a, R> as Store>⟧.holds self.new
            ≡ ⟦<FolderStore<'a, R> as Store>⟧.holds self.old }
        ensures nowhere { self.old.root.now ≡ [] → IsErr result }
        ensures root { self.new.root.now ≡ self.old.root.now }
        ensures language { self.new.profile ≡ self.old.profile }
        ensures count { Counts self.old.failures self.new.failures result }
    {
        match self.folder_locked() {
            Ok(folder) => {
                if folder.is_some() {
                    self.locked = folder;
                }
                self.keeps_digests = true;
                Ok(())
            }
            Err(_) => Err(self.fault()),
        }
    }

    // The folder with its lock, or none where there is nothing to be had.
    fn folder_locked(&self) -> io::Result<Option<File>>
        ensures { self.now.root.now ≡ [] → IsErr result }
    {
        let root = self.root_way()?;
        if self.locked.is_some() {
            return Ok(None);
        }
        let folder = File::open(self.rt, root.path())?;
        if lock_alone(self.rt, &folder)? {
            Ok(Some(folder))
        } else {
            Ok(None)
        }
    }
}

// Notes what is known of a path.
fn note_seen(
    alloc: Global,
    all: &mut BTreeMap<String, Seen>,
    path: &str,
    seen: Seen,
) -> io::Result<()> {
    if let Some(before) = all.get_mut(path) {
        *before = seen;
        return Ok(());
    }
    let path = String::from_str(alloc, path)?;
    let _ = all.insert(path, seen)?;
    Ok(())
}

// Notes which file was listed at a path. What was read or written stays known.
fn note_file(
    alloc: Global,
    all: &mut BTreeMap<String, Seen>,
    path: &str,
    number: FileNumber,
) -> io::Result<()> {
    if let Some(before) = all.get_mut(path) {
        if matches!(before, Seen::Listed(_)) {
            *before = Seen::Listed(number);
        }
        return Ok(());
    }
    let path = String::from_str(alloc, path)?;
    let _ = all.insert(path, Seen::Listed(number))?;
    Ok(())
}

// Notes which files were listed.
fn note_listed(alloc: Global, all: &mut BTreeMap<String, Seen>, walk: &Walk) -> io::Result<()> {
    for (path, number) in walk.files.iter().zip(walk.numbers.iter()) {
        note_file(alloc, all, path.as_str(), *number)?;
    }
    Ok(())
}

// Whether the walk passes over no file or folder of this name.
fn is_walked_name(name: &str) -> bool {
    !name.is_empty() && !name.starts_with('.')
}

// A path below a folder, where either may be empty.
fn joined_path(alloc: Global, folder: &str, path: &str) -> io::Result<String> {
    let len = folder.len().saturating_add(path.len()).saturating_add(1);
    let mut joined = String::with_capacity(alloc, len)?;
    joined.push_str(folder)?;
    if !folder.is_empty() && !path.is_empty() {
        joined.push('/')?;
    }
    joined.push_str(path)?;
    Ok(joined)
}

impl<R: Files + Clock + AllocGlobal> Store for FolderStore<'_, R> {
    ghost holds = { λ _. unknown };

    ghost failure_count = { λ s. s.failures };

    /// The language that it was made for.
    fn profile(&self) -> Profile
        ensures profile { result ≡ self.now.profile }
        ensures files { AreOf result unknown }
    {
        self.profile
    }

    fn list(&mut self) -> Result<Vec<String>, StoreFault>
        requires { self.old.failures < 2 ^ 64 - 1 }
        ensures paths { IfOk result (λ paths. ListsPaths unknown (map string_bytes paths.items)) }
        ensures nowhere { self.old.root.now ≡ [] → IsErr result }
        ensures root { self.new.root.now ≡ self.old.root.now }
        ensures language { self.new.profile ≡ self.old.profile }
        ensures count { Counts self.old.failures self.new.failures result }
    {
        match self.listed() {
            Ok(paths) => Ok(paths),
            Err(_) => Err(self.fault()),
        }
    }

    fn read(&mut self, path: &str) -> Result<Vec<u8>, StoreFault>
        requires { self.old.failures < 2 ^ 64 - 1 }
        ensures bytes { IfOk result (λ bytes. HoldsBytes unknown path.now bytes.items) }
        ensures nowhere { self.old.root.now ≡ [] → IsErr result }
        ensures root { self.new.root.now ≡ self.old.root.now }
        ensures language { self.new.profile ≡ self.old.profile }
        ensures count { Counts self.old.failures self.new.failures result }
    {
        match self.file_bytes(path) {
            Ok((bytes, stamp)) => match self.note_held(path, Some(stamp), bytes.as_slice()) {
                Ok(()) => Ok(bytes),
                Err(fault) => Err(fault),
            },
            Err(_) => Err(self.fault()),
        }
    }

    /// Writes a second file, gives it the owner, the group and the mode of the first, brings it to
    /// the disk, and gives it the name of the first; the folder is brought to the disk before the
    /// journal is written. Fails, with the first as it was, where a second file is there already,
    /// where the first may not be written, and where it is not as this store has last read or
    /// written it.
    fn replace(&mut self, path: &str, bytes: &[u8]) -> Result<(), StoreFault>
        requires { self.old.failures < 2 ^ 64 - 1 }
        ensures ok { OnOk result (unknown ≡ option_map (with_file path.now bytes.now) unknown) }
        ensures err { OnErr result ((unknown ≡ unknown) ⊎
            (unknown ≡ option_map (with_file path.now bytes.now) unknown)) }
        ensures nowhere { self.old.root.now ≡ [] → IsErr result }
        ensures root { self.new.root.now ≡ self.old.root.now }
        ensures language { self.new.profile ≡ self.old.profile }
        ensures count { Counts self.old.failures self.new.failures result }
    {
        match self.put_bytes(path, bytes) {
            Ok(stamp) => self.note_held(path, Some(stamp), bytes),
            Err(_) => Err(self.fault()),
        }
    }

    /// Fails where one of the files or the journal is not as this store has last read or written it,
    /// may not be replaced by this process, has something in the place of its second file, or is a
    /// mount point; and where a file may not be opened for writing. Looks alone are made for it.
    fn may_replace(&mut self, paths: &[&str]) -> Result<(), StoreFault>
        requires { self.old.failures < 2 ^ 64 - 1 }
        ensures nowhere { self.old.root.now ≡ [] → IsErr result }
        ensures root { self.new.root.now ≡ self.old.root.now }
        ensures language { self.new.profile ≡ self.old.profile }
        ensures count { Counts self.old.failures self.new.failures result }
    {
        match self.foresee(paths) {
            Ok(()) => Ok(()),
            Err(_) => Err(self.fault()),
        }
    }

    /// The bytes of `.protoref-journal`. Of one that is
    /// longer than 16,777,216 bytes one byte more than these.
    fn read_journal(&mut self) -> Result<Vec<u8>, StoreFault>
        requires { self.old.failures < 2 ^ 64 - 1 }
        ensures bytes { IfOk result (λ bytes. HoldsJournal unknown bytes.items) }
        ensures nowhere { self.old.root.now ≡ [] → IsErr result }
        ensures root { self.new.root.now ≡ self.old.root.now }
        ensures language { self.new.profile ≡ self.old.profile }
        ensures count { Counts self.old.failures self.new.failures result }
    {
        match self.journal_bytes() {
            Ok((bytes, stamp)) => match self.note_held(JOURNAL, stamp, bytes.as_slice()) {
                Ok(()) => Ok(bytes),
                Err(fault) => Err(fault),
            },
            Err(_) => Err(self.fault()),
        }
    }

    /// As `replace`, and the folder is brought to the disk. Nobody may do with the journal what he may not do with each schema that was
    /// listed, or what he might not do before; one that was not there has besides at most the mode
    /// 0644 but for the umask.
    fn replace_journal(&mut self, bytes: &[u8]) -> Result<(), StoreFault>
        requires { self.old.failures < 2 ^ 64 - 1 }
        ensures ok { OnOk result (unknown ≡ option_map (with_journal bytes.now) unknown) }
        ensures err { OnErr result ((unknown ≡ unknown) ⊎
            (unknown ≡ option_map (with_journal bytes.now) unknown)) }
        ensures nowhere { self.old.root.now ≡ [] → IsErr result }
        ensures root { self.new.root.now ≡ self.old.root.now }
        ensures language { self.new.profile ≡ self.old.profile }
        ensures count { Counts self.old.failures self.new.failures result }
    {
        match self.put_journal(bytes) {
            Ok(stamp) => self.note_held(JOURNAL, Some(stamp), bytes),
            Err(_) => Err(self.fault()),
        }
    }

    fn failures(&self) -> u64
        ensures { result ≡ self.now.failures }
    {
        self.failures
    }
}
