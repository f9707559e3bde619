//! Putting a file in the place of another, whole or not at all.

use crate::looks::{
    FileNumber, Known, bytes_of, digest_of, look, number_of, open_numbered, regular_file, stamp_of,
};
use crate::ways::Way;
use std::fs::{File, Metadata, OpenFile, OpenOptions, Permissions};
use std::io::Write;
use std::os::unix::fs::{MetadataExt, OpenOptionsExt, PermissionsExt, lchown};
use std::rt::Files;
use std::{fs, io};

// Lies beside the file that is replaced. Its name begins with a dot, so it is never listed, and is
// short, so it fits where the other name does.
pub(crate) const SECOND: &str = ".protoref-new";

// The same beside one that was left and cannot be removed.
pub(crate) const OTHER_SECOND: &str = ".protoref-new2";

// The mode of a file until it has that of the file that it replaces.
const SECRET_MODE: u32 = 0o600;

// The mode of a file where none was, but for bits that it is not to have.
const NEW_MODE: u32 = 0o644;

// How often a file is looked at that is still the same, but for its names, mode or owner.
const MOST_LOOKS: u32 = 16;

// Where and how a file is put.
#[derive(Clone, Copy)]
pub(crate) struct Place {
    // What has to stand there, none where nothing is to.
    pub(crate) stands: Option<Known>,
    // What the new file keeps of it.
    pub(crate) rights: Option<Rights>,
    // The bits that its mode may have.
    pub(crate) bits: u32,
    // How many bytes of what stands there are read to tell it from others.
    pub(crate) limit: usize,
    // The name that the new file has until it is there.
    pub(crate) second: &'static str,
}

// Whose a file is, and its mode.
#[derive(Clone, Copy, PartialEq, Eq)]
pub(crate) struct Rights {
    owner: (u32, u32),
    mode: u32,
}

// What is kept of a file, of its mode these bits.
pub(crate) fn rights_of(found: &Metadata, bits: u32) -> Rights {
    Rights {
        owner: (found.uid(), found.gid()),
        mode: found.mode() & bits,
    }
}

// The name of a second file that these bytes are.
pub(crate) fn second_named(name: &[u8]) -> Option<&'static str> {
    if name == SECOND.as_bytes() {
        Some(SECOND)
    } else if name == OTHER_SECOND.as_bytes() {
        Some(OTHER_SECOND)
    } else {
        None
    }
}

// Fails where the file at a path, which a look has found, may not be written.
pub(crate) fn refuse_read_only<R: Files>(rt: &R, path: &str, found: &Metadata) -> io::Result<()> {
    if found.permissions().readonly() {
        return Err(io::Error::from(io::ErrorKind::PermissionDenied));
    }
    OpenOptions::new().write(true).open(rt, path)?;
    Ok(())
}

// Fails where a file could not be put where a way leads, as far as that is seen without a write: where
// a second file is there, where something else stands than is to, or where that may not be renamed
// over.
pub(crate) fn look_ahead<R: Files + AllocGlobal>(
    rt: &R,
    way: &Way,
    place: Place,
) -> io::Result<()> {
    let second = way.beside(rt.alloc(), place.second)?;
    if look(rt, second.as_str())?.is_some() {
        return Err(io::Error::from(io::ErrorKind::AlreadyExists));
    }
    let now = place_now(rt, way.path(), place)?;
    if now.stands.is_some() {
        refuse_fixed(rt, way.path())?;
    }
    Ok(())
}

// Fails where a regular file may not be removed from its folder, and so not be renamed over. The
// system removes no file by the call for empty folders; to who might remove it, it answers that it is
// no folder.
fn refuse_fixed<R: Files>(rt: &R, path: &str) -> io::Result<()> {
    match fs::remove_dir(rt, path) {
        Err(error) if error.kind() == io::ErrorKind::NotADirectory => Ok(()),
        Err(error) => Err(error),
        Ok(()) => Err(io::Error::from(io::ErrorKind::NotFound)),
    }
}

// Puts a file of these bytes where a way leads, and answers how it stands there. The file at the
// path is the old one or the whole new one at any time, and the new one is on the disk before it is
// there; that the folder names it is for the caller to bring to the disk. It fails where a second
// file is already there, which is another run's or was left, where something else stands at the
// path than is to, and where the way leads elsewhere by now. What it has made it takes away then.
pub(crate) fn put_file<R: Files + AllocGlobal>(
    rt: &R,
    way: &Way,
    place: Place,
    bytes: &[u8],
) -> io::Result<Metadata> {
    let second = way.beside(rt.alloc(), place.second)?;
    let mut file = new_second(rt, second.as_str(), place)?;
    match move_in(rt, &mut file, (second.as_str(), way), place, bytes) {
        Ok(moved) => Ok(moved),
        Err(error) => {
            take_away(rt, &file, second.as_str());
            Err(error)
        }
    }
}

// Not every file system can bring a folder to the disk.
pub(crate) fn sync_folder<R: Files>(rt: &R, folder: &str) -> io::Result<()> {
    match File::open(rt, folder)?.sync_all() {
        Err(error) if error.kind() != io::ErrorKind::InvalidInput => Err(error),
        _ => Ok(()),
    }
}

// Removes what an earlier run has left, where it is still what was listed: a file, or a symbolic
// link, which goes itself and not what it leads to.
pub(crate) fn clear_leftover<R: Files>(rt: &R, path: &str, number: FileNumber) -> io::Result<()> {
    match look(rt, path)? {
        Some(found) if number_of(&found) == number => fs::remove_file(rt, path),
        Some(_) => Err(io::Error::from(io::ErrorKind::AlreadyExists)),
        None => Ok(()),
    }
}

// Makes the second file where none is.
fn new_second<R: Files>(rt: &R, path: &str, place: Place) -> io::Result<R::File> {
    let mut options = OpenOptions::new();
    options.write(true).create_new(true);
    options.mode(if place.rights.is_some() {
        SECRET_MODE
    } else {
        NEW_MODE & place.bits
    });
    options.open(rt, path)
}

// Takes the second file away, if it is still the one that was made.
fn take_away<R: Files>(rt: &R, file: &R::File, second: &str) {
    if let Ok(true) = is_made_here(rt, file, second) {
        let _ = fs::remove_file(rt, second);
    }
}

fn is_made_here<R: Files>(rt: &R, file: &R::File, second: &str) -> io::Result<bool> {
    let made = file.metadata()?;
    match look(rt, second)? {
        Some(found) => Ok(number_of(&made) == number_of(&found)),
        None => Ok(false),
    }
}

// Fills the second file and renames it, if at both paths stands what is to.
fn move_in<R: Files + AllocGlobal>(
    rt: &R,
    file: &mut R::File,
    (second, way): (&str, &Way),
    place: Place,
    bytes: &[u8],
) -> io::Result<Metadata> {
    file.write_all(bytes)?;
    fit(rt, file, second, place)?;
    way.check(rt)?;
    fit_to_last_look(rt, file, (second, way.path()), place)?;
    if !is_made_here(rt, file, second)? {
        return Err(io::Error::from(io::ErrorKind::AlreadyExists));
    }
    fs::rename(rt, second, way.path())?;
    // The rename has changed its times.
    file.metadata()
}

// Looks at the path until what stands there is as it was at the look before, and gives the second
// file what it keeps of that. Fails where it is another file, or has other bytes.
fn fit_to_last_look<R: Files + AllocGlobal>(
    rt: &R,
    file: &R::File,
    (second, path): (&str, &str),
    place: Place,
) -> io::Result<()> {
    let mut place = place;
    for _ in 0..MOST_LOOKS {
        let now = place_now(rt, path, place)?;
        if now.rights != place.rights {
            fit(rt, file, second, now)?;
        } else if now.stands == place.stands {
            return Ok(());
        }
        place = now;
    }
    Err(io::Error::from(io::ErrorKind::AlreadyExists))
}

// The place as it is now, where what stands there is still what is to.
fn place_now<R: Files + AllocGlobal>(rt: &R, path: &str, place: Place) -> io::Result<Place> {
    match (regular_file(rt, path)?, place.stands) {
        (None, None) => Ok(place),
        (Some(found), Some(known)) => {
            let stands = known_now(rt, path, known, &found, place.limit)?;
            Ok(Place {
                stands: Some(stands),
                rights: Some(rights_of(&found, place.bits)),
                bits: place.bits,
                limit: place.limit,
                second: place.second,
            })
        }
        _ => Err(io::Error::from(io::ErrorKind::AlreadyExists)),
    }
}

// A known file as it is found now. Where the time of its last change alone is another, its bytes are
// read again. Fails where it is another file or has other bytes, and where no digest of them is kept.
fn known_now<R: Files + AllocGlobal>(
    rt: &R,
    path: &str,
    known: Known,
    found: &Metadata,
    limit: usize,
) -> io::Result<Known> {
    let stamp = stamp_of(found);
    if stamp == known.stamp {
        return Ok(known);
    }
    if known.digest.is_some() && stamp.is_written_as(known.stamp) {
        let (file, opened) = open_numbered(rt, path, stamp.file)?;
        let (bytes, _) = bytes_of(rt, file, &opened, limit)?;
        if known.digest == Some(digest_of(bytes.as_slice())) {
            return Ok(Known {
                stamp,
                digest: known.digest,
            });
        }
    }
    Err(io::Error::from(io::ErrorKind::AlreadyExists))
}

// Gives the second file the owner and the mode that it is to have, and brings it to the disk.
fn fit<R: Files>(rt: &R, file: &R::File, second: &str, place: Place) -> io::Result<()> {
    if let Some(rights) = place.rights {
        let made = file.metadata()?;
        if (made.uid(), made.gid()) != rights.owner {
            give_to(rt, second, rights.owner);
        }
        // A file that changes its owner loses bits of its mode.
        file.set_permissions(Permissions::from_mode(rights.mode))?;
    }
    file.sync_all()
}

// Sets owner and group, or the group alone, where the process may.
fn give_to<R: Files>(rt: &R, path: &str, (user, group): (u32, u32)) {
    if lchown(rt, path, Some(user), Some(group)).is_err() {
        let _ = lchown(rt, path, None, Some(group));
    }
}
