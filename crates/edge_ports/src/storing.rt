//! A real file is put in the place of another whole: it is written under another name and renamed.
ghost use Rattle.std.specs.{Prelude.◌<◌, Prelude.◌≡◌, Prelude.IfSome, Prelude.IsTrue, Fs.metadata_mode};
ghost use Rattle.edge_ports.specs.Files.{MayReplace, access_mode};

use crate::retries::read_uninterrupted;
use crate::{Memory, StoreFault};
use std::alloc::Global;
use std::fs;
use std::fs::{Metadata, OpenFile, OpenOptions, Permissions};
use std::io::{self, ErrorKind, Read, Write};
use std::os::unix::fs::{MetadataExt, OpenOptionsExt, PermissionsExt};
use std::random::RandomSource;
use std::rt::Files;

/// How many names are tried for a new file.
const SIDE_NAMES: u64 = 1_000;

/// How many bytes at the front of a file say what it is.
const FRONT: usize = 10;

/// The mode of a file that is new, less what the process leaves out of each.
const NEW_MODE: u32 = 0o666;

/// Whether the file that is read may be replaced by one with these bytes: it is empty, or begins as they do. A file
/// that can't be read may not.
fn may_replace<R: Read>(reader: &mut R, bytes: &[u8]) -> bool
    ensures { IsTrue result → IfSome (R.remaining reader.old) (λ all. MayReplace all bytes.now) }
{
    let mut front = [0u8; FRONT];
    match read_uninterrupted(reader, &mut front) {
        Ok(0) => true,
        Ok(FRONT) => bytes.starts_with(&front),
        Ok(_) | Err(_) => false,
    }
}

/// Who may read, write and run the file, as the last nine bits of its mode say. What would let it run as its owner or
/// its group is left out: the file that takes its place may belong to someone else.
fn kept_mode(metadata: &Metadata) -> u32
    ensures mode { result ≡ access_mode (metadata_mode metadata.now) }
    ensures plain { result < 512 }
{
    metadata.mode() % 0o1000
}

/// Whether the file that this metadata is of has one of these names too.
fn has_name_among<R: Files>(files: &R, names: &[String], metadata: &Metadata) -> bool {
    for name in names {
        if let Ok(named) = fs::metadata(files, name.as_str()) {
            if named.dev() == metadata.dev() && named.ino() == metadata.ino() {
                return true;
            }
        }
    }
    false
}

/// Whether one of the names is this one.
fn is_among(names: &[String], name: &str) -> bool {
    for it in names {
        if it.as_str() == name {
            return true;
        }
    }
    false
}

/// The mode that a file keeps which takes the place of the regular file of this name, if there is one. It fails where
/// something else is there, where that file is spared, where it may not be read and written, and where it may not be
/// replaced by one with these bytes.
fn replaced_mode<R: Files>(
    files: &R,
    spared: &[String],
    name: &str,
    bytes: &[u8],
) -> Result<Option<u32>, StoreFault> {
    let metadata = match fs::metadata(files, name) {
        Ok(metadata) => metadata,
        Err(error) if error.kind() == ErrorKind::NotFound => return Ok(None),
        Err(_) => return Err(StoreFault::Failed),
    };
    if !metadata.is_file() || has_name_among(files, spared, &metadata) {
        return Err(StoreFault::Failed);
    }
    let Ok(mut file) = OpenOptions::new().read(true).write(true).open(files, name) else {
        return Err(StoreFault::Failed);
    };
    if may_replace(&mut file, bytes) {
        Ok(Some(kept_mode(&metadata)))
    } else {
        Err(StoreFault::Failed)
    }
}

/// A name in the folder of this one, by a number.
fn side_name(alloc: Global, name: &str, number: u64) -> Result<String, Memory> {
    match name.rsplit_once('/') {
        Some((folder, _)) => format!(in alloc; "{folder}/.store-{number}"),
        None => format!(in alloc; ".store-{number}"),
    }
}

/// A number that nobody foretells, or 0 where the system gives none.
fn first_number<R: RandomSource>(random: &R) -> u64 {
    let mut bytes = [0; 8];
    match random.fill_bytes(&mut bytes) {
        Ok(()) => u64::from_le_bytes(bytes),
        Err(_) => 0,
    }
}

/// Makes a new file in the folder of this name, under the first name that is free from a random one on, and answers
/// that name. It has this mode from its beginning, so that it is never open to more than it is to be.
fn create_beside<R: Files + RandomSource>(
    files: &R,
    alloc: Global,
    name: &str,
    mode: Option<u32>,
) -> Result<(String, R::File), StoreFault> {
    let first = first_number(files);
    let mut options = OpenOptions::new();
    options
        .write(true)
        .create_new(true)
        .mode(mode.unwrap_or(NEW_MODE));
    for number in 0..SIDE_NAMES {
        let Ok(side) = side_name(alloc, name, first.wrapping_add(number)) else {
            return Err(StoreFault::Memory);
        };
        match options.open(files, side.as_str()) {
            Ok(file) => return Ok((side, file)),
            Err(error) if error.kind() == ErrorKind::AlreadyExists => {}
            Err(_) => return Err(StoreFault::Failed),
        }
    }
    Err(StoreFault::Failed)
}

/// Writes the bytes into a new file, with this mode if there is one, and waits until the device has them.
fn fill<F: Write + OpenFile + Drop>(
    mut file: F,
    mode: Option<u32>,
    bytes: &[u8],
) -> io::Result<()> {
    if let Some(mode) = mode {
        file.set_permissions(Permissions::from_mode(mode))?;
    }
    file.write_all(bytes)?;
    file.sync_all()
}

/// Puts a file of this name and these bytes in the place of the one that is there, if that is empty or begins with the
/// same ten bytes, and none of the spared names is this one or has the same file. The new one is written beside it, and
/// renamed once the device has it whole; where that fails, it is removed.
pub fn replace_file<R: Files + RandomSource>(
    files: &R,
    alloc: Global,
    spared: &[String],
    name: &str,
    bytes: &[u8],
) -> Result<(), StoreFault> {
    if is_among(spared, name) {
        return Err(StoreFault::Failed);
    }
    let mode = replaced_mode(files, spared, name, bytes)?;
    let (side, file) = create_beside(files, alloc, name, mode)?;
    let done = match fill(file, mode, bytes) {
        Ok(()) => fs::rename(files, side.as_str(), name),
        Err(error) => Err(error),
    };
    match done {
        Ok(()) => Ok(()),
        Err(_) => {
            // The file that was there stays, and that counts: a new one that cannot be removed is left.
            let _ = fs::remove_file(files, side.as_str());
            Err(StoreFault::Failed)
        }
    }
}
