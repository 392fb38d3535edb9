//! Further files, as they are passed.
ghost use Rattle.std.specs.Prelude.{◌≡◌, [], Err, IfOk, None, Some, map};
ghost use Rattle.std.specs.Option.{option_map};
ghost use Rattle.web_page.specs.Turns.{file_given};
ghost use Rattle.web_exports.specs.Files.{cut_at, files_in, first_file, text_in};
ghost use Rattle.web_exports.specs.declared.files.FilesFault.TheVariants as fault;

use crate::FileSizes;
use std::alloc::Global;
use web_page::NamedFile;

/// Why there are no further files.
#[derive(Clone, Copy, Debug)]
pub enum FilesFault {
    /// They do not fill the bytes that are passed, or a name is no text.
    Refused,
    /// Memory ran out.
    Memory,
}

/// The first bytes, so many, and those after them, if there are so many.
fn cut(bytes: &[u8], count: usize) -> Option<(&[u8], &[u8])>
    ensures { option_map (λ it. (it.0.now, it.1.now)) result ≡ cut_at count bytes.now }
{
    if count > bytes.len() {
        return None;
    }
    Some((&bytes[..count], &bytes[count..]))
}

/// The text that bytes are, if they are one.
pub(crate) fn text(bytes: &[u8]) -> Option<&str>
    ensures { option_map (λ it. it.now) result ≡ text_in bytes.now }
{
    match str::from_utf8(bytes) {
        Ok(text) => Some(text),
        Err(_) => None,
    }
}

/// The file at the front, and the bytes after it.
fn file_in(sizes: FileSizes, bytes: &[u8]) -> Option<(NamedFile, &[u8])>
    ensures { option_map (λ it. (file_given it.0, it.1.now)) result ≡ first_file sizes bytes.now }
{
    let (name, rest) = cut(bytes, sizes.name)?;
    let (bytes, rest) = cut(rest, sizes.bytes)?;
    let name = text(name)?;
    Some((NamedFile { name, bytes }, rest))
}

/// All files.
pub(crate) fn named_files<'a>(
    alloc: Global,
    sizes: &[FileSizes],
    bytes: &'a [u8],
) -> Result<Vec<NamedFile<'a>>, FilesFault>
    ensures files { IfOk result (λ files. files_in [] sizes.now bytes.entry.now ≡ Some (map file_given files.items)) }
    ensures refused { result ≡ Err fault.Refused → files_in [] sizes.now bytes.entry.now ≡ None }
{
    let mut files = Vec::new(alloc);
    let mut left = bytes;
    for sizes in sizes {
        let Some((file, rest)) = file_in(*sizes, left) else {
            return Err(FilesFault::Refused);
        };
        if files.push(file).is_err() {
            return Err(FilesFault::Memory);
        }
        left = rest;
    }
    if left.is_empty() {
        Ok(files)
    } else {
        Err(FilesFault::Refused)
    }
}
