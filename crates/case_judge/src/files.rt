//! The files of the folder.

use crate::rows::is_row;
use std::alloc::AllocError;
use std::rt::Files;
use std::{fs, str};

/// A file of the folder, by its path in it. One of the index has a word for its kind.
#[derive(Drop)]
pub(crate) struct File<'a> {
    pub(crate) kind: &'a str,
    pub(crate) path: &'a str,
    pub(crate) bytes: Vec<u8>,
}

/// The bytes of the file at a path in a folder, none where it can't be read.
pub(crate) fn read<R: Files + AllocGlobal>(
    rt: &R,
    folder: &str,
    path: &str,
) -> Result<Vec<u8>, AllocError> {
    let full_path = format!(in rt.alloc(); "{folder}/{path}")?;
    match fs::read(rt, full_path.as_str()) {
        Ok(bytes) => Ok(bytes),
        Err(_) => Ok(Vec::new(rt.alloc())),
    }
}

/// The text of these bytes, which is empty where they are not UTF-8.
pub(crate) fn text_of(bytes: &[u8]) -> &str {
    match str::from_utf8(bytes) {
        Ok(text) => text,
        Err(_) => "",
    }
}

/// The files that the index names.
pub(crate) fn read_lists<'a, R: Files + AllocGlobal>(
    rt: &R,
    folder: &str,
    index: &'a str,
) -> Result<Vec<File<'a>>, AllocError> {
    let mut lists = Vec::new(rt.alloc());
    for line in index.lines() {
        if is_row(line) {
            let (kind, path) = line.split_once(' ').unwrap_or((line, ""));
            let bytes = read(rt, folder, path)?;
            lists.push(File { kind, path, bytes })?;
        }
    }
    Ok(lists)
}

/// The path of the file that the text below a heading comes from.
fn path_in(line: &str) -> Option<&str> {
    Some(line.strip_prefix("== ")?.split_once(" from ")?.1)
}

/// Adds the files that texts of a list come from.
fn add_texts<'a, R: Files + AllocGlobal>(
    rt: &R,
    folder: &str,
    list: &'a str,
    texts: &mut Vec<File<'a>>,
) -> Result<(), AllocError> {
    for line in list.lines() {
        if let Some(path) = path_in(line) {
            let bytes = read(rt, folder, path)?;
            texts.push(File {
                kind: "",
                path,
                bytes,
            })?;
        }
    }
    Ok(())
}

/// The files that texts of the lists come from.
pub(crate) fn read_texts<'a, R: Files + AllocGlobal>(
    rt: &R,
    folder: &str,
    lists: &'a [File],
) -> Result<Vec<File<'a>>, AllocError> {
    let mut texts = Vec::new(rt.alloc());
    for list in lists {
        add_texts(rt, folder, text_of(&list.bytes), &mut texts)?;
    }
    Ok(texts)
}

/// The bytes of the file at a path.
pub(crate) fn bytes_at<'a>(texts: &'a [File], path: &str) -> &'a [u8] {
    for text in texts {
        if text.path == path {
            return &text.bytes;
        }
    }
    b""
}
