//! Answers in the words of the files.

use crate::rows::append_shown;
use std::alloc::AllocError;

/// Words in which each `#` stands for the next one of these numbers.
pub(crate) type Answer = (&'static str, [i64; 3]);

/// Appends an answer, with its numbers in their places.
pub(crate) fn append_answer(answer: Answer, text: &mut Vec<u8>) -> Result<(), AllocError> {
    let (words, numbers) = answer;
    let mut numbers = numbers.iter();
    for part in words.split_inclusive('#') {
        match (part.strip_suffix('#'), numbers.next()) {
            (Some(words), Some(number)) => {
                text.extend_from_slice(words.as_bytes())?;
                append_shown(number, text)?;
            }
            _ => text.extend_from_slice(part.as_bytes())?,
        }
    }
    Ok(())
}
