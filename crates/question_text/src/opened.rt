//! The calls that are open while one runs.

ghost use Rattle.std.specs.Prelude.{◌++◌, ◌<◌, ◌≡◌, IfOk, Some, length, option_copied, reverse, slice_get, true};
ghost use Rattle.call_tree.specs.Recording.{starts_of};
ghost use Rattle.cell_names.specs.Places.{finds};
ghost use Rattle.question_text.specs.Frames.{frame_from, frame_of_call, opened_from};

use call_tree::{Call, Calls, FrameStart};
use cell_names::{PlacedPart, PlacedParts};
use std::alloc::{AllocError, Global};

/// The frame of a call: where it begins, with the call's number, and the call that made that one.
#[derive(Clone, Copy)]
pub(crate) struct OpenFrame {
    pub(crate) part: PlacedPart,
    pub(crate) outer: Option<u32>,
}

/// The call of a number, and nothing where there is none.
pub(crate) fn call_at(calls: &Calls, number: u32) -> Option<&Call>
    ensures { option_copied result ≡ slice_get calls.now.calls number }
{
    if number < calls.len() {
        Some(calls.call(number))
    } else {
        None
    }
}

/// Where the frame of a call begins, if there is such a call.
#[inline]
fn start_of(calls: &Calls, number: u32) -> Option<FrameStart>
    ensures { result ≡ slice_get (starts_of calls.now.calls) number }
{
    calls.start_column().get(number as usize).copied()
}

/// The frame of the call of a number, by where it begins.
#[inline]
fn frame_from(number: u32, start: Option<FrameStart>) -> Option<OpenFrame>
    ensures { result ≡ frame_from number start }
{
    match start {
        None => None,
        Some(start) => Some(OpenFrame {
            part: PlacedPart {
                place: start.top,
                number,
            },
            outer: start.parent,
        }),
    }
}

/// The frame of a call, if there is such a call.
#[inline]
pub(crate) fn frame_of(calls: &Calls, call: Option<u32>) -> Option<OpenFrame>
    ensures { result ≡ frame_of_call calls.now.calls call }
{
    match call {
        None => None,
        Some(number) => frame_from(number, start_of(calls, number)),
    }
}

/// What is still to be looked at of the calls around one: the first of them, and of how many at most.
#[derive(Clone, Copy)]
struct Outward {
    at: Option<u32>,
    most: u32,
}

/// Whether a call is the one of this number.
#[inline]
fn is_call(call: Option<u32>, number: u32) -> bool
    ensures { result ≡ true → call ≡ Some number }
{
    match call {
        None => false,
        Some(found) => found == number,
    }
}

/// Adds the frame of a call, and those of the calls around it as long as each was made by the call that was entered
/// just before it. So the next record can be read before the call in this one is known.
fn push_row(
    frames: &mut Vec<PlacedPart>,
    calls: &Calls,
    from: u32,
    most: u32,
) -> Result<Outward, AllocError>
    ensures shorter { IfOk result (λ outward. 0 < most → outward.most < most) }
    ensures added { IfOk result (λ outward. opened_from calls.now.calls outward.most outward.at
        ++ reverse frames.new.items ≡ opened_from calls.now.calls most (Some from) ++ reverse frames.old.items) }
{
    let mut number = from;
    let mut left = most;
    'calls: while left > 0 {
        let before = number.saturating_sub(1);
        left -= 1;
        match frame_of(calls, Some(number)) {
            None => {
                return Ok(Outward {
                    at: None,
                    most: left,
                });
            }
            Some(frame) => {
                frames.push(frame.part)?;
                if is_call(frame.outer, before) {
                    number = before;
                } else {
                    return Ok(Outward {
                        at: frame.outer,
                        most: left,
                    });
                }
            }
        }
    }
    Ok(Outward {
        at: Some(number),
        most: left,
    })
}

/// Where the frames of a call and of those around it begin, from the innermost outward.
fn frames_outward(alloc: Global, calls: &Calls, call: u32) -> Result<Vec<PlacedPart>, AllocError>
    ensures { IfOk result (λ frames. reverse frames.items
        ≡ opened_from calls.now.calls (length calls.now.calls) (Some call)) }
{
    let mut frames = Vec::new(alloc);
    let mut outward = Outward {
        at: Some(call),
        most: calls.len(),
    };
    'rows: while outward.most > 0 {
        match outward.at {
            None => return Ok(frames),
            Some(number) => outward = push_row(&mut frames, calls, number, outward.most)?,
        }
    }
    Ok(frames)
}

/// The calls that are open while one runs, by where their frames begin.
pub fn opened_calls(alloc: Global, calls: &Calls, call: u32) -> Result<PlacedParts, AllocError>
    ensures { IfOk result (λ places. finds places
        ≡ finds (opened_from calls.now.calls (length calls.now.calls) (Some call))) }
{
    let mut frames = frames_outward(alloc, calls, call)?;
    frames.reverse();
    let places = PlacedParts::of(alloc, frames)?;
    Ok(places)
}
