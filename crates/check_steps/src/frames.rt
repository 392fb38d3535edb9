//! Frames, and how far outward the frames around one have its region.

ghost use Rattle.std.specs.Prelude.{◌++◌, ◌+◌, ◌∷◌, ◌≡◌, ◌≤◌, [], None, OnOk, Some, length, map, slice_get};
ghost use Rattle.check_steps.specs.Frames.{IsChained, Leads, frame_in, frame_of};

use crate::regions::Frame;
use std::alloc::{AllocError, Global};
use std::marker::Model;

/// Where one comes by going outward from a frame past frames of its own region.
#[derive(Clone, Copy)]
pub struct Beyond {
    /// The first frame outward that is not passed, and None where there is none.
    pub to: Option<u32>,
    /// How many frames are passed.
    pub passed: u32,
}

/// A frame, and what is beyond it.
#[derive(Clone, Copy)]
pub(crate) struct KeptFrame {
    pub(crate) frame: Frame,
    pub(crate) beyond: Beyond,
}

/// Frames by their numbers. Clauses see the list of them.
#[derive(Drop)]
pub(crate) struct Frames {
    kept: Vec<KeptFrame>,
}

impl Model for Frames {
    ghost use Rattle.std.specs.Prelude.{List, map};
    ghost use Rattle.check_steps.specs.{Frames.IsChained, Frames.frame_of, declared.regions.Frame.Frame};

    ghost Value = { List Frame };

    ghost view = { λ f. map frame_of f.kept.items };

    ghost invariant = { λ f. IsChained f.kept.items };
}

fn kept_at(kept: &[KeptFrame], number: u32) -> Option<KeptFrame>
    ensures { result ≡ slice_get kept.now number }
{
    kept.get(number as usize).copied()
}

fn beyond_kept(kept: &[KeptFrame], number: u32) -> Beyond
    requires { IsChained kept.now }
    ensures { Leads (map frame_of kept.now) (frame_in (map frame_of kept.now) number).region result.passed
        (frame_in (map frame_of kept.now) number).outer result.to }
{
    match kept_at(kept, number) {
        Some(kept) => kept.beyond,
        None => Beyond {
            to: None,
            passed: 0,
        },
    }
}

/// What is beyond a frame of a region inside an outer one.
#[tactic(auto, unfolding(crate::specs::Frames::Leads))]
fn beyond_outer(kept: &[KeptFrame], region: u32, outer: u32) -> Beyond
    requires { IsChained kept.now }
    ensures { Leads (map frame_of kept.now) region result.passed (Some outer) result.to }
{
    let plain = Beyond {
        to: Some(outer),
        passed: 0,
    };
    match kept_at(kept, outer) {
        None => plain,
        Some(around) => {
            if around.frame.region == region && around.beyond.passed < u32::MAX {
                Beyond {
                    to: around.beyond.to,
                    passed: around.beyond.passed + 1,
                }
            } else {
                plain
            }
        }
    }
}

/// What is beyond a new frame.
#[tactic(auto, unfolding(crate::specs::Frames::Leads))]
fn beyond_new(kept: &[KeptFrame], frame: Frame) -> Beyond
    requires { IsChained kept.now }
    ensures { Leads (map frame_of kept.now) frame.region result.passed frame.outer result.to }
{
    match frame.outer {
        None => Beyond {
            to: None,
            passed: 0,
        },
        Some(outer) => beyond_outer(kept, frame.region, outer),
    }
}

impl Frames {
    /// No frames.
    pub(crate) fn new(alloc: Global) -> Self
        ensures { result ≡ [] }
    {
        Frames {
            kept: Vec::new(alloc),
        }
    }

    /// How many frames there are.
    pub(crate) fn len(&self) -> usize
        ensures { result ≡ length self.now }
    {
        self.kept.len()
    }

    /// A frame, and the outermost where there is none of this number.
    pub(crate) fn frame(&self, number: u32) -> Frame
        ensures { result ≡ frame_in self.now number }
    {
        match self.kept.get(number as usize) {
            Some(kept) => kept.frame,
            None => Frame {
                region: 0,
                outer: None,
                level: 0,
                withs: 0,
            },
        }
    }

    /// What is beyond a frame.
    pub(crate) fn beyond(&self, number: u32) -> Beyond
        ensures { Leads self.now (frame_in self.now number).region result.passed
            (frame_in self.now number).outer result.to }
    {
        beyond_kept(&self.kept, number)
    }

    /// One more frame after the others.
    pub(crate) fn push(&mut self, frame: Frame) -> Result<(), AllocError>
        ensures pushed { OnOk result (self.new ≡ self.old ++ frame ∷ []) }
        ensures at_most { length self.new ≤ length self.old + 1 }
    {
        let beyond = beyond_new(&self.kept, frame);
        self.kept.push(KeptFrame { frame, beyond })?;
        Ok(())
    }
}
