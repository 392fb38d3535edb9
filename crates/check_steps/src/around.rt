//! Frames, and for one of them which frames are around it: names are looked up there.

ghost use Rattle.std.specs.Prelude.{◌++◌, ◌+◌, ◌∷◌, ◌≡◌, ◌≤◌, [], IfSome, None, OnOk, Some, length, slice_set, true};
ghost use Rattle.check_steps.specs.Around.{Falls, first_around, is_among, is_around, kept_in, later, latest};
ghost use Rattle.check_steps.specs.Frames.{Leads, frame_in};

use crate::frames::{Beyond, Frames};
use crate::regions::Frame;
use std::alloc::{AllocError, Global};
use std::marker::Model;

/// Frames by their numbers. Clauses see the list of them. Beside it stands for one frame which frame of each region is
/// the innermost around it, and for each frame the next one outward of its region, with which one comes back.
#[derive(Drop)]
pub(crate) struct Around {
    frames: Frames,
    /// By frame, the next one outward of its region.
    shadowed: Vec<Option<u32>>,
    /// By region, the innermost frame around the one where names are looked up.
    innermost: Vec<Option<u32>>,
    /// By frame, counted from one, the frame to enter next; in front of them that of no frame.
    links: Vec<u32>,
    /// The frame where names are looked up.
    at: Option<u32>,
    /// Whether the book is kept.
    fits: bool,
}

impl Model for Around {
    ghost use Rattle.std.specs.Prelude.{List};
    ghost use Rattle.check_steps.specs.{Around.IsKept, declared.regions.Frame.Frame};

    ghost Value = { List Frame };

    ghost view = { λ a. a.frames };

    ghost invariant = { λ a. IsKept a.fits a.frames a.shadowed.items a.innermost.items a.at };
}

fn kept_in(kept: &[Option<u32>], number: u32) -> Option<u32>
    ensures { result ≡ kept_in kept.now number }
{
    match kept.get(number as usize) {
        Some(frame) => *frame,
        None => None,
    }
}

fn keep(kept: &mut Vec<Option<u32>>, number: u32, frame: Option<u32>)
    ensures { kept.new.items ≡ slice_set kept.old.items number frame }
{
    let number = number as usize;
    if number < kept.len() {
        kept[number] = frame;
    }
}

fn is_same(left: Option<u32>, right: Option<u32>) -> bool
    ensures { result ≡ true → left ≡ right }
{
    match (left, right) {
        (None, None) => true,
        (Some(left), Some(right)) => left == right,
        _ => false,
    }
}

/// The greater of two numbers, where there is a first one.
#[inline(never)]
fn later(best: Option<u32>, frame: u32) -> Option<u32>
    ensures { result ≡ later best (Some frame) }
{
    match best {
        None => Some(frame),
        Some(a) => if a < frame { Some(frame) } else { best },
    }
}

/// The innermost frame of those that are kept for these regions. Of most regions none is: `later` is not inlined, so
/// that nothing is worked out for these.
#[tactic(auto, using(crate::proofs::Books::later_none))]
fn latest(kept: &[Option<u32>], regions: &[u32]) -> Option<u32>
    ensures { result ≡ latest kept.now regions.now }
{
    let mut best = None;
    'regions: for i in 0..regions.len() {
        let Some(frame) = kept_in(kept, regions[i]) else {
            continue;
        };
        best = later(best, frame);
    }
    best
}

/// Whether what is kept goes on when a frame is added inside of an outer one.
fn goes_on(fits: bool, outer: Option<u32>, at: Option<u32>) -> bool
    ensures kept { result ≡ true → fits ≡ true }
    ensures inside { result ≡ true → outer ≡ at }
{
    fits && is_same(outer, at)
}

/// Whether the first number is there and greater than the second.
fn is_after(left: Option<u32>, right: Option<u32>) -> bool {
    match (left, right) {
        (None, _) => false,
        (Some(_), None) => true,
        (Some(left), Some(right)) => left > right,
    }
}

fn slot_of(frame: Option<u32>) -> usize {
    match frame {
        None => 0,
        Some(number) => (number as usize) + 1,
    }
}

fn link(links: &[u32], frame: Option<u32>) -> u32 {
    match links.get(slot_of(frame)) {
        Some(inner) => *inner,
        None => u32::MAX,
    }
}

fn set_link(links: &mut Vec<u32>, frame: Option<u32>, inner: u32) {
    let slot = slot_of(frame);
    if slot < links.len() {
        links[slot] = inner;
    }
}

impl Around {
    /// No frames.
    pub(crate) fn new(alloc: Global) -> Self
        ensures { result ≡ [] }
    {
        Around {
            frames: Frames::new(alloc),
            shadowed: Vec::new(alloc),
            innermost: Vec::new(alloc),
            links: Vec::new(alloc),
            at: None,
            fits: true,
        }
    }

    /// How many frames there are.
    pub(crate) fn len(&self) -> usize
        ensures { result ≡ length self.now }
    {
        self.frames.len()
    }

    /// A frame, and the outermost where there is none of this number.
    pub(crate) fn frame(&self, number: u32) -> Frame
        ensures { result ≡ frame_in self.now number }
    {
        self.frames.frame(number)
    }

    /// What is beyond a frame.
    pub(crate) fn beyond(&self, number: u32) -> Beyond
        ensures { Leads self.now (frame_in self.now number).region result.passed
            (frame_in self.now number).outer result.to }
    {
        self.frames.beyond(number)
    }

    /// The first frame outward whose region is one of these, where it is known.
    pub(crate) fn first_of(&self, frame: u32, regions: &[u32]) -> Option<Option<u32>>
        ensures { IfSome result (λ first.
            first ≡ first_around (length self.now) self.now (is_among regions.now) (Some frame)) }
    {
        if self.fits && is_same(self.at, Some(frame)) {
            Some(latest(&self.innermost, regions))
        } else {
            None
        }
    }

    /// Whether a frame is known to be of a region or inside of one of its frames: false says nothing.
    pub(crate) fn is_around(&self, frame: u32, region: u32) -> bool
        ensures { result ≡ true → is_around self.now frame region ≡ true }
    {
        if self.fits && is_same(self.at, Some(frame)) {
            kept_in(&self.innermost, region).is_some()
        } else {
            false
        }
    }

    /// Whether each frame is known to come after the one around it: false says nothing.
    pub(crate) fn is_ordered(&self) -> bool
        ensures { result ≡ true → Falls self.now }
    {
        self.fits
    }

    /// Goes from the frame where one is into one inside it, and tells whether it could.
    fn enter(&mut self, number: u32) -> bool
        ensures { self.new ≡ self.old }
    {
        let frame = self.frames.frame(number);
        if self.fits
            && is_same(frame.outer, self.at)
            && (number as usize) < self.frames.len()
            && (frame.region as usize) < self.innermost.len()
        {
            keep(&mut self.innermost, frame.region, Some(number));
            self.at = Some(number);
            true
        } else {
            false
        }
    }

    /// Goes out of the frame where one is, and tells whether it could.
    fn leave(&mut self) -> bool
        ensures { self.new ≡ self.old }
    {
        match self.at {
            None => false,
            Some(number) => {
                let frame = self.frames.frame(number);
                if self.fits && (frame.region as usize) < self.innermost.len() {
                    let shadowed = kept_in(&self.shadowed, number);
                    keep(&mut self.innermost, frame.region, shadowed);
                    self.at = frame.outer;
                    true
                } else {
                    false
                }
            }
        }
    }

    /// The frame around a frame, from which the way leads to it.
    fn mark(&mut self, frame: Option<u32>) -> Option<u32>
        ensures { self.new ≡ self.old }
    {
        match frame {
            None => None,
            Some(number) => {
                let outer = self.frames.frame(number).outer;
                set_link(&mut self.links, outer, number);
                outer
            }
        }
    }

    /// Goes out to a frame that is around this one too, and marks the way from there.
    fn meet(&mut self, frame: Option<u32>)
        ensures { self.new ≡ self.old }
    {
        let mut goal = frame;
        'frames: for _ in 0..u64::MAX {
            if !self.fits || is_same(goal, self.at) {
                break;
            }
            if is_after(goal, self.at) {
                goal = self.mark(goal);
            } else if !self.leave() {
                break;
            }
        }
    }

    /// Goes in on the marked way.
    fn descend(&mut self, frame: Option<u32>)
        ensures { self.new ≡ self.old }
    {
        'frames: for _ in 0..u64::MAX {
            let at = self.at;
            let inner = link(&self.links, at);
            if is_same(frame, at) || !self.enter(inner) {
                break;
            }
        }
    }

    /// Names are looked up in this frame from now on.
    pub(crate) fn come_to(&mut self, frame: Option<u32>)
        ensures { self.new ≡ self.old }
    {
        self.meet(frame);
        self.descend(frame);
    }

    /// Room for one more frame, of this region.
    fn make_room(&mut self, region: u32) -> Result<(), AllocError>
        ensures { self.new ≡ self.old }
    {
        self.links.push(0)?;
        if (region as usize) == self.innermost.len() {
            self.innermost.push(None)?;
            Ok(())
        } else {
            Ok(())
        }
    }

    /// One more frame after the others.
    fn add(&mut self, frame: Frame) -> Result<(), AllocError>
        ensures pushed { OnOk result (self.new ≡ self.old ++ frame ∷ []) }
        ensures at_most { length self.new ≤ length self.old + 1 }
    {
        let fits = goes_on(self.fits, frame.outer, self.at);
        let shadowed = kept_in(&self.innermost, frame.region);
        self.fits = false;
        self.frames.push(frame)?;
        self.shadowed.push(shadowed)?;
        self.fits = fits;
        Ok(())
    }

    /// One more frame after the others.
    pub(crate) fn push(&mut self, frame: Frame) -> Result<(), AllocError>
        ensures pushed { OnOk result (self.new ≡ self.old ++ frame ∷ []) }
        ensures at_most { length self.new ≤ length self.old + 1 }
    {
        self.come_to(frame.outer);
        self.make_room(frame.region)?;
        self.add(frame)?;
        Ok(())
    }
}
