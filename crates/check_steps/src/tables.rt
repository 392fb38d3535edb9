//! The tables that a check fills.

ghost use Rattle.std.specs.Prelude.{◌++◌, ◌+◌, ◌<◌, ◌^◌, ◌∷◌, ◌≡◌, ℕ, IfOk, IfSome, None, OnOk, Some, length, true};
ghost use Rattle.check_steps.specs.{Around.Falls, Around.is_around, Frames.Leads, Headings.congruous, Names.usable};
ghost use Rattle.check_steps.specs.Known.{and_choice, and_control, and_definition, and_frame, and_label, and_region};
ghost use Rattle.check_steps.specs.Known.{and_routine, and_threat, find, find_label, found_in, frame_at, in_block};
ghost use Rattle.check_steps.specs.Known.{is_chosen, is_control, label_at, line_at, name_at, row_at, spelled_at};
ghost use Rattle.check_steps.specs.Known.{threat_of, type_at, with_routine, with_row, without_control, word_at};
ghost use Rattle.check_steps.specs.Regions.{declared_in, defined_in, region_at};
ghost use Rattle.check_steps.specs.Words.{known_at_start, number_of_name};
ghost use Rattle.check_steps.specs.declared.{recent.Recalled.Recalled, regions.Found.Found};

use crate::around::Around;
use crate::compared::Compared;
use crate::frames::Beyond;
use crate::keyed::Keyed;
use crate::recent::{FromFrame, Recalled, Recent};
use crate::regions::{Definition, Found, Frame, Span};
use crate::scopes::Scopes;
use crate::threats::Threats;
use crate::words::{REQUIRED_NAMES, Spelled, SpelledToken, names, texts, words};
use core_program::rows::{Row, TypeRow};
use core_program::{ProgramTables, Routine};
use indexmap::IndexSet;
use pas_lexer::Tokens;
use std::alloc::{AllocError, Global};
use std::marker::Model;

/// What is looked up in so few steps is not recalled.
const FEW: usize = 64;
/// So many frames outward is what uses of a name close to one another find first.
const NEAR: usize = 4;
/// So many frames outward is looked for what is recalled.
const FAR: usize = 256;

/// Whether something is recalled for this frame.
fn is_of(recalled: Option<Recalled>, frame: u32) -> bool {
    match recalled {
        Some(recalled) => recalled.near.frame == frame || recalled.far.frame == frame,
        None => false,
    }
}

/// What is known of a program.
#[derive(Drop)]
pub struct Tables {
    names: IndexSet<Vec<u8>, Keyed>,
    words: Vec<SpelledToken>,
    program: Compared,
    regions: Scopes,
    frames: Around,
    recent: Recent,
    controls: Vec<u32>,
    threats: Threats,
    block: Span,
    choices: IndexSet<(u32, i32), Keyed>,
}

impl Model for Tables {
    ghost use Rattle.std.specs.Prelude.{◌+◌, ◌<◌, ◌^◌, length, map, vec_len};
    ghost use Rattle.indexmap.specs.IndexSet.{index_set_len};
    ghost use Rattle.check_steps.specs.{Known.Known, Recent.AreRecalled};

    ghost Value = { Known };

    ghost view = { λ t. record {
      names = map (λ v. v.items) t.names.keys;
      words = t.words.items;
      program = t.program;
      regions = t.regions;
      frames = t.frames;
      controls = t.controls.items;
      threats = t.threats;
      block = t.block;
      choices = t.choices.keys;
    } };

    ghost invariant = { λ t. (length t.regions < 2 ^ 32) × (length t.frames < 2 ^ 32)
        × (vec_len t.words + 26 < 2 ^ 32) × (index_set_len t.names < 2 ^ 32)
        × AreRecalled t.regions t.frames t.recent };
}

impl Tables {
    /// What is known of a program before anything is checked. Of more than 4,294,967,269 tokens, or of more names than
    /// a `u32` counts, there are no tables, which counts as out of memory.
    pub fn new(alloc: Global, tokens: &Tokens) -> Result<Self, AllocError>
        ensures { IfOk result (λ t. t ≡ known_at_start tokens.now) }
    {
        let count = tokens.len();
        if count >= u32::MAX - REQUIRED_NAMES {
            return Err(AllocError);
        }
        let keyed = Keyed::of(tokens);
        let names = names(alloc, keyed, tokens)?;
        if names.len() > u32::MAX as usize {
            return Err(AllocError);
        }
        let words = words(alloc, &names, tokens)?;
        let texts = texts(alloc, tokens)?;
        let program = ProgramTables::new(alloc, (count + REQUIRED_NAMES) as usize, texts)?;
        let threats = Threats::new(alloc, count)?;
        Ok(Tables {
            names,
            words,
            program: Compared::new(alloc, program),
            regions: Scopes::new(alloc, keyed),
            frames: Around::new(alloc),
            recent: Recent::new(alloc),
            controls: Vec::new(alloc),
            threats,
            block: Span {
                first: 0,
                statements: 0,
            },
            choices: IndexSet::with_hasher(alloc, keyed),
        })
    }

    /// How many tokens there are. After their numbers come those of the 26 required names.
    pub fn tokens(&self) -> u32
        ensures count { result ≡ length self.now.words }
        ensures room { result + 26 < 2 ^ 32 }
    {
        self.words.len() as u32
    }

    /// The number of a name, and None where no token spells it and it is not required.
    pub fn number_of(&self, name: &[u8]) -> Option<u32>
        ensures { result ≡ number_of_name self.now.names name.now }
    {
        match self.names.get_index_of(name) {
            Some(number) => Some(number as u32),
            None => None,
        }
    }

    /// What a token is.
    pub fn word(&self, token: u32) -> SpelledToken
        ensures { result ≡ word_at self.now token }
    {
        match self.words.get(token as usize) {
            Some(word) => *word,
            None => SpelledToken {
                spelled: Spelled::Other,
                line: 0,
            },
        }
    }

    /// What a token spells.
    pub fn spelled(&self, token: u32) -> Spelled
        ensures { result ≡ spelled_at self.now token }
    {
        self.word(token).spelled
    }

    /// The line on which a token stands.
    pub fn line(&self, token: u32) -> u32
        ensures { result ≡ line_at self.now token }
    {
        self.word(token).line
    }

    /// The number of the name that a token spells.
    pub fn name(&self, token: u32) -> u32
        ensures { result ≡ name_at self.now token }
    {
        match self.spelled(token) {
            Spelled::Name(name) => name,
            _ => 0,
        }
    }

    /// The value of the label that a token spells.
    pub fn label(&self, token: u32) -> u32
        ensures { result ≡ label_at self.now token }
    {
        match self.spelled(token) {
            Spelled::Number(value) => value,
            _ => 0,
        }
    }

    /// What stands at a number.
    pub fn row(&self, number: u32) -> Row
        ensures { result ≡ row_at self.now number }
    {
        self.program.row(number)
    }

    /// The type of a number, and None where a broken rule leaves it unknown.
    pub fn type_row(&self, number: u32) -> Option<TypeRow>
        ensures { result ≡ type_at self.now number }
    {
        self.program.type_row(number)
    }

    /// The program as far as it is known.
    pub fn program(&self) -> &ProgramTables
        ensures { result.now ≡ self.now.program }
    {
        self.program.program()
    }

    /// Gives up all but the tables of the program.
    pub fn into_program(self) -> ProgramTables
        ensures { result ≡ self.program }
    {
        self.program.into_program()
    }

    /// Puts a row at a number.
    pub fn put(&mut self, number: u32, row: Row)
        ensures { self.new ≡ with_row self.old number row }
    {
        self.program.put(number, row);
    }

    /// Whether two headings are of one kind and result type, with congruous lists of parameters. A type that is unknown
    /// is the same as any, and no list has more sections than there are tokens.
    pub fn congruous(&mut self, left: u32, right: u32) -> bool
        ensures answer { result ≡ congruous (length self.old.words) self.old.program left right }
        ensures same { self.new ≡ self.old }
    {
        let most = self.tokens();
        self.program.congruous(most, left, right)
    }

    /// Puts a routine at a number.
    pub fn put_routine(&mut self, number: u32, routine: Routine)
        ensures { self.new ≡ with_routine self.old number routine }
    {
        self.program.put_routine(number, routine);
    }

    /// A new routine after the others, by its number.
    pub fn add_routine(&mut self, routine: Routine) -> Result<u32, AllocError>
        ensures number { IfOk result (λ n. n ≡ length self.old.program.routines) }
        ensures added { OnOk result (self.new ≡ and_routine self.old routine) }
    {
        let number = self.program.add_routine(routine)?;
        Ok(number)
    }

    /// A new frame after the others, by its number. Of 4,294,967,295 frames there is none after the last, which counts
    /// as out of memory.
    #[tactic(auto, using(crate::proofs::Recalls::forgotten))]
    pub fn open_frame(&mut self, frame: Frame) -> Result<u32, AllocError>
        ensures number { IfOk result (λ n. n ≡ length self.old.frames) }
        ensures opened { OnOk result (self.new ≡ and_frame self.old frame) }
    {
        let number = self.frames.len();
        if number >= u32::MAX as usize {
            return Err(AllocError);
        }
        self.recent.keep_if(self.frames.is_ordered());
        match self.frames.push(frame) {
            Ok(()) => Ok(number as u32),
            Err(error) => {
                self.recent.forget();
                Err(error)
            }
        }
    }

    /// How many regions there are.
    pub fn regions(&self) -> u32
        ensures { result ≡ length self.now.regions }
    {
        self.regions.len() as u32
    }

    /// The token at which a region begins, and 0 where there is no region of this number.
    pub fn region_token(&self, region: u32) -> u32
        ensures { result ≡ (region_at self.now.regions region).token }
    {
        self.regions.token(region)
    }

    /// A region's own frame, and 0, the outermost one, where there is no region of this number.
    pub fn region_frame(&self, region: u32) -> u32
        ensures { result ≡ (region_at self.now.regions region).frame }
    {
        self.regions.frame(region)
    }

    /// What a region itself defines a name as.
    pub fn defined_in(&self, region: u32, name: u32) -> Option<Definition>
        ensures { result ≡ defined_in self.now.regions region name }
    {
        self.regions.defined_in(region, name)
    }

    /// The token at which a region itself declares a label of this value.
    pub fn declared_in(&self, region: u32, value: u32) -> Option<u32>
        ensures { result ≡ declared_in self.now.regions region value }
    {
        self.regions.declared_in(region, value)
    }

    /// A frame, and the outermost where there is none of this number.
    pub fn frame(&self, number: u32) -> Frame
        ensures { result ≡ frame_at self.now number }
    {
        self.frames.frame(number)
    }

    /// What is beyond a frame: where one comes by going outward from it past frames of its own region.
    pub fn beyond(&self, number: u32) -> Beyond
        ensures { Leads self.now.frames (frame_at self.now number).region result.passed
            (frame_at self.now number).outer result.to }
    {
        self.frames.beyond(number)
    }

    /// Whether a frame is known to be of a region or inside of one of its frames: false says nothing.
    pub fn is_around(&self, frame: u32, region: u32) -> bool
        ensures { result ≡ true → is_around self.now.frames frame region ≡ true }
    {
        self.frames.is_around(frame, region)
    }

    /// What the region of a frame itself defines a name as.
    fn found_in(&self, frame: u32, name: u32) -> Option<Found>
        ensures { result ≡ found_in self.now frame name }
    {
        match self.defined_in(self.frame(frame).region, name) {
            Some(definition) => Some(Found { definition, frame }),
            None => None,
        }
    }

    /// How many frames there are.
    fn frames(&self) -> usize
        ensures { result ≡ length self.now.frames }
    {
        self.frames.len()
    }

    /// Names are looked up in this frame from now on: what is known of a program stays the same.
    pub fn come_to(&mut self, frame: u32)
        ensures { self.new ≡ self.old }
    {
        self.frames.come_to(Some(frame));
    }

    /// The definition in the closest region around, by a way through all frames.
    #[tactic(auto, using(crate::proofs::Outward::outward))]
    fn find_outward(&self, frame: u32, name: u32) -> Option<Found>
        ensures { result ≡ find self.now frame name }
    {
        let mut at = Some(frame);
        let mut left = self.frames();
        'frames: while left > 0 {
            let Some(number) = at else {
                return None;
            };
            if let Some(found) = self.found_in(number, name) {
                return Some(found);
            }
            let beyond = self.beyond(number);
            at = beyond.to;
            left = (left - 1).saturating_sub(beyond.passed as usize);
        }
        None
    }

    /// The first frame outward whose region may define a name, where it is known.
    fn first_home(&self, frame: u32, name: u32) -> Option<Option<u32>>
        ensures nowhere { result ≡ Some None → find self.now frame name ≡ None }
        ensures there { (f : ℕ) (found : Found) → result ≡ Some (Some f) → found_in self.now f name ≡ Some found
            → find self.now frame name ≡ Some found }
    {
        self.frames.first_of(frame, self.regions.homes(name))
    }

    /// The definition in the region of the frame itself.
    #[tactic(auto, using(crate::proofs::Outward::outward))]
    fn find_here(&self, frame: u32, name: u32) -> Option<Found>
        ensures { (found : Found) → result ≡ Some found → find self.now frame name ≡ Some found }
    {
        if self.frames() > 0 {
            self.found_in(frame, name)
        } else {
            None
        }
    }

    /// The definition in the closest region around, by the regions that may define the name.
    fn find_home(&self, frame: u32, name: u32) -> Option<Found>
        ensures { result ≡ find self.now frame name }
    {
        match self.first_home(frame, name) {
            None => self.find_outward(frame, name),
            Some(None) => None,
            Some(Some(first)) => match self.found_in(first, name) {
                Some(found) => Some(found),
                None => self.find_outward(frame, name),
            },
        }
    }

    /// About how many steps it takes to go outward through all blocks and with statements around a frame. To look at a
    /// region that may define a name takes one.
    fn way_out(&self, frame: u32) -> usize {
        let around = self.frame(frame);
        8 * (around.level as usize + around.withs as usize)
    }

    /// The definition in the closest region around, by the way that seems shorter.
    fn find_shorter(&self, frame: u32, name: u32) -> Option<Found>
        ensures { result ≡ find self.now frame name }
    {
        if self.way_out(frame) < self.regions.homes(name).len() {
            self.find_outward(frame, name)
        } else {
            self.find_home(frame, name)
        }
    }

    /// About how many steps that takes.
    fn steps(&self, frame: u32, name: u32) -> usize {
        self.way_out(frame).min(self.regions.homes(name).len())
    }

    /// How many frames outward may be looked at for what is recalled: half of those steps at most.
    fn reach(&self, frame: u32, name: u32) -> usize {
        (self.steps(frame, name) / 16).min(FAR)
    }

    /// What is recalled of a name.
    fn recalled_of(&self, name: u32) -> Option<Recalled>
        ensures near { (r : Recalled) → result ≡ Some r → r.near.found ≡ find self.now r.near.frame name }
        ensures far { (r : Recalled) → result ≡ Some r → r.far.found ≡ find self.now r.far.frame name }
    {
        self.recent.of(name)
    }

    /// What is found of a name from a frame, if that is recalled.
    fn recalled(&self, frame: u32, name: u32) -> Option<Option<Found>>
        ensures { IfSome result (λ found. found ≡ find self.now frame name) }
    {
        match self.recalled_of(name) {
            Some(recalled) => {
                if recalled.near.frame == frame {
                    Some(recalled.near.found)
                } else if recalled.far.frame == frame {
                    Some(recalled.far.found)
                } else {
                    None
                }
            }
            None => None,
        }
    }

    /// What is found from a frame, if that is recalled or the region of the frame itself defines the name.
    fn find_close(&self, frame: u32, name: u32) -> Option<Option<Found>>
        ensures { IfSome result (λ found. found ≡ find self.now frame name) }
    {
        match self.recalled(frame, name) {
            Some(found) => Some(found),
            None => match self.find_here(frame, name) {
                Some(found) => Some(Some(found)),
                None => None,
            },
        }
    }

    /// Whether each frame is known to come after the one around it: false says nothing.
    fn is_ordered(&self) -> bool
        ensures { result ≡ true → Falls self.now.frames }
    {
        self.frames.is_ordered()
    }

    /// The frame around a frame whose region doesn't define a name, if the same is known to be found from there.
    #[tactic(auto, using(crate::proofs::Falls::passing))]
    fn passed(&self, frame: u32, name: u32) -> Option<u32>
        ensures { (outer : ℕ) → result ≡ Some outer → find self.now outer name ≡ find self.now frame name }
    {
        if self.is_ordered() && self.found_in(frame, name).is_none() {
            self.frame(frame).outer
        } else {
            None
        }
    }

    /// A frame at most this many frames outward, from which the same is found: the first for which it is recalled or
    /// whose region defines the name, if there is one.
    fn outward(&self, frame: u32, name: u32, most: usize) -> u32
        ensures { find self.now result name ≡ find self.now frame name }
    {
        let recalled = self.recent.of(name);
        let mut at = frame;
        'frames: for _ in 0..most {
            if is_of(recalled, at) {
                break;
            }
            let Some(outer) = self.passed(at, name) else {
                break;
            };
            at = outer;
        }
        at
    }

    /// The definition in the closest region around, which may be recalled for a frame close by, or for one as far
    /// outward from there as `recall` goes.
    fn find_beyond(&self, frame: u32, name: u32) -> Option<Found>
        ensures { result ≡ find self.now frame name }
    {
        let most = self.reach(frame, name);
        let last = self.outward(frame, name, most.saturating_add(most.min(NEAR)));
        match self.find_close(last, name) {
            Some(found) => found,
            None => self.find_shorter(frame, name),
        }
    }

    /// The definition in the closest region around that defines a name, a frame's own region being the closest.
    pub fn find(&self, frame: u32, name: u32) -> Option<Found>
        ensures { result ≡ find self.now frame name }
    {
        match self.find_here(frame, name) {
            Some(found) => Some(found),
            None => self.find_beyond(frame, name),
        }
    }

    /// This is recalled of a name from now on, if there are such frames.
    fn keep(&mut self, name: u32, recalled: Recalled)
        requires near { recalled.near.found ≡ find self.old recalled.near.frame name }
        requires far { recalled.far.found ≡ find self.old recalled.far.frame name }
        ensures { self.new ≡ self.old }
    {
        let most = self.frames();
        if (recalled.near.frame as usize) < most && (recalled.far.frame as usize) < most {
            self.recent.put(name, recalled);
        }
    }

    /// What is found of a name from a frame is recalled from now on, beside what is recalled of a frame further out.
    fn keep_near(&mut self, name: u32, near: FromFrame)
        requires { near.found ≡ find self.old near.frame name }
        ensures { self.new ≡ self.old }
    {
        match self.recalled_of(name) {
            Some(recalled) => self.keep(
                name,
                Recalled {
                    near,
                    far: recalled.far,
                },
            ),
            None => self.keep(name, Recalled { near, far: near }),
        }
    }

    /// What is found of a name from a frame, and so from two others outward, is recalled for these from now on.
    fn keep_both(&mut self, frame: u32, near: u32, far: u32, name: u32)
        requires near { find self.old near name ≡ find self.old frame name }
        requires far { find self.old far name ≡ find self.old near name }
        ensures { self.new ≡ self.old }
    {
        let found = self.find_shorter(frame, name);
        let near = FromFrame { frame: near, found };
        let far = FromFrame { frame: far, found };
        self.keep(name, Recalled { near, far });
    }

    /// What is found of a name is recalled from now on for a frame near by, and for one further out where it took long.
    fn recall(&mut self, frame: u32, near: u32, name: u32)
        requires { find self.old near name ≡ find self.old frame name }
        ensures { self.new ≡ self.old }
    {
        let far = self.outward(near, name, self.reach(frame, name));
        match self.find_close(far, name) {
            Some(found) => self.keep_near(name, FromFrame { frame: near, found }),
            None => self.keep_both(frame, near, far, name),
        }
    }

    /// Names are looked up in this frame from now on, this one first. What is known of a program stays the same.
    pub fn look_from(&mut self, frame: u32, name: u32)
        ensures { self.new ≡ self.old }
    {
        self.come_to(frame);
        if self.steps(frame, name) > FEW {
            let near = self.outward(frame, name, NEAR);
            if self.find_close(near, name).is_none() {
                self.recall(frame, near, name);
            }
        }
    }

    /// What a name stands for, if it may be used for that as if at the token `at`.
    pub fn usable(&self, frame: u32, at: u32, token: u32) -> Option<Found>
        ensures { result ≡ usable at (find self.now frame (name_at self.now token)) }
    {
        match self.find(frame, self.name(token)) {
            Some(found) => {
                if found.definition.end <= at {
                    Some(found)
                } else {
                    None
                }
            }
            None => None,
        }
    }

    /// The token that declares a label in the closest block around, by a way through all frames.
    #[tactic(auto, using(crate::proofs::Outward::outward))]
    fn label_outward(&self, frame: u32, value: u32) -> Option<u32>
        ensures { result ≡ find_label self.now frame value }
    {
        let mut at = Some(frame);
        let mut left = self.frames();
        'frames: while left > 0 {
            let Some(number) = at else {
                return None;
            };
            if let Some(token) = self.declared_in(self.frame(number).region, value) {
                return Some(token);
            }
            let beyond = self.beyond(number);
            at = beyond.to;
            left = (left - 1).saturating_sub(beyond.passed as usize);
        }
        None
    }

    /// The first frame outward whose region may declare a label of this value, where it is known.
    fn first_label_home(&self, frame: u32, value: u32) -> Option<Option<u32>>
        ensures nowhere { result ≡ Some None → find_label self.now frame value ≡ None }
        ensures there { (f token : ℕ) → result ≡ Some (Some f)
            → declared_in self.now.regions (frame_at self.now f).region value ≡ Some token
            → find_label self.now frame value ≡ Some token }
    {
        self.frames.first_of(frame, self.regions.label_homes(value))
    }

    /// The token that declares a label of this value in the closest block around that does.
    pub fn find_label(&self, frame: u32, value: u32) -> Option<u32>
        ensures { result ≡ find_label self.now frame value }
    {
        match self.first_label_home(frame, value) {
            None => self.label_outward(frame, value),
            Some(None) => None,
            Some(Some(first)) => match self.declared_in(self.frame(first).region, value) {
                Some(token) => Some(token),
                None => self.label_outward(frame, value),
            },
        }
    }

    /// A new region that begins at a token, with its own frame inside another or none, and this many blocks around its
    /// own: what is given is the number of its frame.
    #[tactic(auto, using(crate::proofs::Recalls::forgotten))]
    pub fn open_region(
        &mut self,
        alloc: Global,
        token: u32,
        outer: Option<u32>,
        level: u32,
    ) -> Result<u32, AllocError>
        ensures number { IfOk result (λ n. n ≡ length self.old.frames) }
        ensures opened { OnOk result (self.new ≡ and_region self.old token
            (record { region = length self.old.regions; outer = outer; level = level; withs = 0 })) }
    {
        let region = self.regions.len();
        let frame = self.frames.len();
        if region >= u32::MAX as usize || frame >= u32::MAX as usize {
            return Err(AllocError);
        }
        self.recent.forget();
        self.regions.push(alloc, token, frame as u32)?;
        self.frames.push(Frame {
            region: region as u32,
            outer,
            level,
            withs: 0,
        })?;
        Ok(frame as u32)
    }

    /// A definition of a name at the end of a region that lacks it.
    #[tactic(auto, using(crate::proofs::Recalls::forgotten))]
    pub fn add_definition(
        &mut self,
        region: u32,
        name: u32,
        definition: Definition,
    ) -> Result<(), AllocError>
        requires { defined_in self.old.regions region name ≡ None }
        ensures { OnOk result (self.new ≡ and_definition self.old region name definition) }
    {
        self.recent.forget();
        self.regions.add_definition(region, name, definition)?;
        Ok(())
    }

    /// A label's value at the end of a region that lacks it.
    #[tactic(auto, using(crate::proofs::Recalls::forgotten))]
    pub fn add_label(&mut self, region: u32, value: u32, token: u32) -> Result<(), AllocError>
        requires { declared_in self.old.regions region value ≡ None }
        ensures { OnOk result (self.new ≡ and_label self.old region value token) }
    {
        self.recent.forget();
        self.regions.add_label(region, value, token)?;
        Ok(())
    }

    /// One more value of a list of values that choose.
    pub fn add_chosen(&mut self, list: u32, value: i32) -> Result<(), AllocError>
        ensures { OnOk result (self.new ≡ and_choice self.old list value) }
    {
        self.choices.insert((list, value))?;
        Ok(())
    }

    /// Whether a value is in a list of values that choose.
    pub fn is_chosen(&self, list: u32, value: i32) -> bool
        ensures { result ≡ is_chosen self.now list value }
    {
        self.choices.contains(&(list, value))
    }

    /// Goes into a for statement with this control variable.
    pub fn hold(&mut self, variable: u32) -> Result<(), AllocError>
        ensures { OnOk result (self.new ≡ and_control self.old variable) }
    {
        self.controls.push(variable)?;
        Ok(())
    }

    /// Goes out of the innermost for statement.
    pub fn release(&mut self)
        ensures { self.new ≡ without_control self.old }
    {
        let _left = self.controls.pop();
    }

    /// Whether a for statement around has this control variable.
    pub fn is_control(&self, variable: u32) -> bool
        ensures { result ≡ is_control self.now variable }
    {
        self.controls.contains(&variable)
    }

    /// A routine threatens a variable at a token.
    pub fn threaten(&mut self, variable: u32, token: u32)
        ensures { self.new ≡ and_threat self.old variable token }
    {
        self.threats.put(variable, token);
    }

    /// The first token at which a routine of the block threatens a variable.
    pub fn threat(&mut self, variable: u32) -> Option<u32>
        ensures first { result ≡ threat_of self.old variable }
        ensures same { self.new ≡ self.old }
    {
        let block = self.block;
        self.threats.first(variable, block.first, block.statements)
    }

    /// The statements of this block are checked from now on.
    pub fn enter_block(&mut self, block: Span)
        ensures { self.new ≡ in_block self.old block }
    {
        self.block = block;
    }
}
