//! What a check has found so far, and the steps that all of it is made of.

ghost use Rattle.std.specs.Prelude.{◌≡◌, IfOk, None};
ghost use Rattle.check_steps.specs.{Known.threat_of, Regions.defined_in, Steps.too_big, Words.known_at_start};
ghost use Rattle.check_steps.specs.Names.{declare_in, define_in, use_again, use_at};
ghost use Rattle.check_steps.specs.Steps.{Does, add_chosen, add_definition, add_routine, ask, early, enter_block, hold};
ghost use Rattle.check_steps.specs.Steps.{late, look, open_frame, open_region, put, put_routine, release, threaten};

use crate::breaks::{Break, Broken};
use crate::regions::{Definition, Found, Frame, Span};
use crate::tables::Tables;
use core_program::Routine;
use core_program::rows::Row;
use pas_lexer::Tokens;
use std::alloc::{AllocError, Global};

/// The tables, and the first of the broken rules.
#[derive(Drop)]
pub struct Work {
    pub least: Option<Break>,
    pub tables: Tables,
}

impl Work {
    /// No rule is broken, and nothing is known but what the tokens spell.
    pub fn new(alloc: Global, tokens: &Tokens) -> Result<Self, AllocError>
        ensures { IfOk result (λ w. w ≡ record { least = None; tables = known_at_start tokens.now }) }
    {
        let tables = Tables::new(alloc, tokens)?;
        Ok(Work {
            least: None,
            tables,
        })
    }

    /// This is broken at the token, unless the test holds.
    #[tactic(auto, unfolding(crate::specs::Steps::ask, crate::specs::Steps::run_step))]
    fn ask(&mut self, broken: Broken, token: u32, holds: bool)
        ensures { Does (ask broken token holds) tt self.old self.new }
    {
        if !holds {
            let found = Break { broken, token };
            self.least = match self.least {
                None => Some(found),
                Some(least) => {
                    if found.is_before(&least) {
                        Some(found)
                    } else {
                        Some(least)
                    }
                }
            };
        }
    }

    /// A rule that can be told from declarations and names alone is broken at the token, unless the test holds.
    pub fn early(&mut self, number: u32, token: u32, holds: bool)
        ensures { Does (early number token holds) tt self.old self.new }
    {
        self.ask(Broken::Early(number), token, holds);
    }

    /// Another rule is broken at the token, unless the test holds.
    pub fn late(&mut self, number: u32, token: u32, holds: bool)
        ensures { Does (late number token holds) tt self.old self.new }
    {
        self.ask(Broken::Late(number), token, holds);
    }

    /// The type at this token has too many cells, unless the test holds.
    pub fn too_big(&mut self, token: u32, holds: bool)
        ensures { Does (too_big token holds) tt self.old self.new }
    {
        self.ask(Broken::TooBig, token, holds);
    }

    /// Puts a row at a number.
    #[tactic(auto, unfolding(crate::specs::Steps::change, crate::specs::Steps::run_step))]
    pub fn put(&mut self, number: u32, row: Row)
        ensures { Does (put number row) tt self.old self.new }
    {
        self.tables.put(number, row);
    }

    /// Puts a routine at a number.
    #[tactic(auto, unfolding(crate::specs::Steps::change, crate::specs::Steps::run_step))]
    pub fn put_routine(&mut self, number: u32, routine: Routine)
        ensures { Does (put_routine number routine) tt self.old self.new }
    {
        self.tables.put_routine(number, routine);
    }

    /// A new routine, by its number.
    #[tactic(auto, unfolding(crate::specs::Steps::extend, crate::specs::Steps::run_step))]
    pub fn add_routine(&mut self, routine: Routine) -> Result<u32, AllocError>
        ensures { IfOk result (λ n. Does (add_routine routine) n self.old self.new) }
    {
        let number = self.tables.add_routine(routine)?;
        Ok(number)
    }

    /// A new frame, by its number.
    #[tactic(auto, unfolding(crate::specs::Steps::extend, crate::specs::Steps::run_step))]
    pub fn open_frame(&mut self, frame: Frame) -> Result<u32, AllocError>
        ensures { IfOk result (λ n. Does (open_frame frame) n self.old self.new) }
    {
        let number = self.tables.open_frame(frame)?;
        Ok(number)
    }

    /// A new region that begins at a token, inside a frame or none, with this many blocks around its own: what is given
    /// is the number of its frame.
    #[tactic(auto, unfolding(crate::specs::Steps::extend, crate::specs::Steps::run_step))]
    pub fn open_region(
        &mut self,
        alloc: Global,
        token: u32,
        outer: Option<u32>,
        level: u32,
    ) -> Result<u32, AllocError>
        ensures { IfOk result (λ n. Does (open_region token outer level) n self.old self.new) }
    {
        let number = self.tables.open_region(alloc, token, outer, level)?;
        Ok(number)
    }

    /// A definition of a name at the end of a region that lacks it.
    #[tactic(auto, unfolding(crate::specs::Steps::change, crate::specs::Steps::run_step))]
    pub(crate) fn add_definition(
        &mut self,
        region: u32,
        name: u32,
        definition: Definition,
    ) -> Result<(), AllocError>
        requires { defined_in self.old.tables.regions region name ≡ None }
        ensures { IfOk result (λ _. Does (add_definition region name definition) tt self.old self.new) }
    {
        self.tables.add_definition(region, name, definition)?;
        Ok(())
    }

    /// One more value of a list of values that choose.
    #[tactic(auto, unfolding(crate::specs::Steps::change, crate::specs::Steps::run_step))]
    pub fn add_chosen(&mut self, list: u32, value: i32) -> Result<(), AllocError>
        ensures { IfOk result (λ _. Does (add_chosen list value) tt self.old self.new) }
    {
        self.tables.add_chosen(list, value)?;
        Ok(())
    }

    /// Goes into a for statement with this control variable.
    #[tactic(auto, unfolding(crate::specs::Steps::change, crate::specs::Steps::run_step))]
    pub fn hold(&mut self, variable: u32) -> Result<(), AllocError>
        ensures { IfOk result (λ _. Does (hold variable) tt self.old self.new) }
    {
        self.tables.hold(variable)?;
        Ok(())
    }

    /// Goes out of the innermost for statement.
    #[tactic(auto, unfolding(crate::specs::Steps::change, crate::specs::Steps::run_step))]
    pub fn release(&mut self)
        ensures { Does release tt self.old self.new }
    {
        self.tables.release();
    }

    /// A routine threatens a variable at a token.
    #[tactic(auto, unfolding(crate::specs::Steps::change, crate::specs::Steps::run_step))]
    pub fn threaten(&mut self, variable: u32, token: u32)
        ensures { Does (threaten variable token) tt self.old self.new }
    {
        self.tables.threaten(variable, token);
    }

    /// The first token at which a routine of the block threatens a variable.
    #[tactic(auto, unfolding(crate::specs::Steps::look, crate::specs::Steps::run_step))]
    pub fn threat(&mut self, variable: u32) -> Option<u32>
        ensures { Does (look (λ k. threat_of k variable)) result self.old self.new }
    {
        self.tables.threat(variable)
    }

    /// The statements of this block are checked from now on.
    #[tactic(auto, unfolding(crate::specs::Steps::change, crate::specs::Steps::run_step))]
    pub fn enter_block(&mut self, block: Span)
        ensures { Does (enter_block block) tt self.old self.new }
    {
        self.tables.enter_block(block);
    }

    /// A definition of a name in a region, where a second one breaks rule 2.
    #[tactic(auto, using(crate::proofs::Runs::changes), unfolding(crate::specs::Names::define_in, crate::specs::Steps::when))]
    pub fn define_in(&mut self, region: u32, definition: Definition) -> Result<(), AllocError>
        ensures { IfOk result (λ _. Does (define_in region definition) tt self.old self.new) }
    {
        let name = self.tables.name(definition.token);
        let held = self.tables.defined_in(region, name);
        self.early(2, definition.token, held.is_none());
        match held {
            None => {
                self.tables.add_definition(region, name, definition)?;
                Ok(())
            }
            Some(_) => Ok(()),
        }
    }

    /// A label's value in the region of a block, where a second one breaks rule 2.
    #[tactic(auto, using(crate::proofs::Runs::changes), unfolding(crate::specs::Names::declare_in, crate::specs::Steps::when))]
    pub fn declare_in(&mut self, region: u32, value: u32, token: u32) -> Result<(), AllocError>
        ensures { IfOk result (λ _. Does (declare_in region value token) tt self.old self.new) }
    {
        let held = self.tables.declared_in(region, value);
        self.early(2, token, held.is_none());
        match held {
            None => {
                self.tables.add_label(region, value, token)?;
                Ok(())
            }
            Some(_) => Ok(()),
        }
    }

    /// Names are looked up in this frame from now on, which makes look-ups there fast. What is known stays the same.
    pub fn come_to(&mut self, frame: u32)
        ensures { self.new ≡ self.old }
    {
        self.tables.come_to(frame);
    }

    /// The same, and the name that a token spells is looked up first.
    fn look_from(&mut self, frame: u32, token: u32)
        ensures { self.new ≡ self.old }
    {
        let name = self.tables.name(token);
        self.tables.look_from(frame, name);
    }

    /// What a name stands for where it is used, as if at the token `at`.
    #[tactic(auto, using(crate::proofs::Runs::steps), unfolding(crate::specs::Names::use_at))]
    pub fn use_at(&mut self, frame: u32, at: u32, token: u32) -> Option<Found>
        ensures { Does (use_at frame at token) result self.old self.new }
    {
        self.look_from(frame, token);
        let usable = self.tables.usable(frame, at, token);
        self.early(1, token, usable.is_some());
        usable
    }

    /// What a name stands for where it is used, if rule 1 was looked at there before.
    #[tactic(auto, using(crate::proofs::Runs::steps), unfolding(crate::specs::Names::use_again))]
    pub fn use_again(&mut self, frame: u32, token: u32) -> Option<Found>
        ensures { Does (use_again frame token) result self.old self.new }
    {
        self.look_from(frame, token);
        let usable = self.tables.usable(frame, token, token);
        self.late(3, token, usable.is_some());
        usable
    }
}
