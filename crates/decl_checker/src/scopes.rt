//! The declarations of a program, as callers see them.

ghost use Rattle.std.specs.Prelude.{◌≡◌, IfOk, length};
ghost use Rattle.core_program.specs.ProgramRows.{frame_of, name_of, offset_of, size_of};
ghost use Rattle.decl_checker.specs.Regions.{region_beginning};
ghost use Rattle.decl_checker.specs.Scopes.{held_around, held_in, routine_in, routine_region, seen, seen_of};

use crate::regions::starts;
use check_steps::{Def, Definition, Tables};
use core_program::ProgramTables;
use core_program::rows::{NameRow, Row};
use indexmap::IndexMap;
use std::alloc::{AllocError, Global};
use std::marker::Model;

/// The tables of a program as far as its declarations give them.
///
/// Region 0 is the outermost one, with the required names. The others are numbered in the order of the tokens at which
/// they begin: the program block at token 0, a routine's parameters and block together at the name in its first
/// heading, the parameters of a heading among parameters at its name, and the fields of a record type at its word
/// `record`.
#[derive(Drop)]
pub struct Scopes {
    tables: Tables,
    /// The number of each region by the token at which it begins.
    starts: IndexMap<u32, u32>,
}

impl Model for Scopes {
    ghost use Rattle.std.specs.Prelude.{nat_eq};
    ghost use Rattle.indexmap.specs.IndexMap.{get};
    ghost use Rattle.check_steps.specs.Known.{Known};
    ghost use Rattle.decl_checker.specs.Regions.{HasRegions};

    ghost Value = { Known };

    ghost view = { λ s. s.tables };

    ghost invariant = { λ s. HasRegions s.tables.regions (get nat_eq s.starts) };
}

impl Scopes {
    pub(crate) fn new(alloc: Global, tables: Tables) -> Result<Self, AllocError>
        ensures { IfOk result (λ s. s ≡ tables) }
    {
        let starts = starts(alloc, &tables)?;
        Ok(Scopes { tables, starts })
    }

    /// The number of the region that begins at a token, and None where none does.
    pub fn region(&self, token: u32) -> Option<u32>
        ensures { result ≡ region_beginning self.now.regions token }
    {
        self.starts.get(&token).copied()
    }

    /// The rows of the program, as far as the declarations give them.
    pub fn program(&self) -> &ProgramTables
        ensures { result.now ≡ self.now.program }
    {
        self.tables.program()
    }

    /// How many routines there are, the program block counting.
    pub fn routines(&self) -> u32
        ensures { result ≡ length self.now.program.routines }
    {
        self.tables.program().routines()
    }

    /// The name of a routine, as its first heading spells it.
    pub fn name(&self, routine: u32) -> &[u8]
        ensures { result.now ≡ name_of self.now.program routine }
    {
        self.tables.program().name(routine)
    }

    /// The cells of a routine's frame, the link included; 524,289 stands for more than 524,288.
    pub fn frame(&self, routine: u32) -> u32
        ensures { result ≡ frame_of self.now.program routine }
    {
        self.tables.program().frame(routine)
    }

    /// The cells of a variable of a type; 65,537 stands for more than 65,536.
    pub fn size_of(&self, kind: u32) -> u32
        ensures { result ≡ size_of self.now.program kind }
    {
        self.tables.program().size_of(kind)
    }

    /// Where a field's cells begin in a record; 65,537 stands for more than 65,536.
    pub fn offset_of(&self, kind: u32, field: u32) -> u32
        ensures { result ≡ offset_of self.now.program field }
    {
        self.tables.program().offset_of(kind, field)
    }
}

/// The number of a routine by the row at its name, and else this number.
pub(crate) fn routine_in(row: Row, otherwise: u32) -> u32
    ensures { result ≡ routine_in row otherwise }
{
    match row {
        Row::Name(NameRow::Routine { number, .. }) => number,
        _ => otherwise,
    }
}

/// The region of a routine, by the row at its name, and 0 where there is none.
pub(crate) fn routine_region(row: Row) -> u32
    ensures { result ≡ routine_region row }
{
    match row {
        Row::Name(NameRow::Routine { region, .. }) => region,
        _ => 0,
    }
}

/// What callers see of a definition: of a routine its number among the routines.
fn seen(tables: &Tables, def: Def) -> Def
    ensures { result ≡ seen tables.now def }
{
    match def {
        Def::Routine(token) => Def::Routine(routine_in(tables.row(token), token)),
        _ => def,
    }
}

fn seen_of(tables: &Tables, definition: Option<Definition>) -> Option<Def>
    ensures { result ≡ seen_of tables.now definition }
{
    match definition {
        Some(definition) => Some(seen(tables, definition.def)),
        None => None,
    }
}

/// What a region itself defines a name as, and None where it does not define it. The region is 0 or one that
/// `Scopes::region` gives; the name is in small letters.
pub fn find_in(scopes: &Scopes, region: u32, name: &[u8]) -> Option<Def>
    ensures { result ≡ held_in scopes.now region name.now }
{
    match scopes.tables.number_of(name) {
        Some(name) => seen_of(&scopes.tables, scopes.tables.defined_in(region, name)),
        None => None,
    }
}

/// What a name stands for in a region: the definition in the closest region around that defines it, the region itself
/// being the closest, and None where no region around defines it. The region is 0 or one that `Scopes::region` gives;
/// the name is in small letters.
pub fn find(scopes: &Scopes, region: u32, name: &[u8]) -> Option<Def>
    ensures { result ≡ held_around scopes.now region name.now }
{
    match scopes.tables.number_of(name) {
        Some(name) => match scopes.tables.find(scopes.tables.region_frame(region), name) {
            Some(found) => Some(seen(&scopes.tables, found.definition.def)),
            None => None,
        },
        None => None,
    }
}
