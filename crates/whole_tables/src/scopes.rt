//! That the records of with statements are there that constructs need around them.

ghost use Rattle.std.specs.Prelude.{◌≡◌, nat_le};
ghost use Rattle.core_program.specs.ProgramRows.{row_at};
ghost use Rattle.whole_tables.specs.{Parts.listed, Scopes.each_of};
ghost use Rattle.whole_tables.specs.Scopes as scopes;

use crate::parts::{Parts, parts_of};
use core_program::rows::{AccessRow, ItemRow, Row, StatementRow};
use core_program::{ProgramTables, Routine};
use std::alloc::{AllocError, Global};

fn needed(column: &[u32], number: u32) -> u32
    ensures { result ≡ scopes.needed column.now number }
{
    match column.get(number as usize) {
        Some(records) => *records,
        None => 0,
    }
}

fn is_within(column: &[u32], part: u32, most: u64) -> bool
    ensures { result ≡ nat_le (scopes.needed column.now part) most }
{
    needed(column, part) as u64 <= most
}

fn are_within(column: &[u32], parts: Parts, most: u64) -> bool
    ensures { result ≡ each_of (λ n. nat_le (scopes.needed column.now n) most) (listed parts) }
{
    match parts {
        Parts::Nothing => true,
        Parts::One(a) => is_within(column, a, most),
        Parts::Two(a, b) => is_within(column, a, most) && is_within(column, b, most),
        Parts::Three(a, b, c) => {
            is_within(column, a, most) && is_within(column, b, most) && is_within(column, c, most)
        }
    }
}

/// The element of a list, and the number of the next one.
fn element_of(row: Row) -> Option<(u32, u32)>
    ensures { result ≡ scopes.element_of row }
{
    match row {
        Row::Item(ItemRow::Element { item, next }) => Some((item, next)),
        _ => None,
    }
}

/// Whether each record of a list needs no more around it than stand before it, and the body no more than all. Of a
/// list at most as many records are looked at as there are rows.
#[tactic(auto, using(crate::proofs::ScopeLoops::record_loops))]
fn are_scoped(
    program: &ProgramTables,
    column: &[u32],
    rows: u32,
    around: u32,
    records: u32,
    body: u32,
) -> bool
    ensures { result ≡ scopes.scoped_records program.now column.now rows around records body }
{
    let mut at = records;
    'records: for passed in 0..rows {
        let count = around as u64 + passed as u64;
        match element_of(program.row(at)) {
            Some((record, next)) => {
                if !is_within(column, record, count) {
                    return false;
                }
                at = next;
            }
            None => return is_within(column, body, count),
        }
    }
    false
}

/// Whether a construct has the records around it that it and its parts need.
pub(crate) fn is_scoped(program: &ProgramTables, column: &[u32], rows: u32, at: u32) -> bool
    ensures { result ≡ scopes.scoped_row program.now column.now rows at (row_at program.now at) }
{
    let row = program.row(at);
    let around = needed(column, at);
    match row {
        Row::Access(AccessRow::Within { record, .. }) => record < around,
        Row::Statement(StatementRow::With { records, body, .. }) => {
            are_scoped(program, column, rows, around, records, body)
        }
        _ => are_within(column, parts_of(row), around as u64),
    }
}

/// Whether a routine's statements need no record around them.
pub(crate) fn is_outermost(column: &[u32], routine: Option<Routine>) -> bool
    ensures { result ≡ scopes.outermost column.now routine }
{
    match routine {
        None => true,
        Some(routine) => needed(column, routine.statements) == 0,
    }
}

// ---- how many records each construct is given

/// The constructs that are still to be gone over, each with how many records stand around it.
#[derive(Drop)]
struct Around {
    column: Vec<u32>,
    open: Vec<(u32, u32)>,
}

impl Around {
    /// A construct with this many records around it.
    fn open(&mut self, construct: u32, records: u32) -> Result<(), AllocError> {
        self.open.push((construct, records))?;
        Ok(())
    }

    fn open_parts(&mut self, parts: Parts, records: u32) -> Result<(), AllocError> {
        match parts {
            Parts::Nothing => Ok(()),
            Parts::One(a) => self.open(a, records),
            Parts::Two(a, b) => {
                self.open(a, records)?;
                self.open(b, records)
            }
            Parts::Three(a, b, c) => {
                self.open(a, records)?;
                self.open(b, records)?;
                self.open(c, records)
            }
        }
    }

    /// The records of a with statement, each inside of those before it, and its body.
    fn open_with(
        &mut self,
        program: &ProgramTables,
        around: u32,
        records: u32,
        body: u32,
    ) -> Result<(), AllocError> {
        let mut count = around;
        let mut at = records;
        'records: for _ in 0..program.rows() {
            match program.row(at) {
                Row::Item(ItemRow::Element { item, next }) => {
                    self.open(item, count)?;
                    count = count.saturating_add(1);
                    at = next;
                }
                _ => return self.open(body, count),
            }
        }
        Ok(())
    }

    /// A construct is given its records, unless it has as few already. It is gone over when it is reached first.
    fn give(
        &mut self,
        program: &ProgramTables,
        construct: u32,
        records: u32,
    ) -> Result<(), AllocError> {
        let number = construct as usize;
        if number >= self.column.len() || self.column[number] <= records {
            return Ok(());
        }
        let was_reached = self.column[number] != u32::MAX;
        self.column[number] = records;
        if was_reached {
            return Ok(());
        }
        match program.row(construct) {
            Row::Statement(
                StatementRow::With {
                    records: list,
                    body,
                    ..
                },
            ) => { self.open_with(program, records, list, body) }
            row => self.open_parts(parts_of(row), records),
        }
    }
}

/// How many records stand around each construct, as far as routines lead to it; around others there may be any number.
/// Nothing rests on it that this is right: the column is tested.
pub(crate) fn records_around(
    alloc: Global,
    program: &ProgramTables,
    rows: u32,
) -> Result<Vec<u32>, AllocError> {
    let mut around = Around {
        column: vec![in alloc; u32::MAX; rows as usize]?,
        open: Vec::new(alloc),
    };
    'routines: for number in 0..program.routines() {
        if let Some(routine) = program.routine(number) {
            around.open(routine.statements, 0)?;
        }
    }
    let most = 4 * rows as u64 + program.routines() as u64;
    'constructs: for _ in 0..most {
        match around.open.pop() {
            None => break 'constructs,
            Some((construct, records)) => around.give(program, construct, records)?,
        }
    }
    let Around { column, .. } = around;
    Ok(column)
}
