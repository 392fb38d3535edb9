//! Arrays of several indices (6.4.3.2).

ghost use Rattle.std.specs.Prelude.{◌≡◌};
ghost use Rattle.check_steps.specs.Steps.{Does, each_back};
ghost use Rattle.denoter_checker.specs.Arrays.{array, index_in, next_joined, put_index};

use check_steps::Work;
use core_program::rows::{Row, TypeRow};
use kind_checker::sizes::array_cells;
use pas_tree::denoters::NextDenoter;

/// An array type, at its `[` or the comma before its index type.
#[tactic(auto, using(check_steps::proofs::Runs::steps), unfolding(crate::specs::Arrays::array))]
pub(crate) fn check_array(
    work: &mut Work,
    packed: bool,
    bracket: u32,
    index: u32,
    component: u32,
) -> u32
    ensures { Does (array packed bracket index component) result work.old work.new }
{
    let cells = array_cells(&work.tables, index, component);
    let row = TypeRow::Array {
        packed,
        index,
        component,
        cells,
    };
    work.put(bracket, Row::Type(row));
    bracket
}

/// The index type after a comma, until its component type is known.
#[tactic(auto, unfolding(crate::specs::Arrays::put_index))]
pub(crate) fn put_index(work: &mut Work, comma: u32, index: u32)
    ensures { Does (put_index comma index) tt work.old work.new }
{
    let row = TypeRow::Array {
        packed: false,
        index,
        component: comma,
        cells: 0,
    };
    work.put(comma, Row::Type(row));
}

fn index_in(row: Option<TypeRow>, otherwise: u32) -> u32
    ensures { result ≡ index_in row otherwise }
{
    match row {
        Some(TypeRow::Array { index, .. }) => index,
        _ => otherwise,
    }
}

#[tactic(auto, using(check_steps::proofs::Runs::steps), unfolding(crate::specs::Arrays::joined, crate::specs::Arrays::next_joined))]
fn check_joined(work: &mut Work, packed: bool, n: &NextDenoter, component: u32) -> u32
    ensures { Does (next_joined packed component n.now) result work.old work.new }
{
    let index = index_in(work.tables.type_row(n.comma), n.comma);
    check_array(work, packed, n.comma, index, component)
}

/// The arrays after the first, from the last on.
#[tactic(auto, using(check_steps::proofs::Runs::back_loops))]
pub(crate) fn check_joins(
    work: &mut Work,
    packed: bool,
    others: &[NextDenoter],
    component: u32,
) -> u32
    ensures { Does (each_back (next_joined packed) component others.now) result work.old work.new }
{
    let mut kind = component;
    let mut left = others.len();
    'others: while left > 0 {
        left -= 1;
        kind = check_joined(work, packed, &others[left], kind);
    }
    kind
}
