//! How many specs schemas have, and whether arrays that are passed have as many extents (6.6.3.7, 6.6.3.8).

ghost use Rattle.std.specs.Prelude.{◌≡◌};
ghost use Rattle.core_program.specs.WholeTables as whole;
ghost use Rattle.run_laws.specs.LaidTests as tests;

use core_program::ProgramTables;
use core_program::rows::{AccessRow, Row, TypeRow};

/// The type of what is accessed.
pub(crate) fn type_accessed(access: AccessRow) -> u32
    ensures { result ≡ whole.type_accessed access }
{
    match access {
        AccessRow::Variable { of, .. } => of,
        AccessRow::Reference { of, .. } => of,
        AccessRow::Conformant { of, .. } => of,
        AccessRow::Component { of, .. } => of,
        AccessRow::Within { of, .. } => of,
        AccessRow::Index { of, .. } => of,
        AccessRow::Field { of, .. } => of,
        AccessRow::Dereference { of, .. } => of,
    }
}

/// The component type of a conformant array.
pub(crate) fn spec_component(row: Option<TypeRow>) -> Option<u32>
    ensures { result ≡ tests.spec_component row }
{
    match row {
        Some(TypeRow::Conformant { component, .. }) => Some(component),
        _ => None,
    }
}

/// Whether the type at a number is that of a conformant array.
pub(crate) fn is_conformant(program: &ProgramTables, of: u32) -> bool
    ensures { result ≡ whole.is_conformant program.now of }
{
    match program.type_row(of) {
        Some(TypeRow::Conformant { .. }) => true,
        _ => false,
    }
}

/// The type inside of this many specs, if it is there.
fn inside(there: bool, specs: usize, of: u32) -> Option<(usize, u32)>
    ensures { result ≡ tests.specs_before specs (tests.and_inside (λ component. None) of there None) }
{
    if there { Some((specs, of)) } else { None }
}

/// How many specs the schema of a type has, and the type of the components inside of them. What is no conformant array
/// has no spec, and is itself inside.
#[tactic(auto, using(crate::proofs::LaidLoops::schema_loops))]
fn schema_of(program: &ProgramTables, of: u32) -> Option<(usize, u32)>
    ensures { result ≡ tests.schema_of program.now of }
{
    let mut at = of;
    'specs: for passed in 0..program.rows() {
        let row = program.type_row(at);
        let Some(component) = spec_component(row) else {
            return inside(row.is_some(), passed, at);
        };
        at = component;
    }
    None
}

fn array_component(row: Option<TypeRow>) -> Option<u32>
    ensures { result ≡ tests.array_component row }
{
    match row {
        Some(TypeRow::Array { component, .. }) => Some(component),
        _ => None,
    }
}

/// Whether a type is an array of arrays, this many within one another.
#[tactic(auto, using(crate::proofs::LaidLoops::deep_loops))]
fn is_deep(program: &ProgramTables, levels: usize, of: u32) -> bool
    ensures { result ≡ tests.is_deep levels program.now of }
{
    let mut left = levels;
    let mut at = of;
    'levels: while left > 0 {
        left -= 1;
        let Some(component) = array_component(program.type_row(at)) else {
            return false;
        };
        at = component;
    }
    true
}

/// Whether an array of a type has this many extents.
fn extents_reach(program: &ProgramTables, wanted: usize, given: u32) -> bool
    ensures { result ≡ tests.extents_reach program.now wanted (tests.schema_of program.now given) }
{
    match schema_of(program, given) {
        Some((specs, inside)) => specs <= wanted && is_deep(program, wanted - specs, inside),
        None => false,
    }
}

/// Whether what is passed has as many extents as a type has specs. An array of this very type has.
pub(crate) fn fits_schema(program: &ProgramTables, of: u32, row: Row) -> bool
    ensures { result ≡ tests.fits_schema program.now of row }
{
    match row {
        Row::Access(access) => {
            let given = type_accessed(access);
            given == of
                || match schema_of(program, of) {
                    Some((specs, _inside)) => extents_reach(program, specs, given),
                    None => false,
                }
        }
        _ => match schema_of(program, of) {
            Some((specs, _inside)) => specs == 1,
            None => false,
        },
    }
}
