//! How many values types have, and how many cells.

ghost use Rattle.std.specs.Prelude.{◌*◌, ◌+◌, ◌≡◌};
ghost use Rattle.kind_checker.specs.Sizes.{array_cells, capped, frame_capped, host_in, host_of, is_byte, is_ordinal};
ghost use Rattle.kind_checker.specs.Sizes.{is_within_bytes, values_from, values_in};

use check_steps::Tables;
use core_program::rows::TypeRow;

/// The most cells of a variable, a value parameter or an argument of `new`.
pub const MOST_CELLS: u32 = 65_536;

/// What stands for more cells of a type than that.
const CELLS: u32 = 65_537;

/// What stands for more cells than a frame may have.
const FRAME_CELLS: u32 = 524_289;

/// The place in a type after this many more cells.
pub fn offset_after(offset: u32, cells: u32) -> u32
    ensures { result ≡ capped (offset + cells) }
{
    match offset.checked_add(cells) {
        Some(sum) if sum < CELLS => sum,
        _ => CELLS,
    }
}

/// The place in a frame after this many more cells.
pub fn place_after(place: u32, cells: u32) -> u32
    ensures { result ≡ frame_capped (place + cells) }
{
    match place.checked_add(cells) {
        Some(sum) if sum < FRAME_CELLS => sum,
        _ => FRAME_CELLS,
    }
}

fn values_from(first: i32, last: i32) -> u32
    ensures { result ≡ values_from first last }
{
    if last < first {
        return 0;
    }
    let more = last.abs_diff(first);
    if more < CELLS - 1 { more + 1 } else { CELLS }
}

/// How many values an ordinal type has, where 65,537 stands for more.
pub fn values_in(row: Option<TypeRow>) -> u32
    ensures { result ≡ values_in row }
{
    match row {
        Some(TypeRow::Ordinal { least, greatest }) => values_from(least, greatest),
        Some(
            TypeRow::Subrange {
                least,
                greatest,
                ..
            },
        ) => values_from(least, greatest),
        _ => 0,
    }
}

/// The cells of an array of an index type and a component type.
pub fn array_cells(tables: &Tables, index: u32, component: u32) -> u32
    ensures { result ≡ array_cells tables.now index component }
{
    let values = values_in(tables.type_row(index));
    let size = tables.program().size_of(component);
    let cells = u64::from(values) * u64::from(size);
    if cells < u64::from(CELLS) {
        cells as u32
    } else {
        CELLS
    }
}

/// Whether a type is ordinal, if it is known.
pub fn is_ordinal(row: Option<TypeRow>) -> bool
    ensures { result ≡ is_ordinal row }
{
    match row {
        None => true,
        Some(TypeRow::Ordinal { .. }) => true,
        Some(TypeRow::Subrange { .. }) => true,
        Some(_) => false,
    }
}

fn is_byte(least: i32, greatest: i32) -> bool
    ensures { result ≡ is_byte least greatest }
{
    0 <= least && greatest <= 255
}

/// Whether all values of an ordinal type are within 0 to 255.
pub fn is_within_bytes(row: Option<TypeRow>) -> bool
    ensures { result ≡ is_within_bytes row }
{
    match row {
        Some(TypeRow::Ordinal { least, greatest }) => is_byte(least, greatest),
        Some(
            TypeRow::Subrange {
                least,
                greatest,
                ..
            },
        ) => is_byte(least, greatest),
        _ => true,
    }
}

/// The type itself, or that of a subrange's constants.
pub fn host_of(tables: &Tables, kind: u32) -> u32
    ensures { result ≡ host_of tables.now kind }
{
    match tables.type_row(kind) {
        Some(TypeRow::Subrange { host, .. }) => host,
        _ => kind,
    }
}
