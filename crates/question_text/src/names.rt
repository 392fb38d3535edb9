//! The names of cells, as the card of a call prints them.

ghost use Rattle.std.specs.Prelude.{◌<◌, ◌≡◌, IfOk, length, option_map};
ghost use Rattle.std.specs.Str.{bytes_eq};
ghost use Rattle.edge_ports.specs.Printouts.{Prints};
ghost use Rattle.cell_names.specs.Finding.{finding_in, finding_of};
ghost use Rattle.question_text.specs.{Cards.recorded_in, Prepared.AreOpenedIn, Prepared.AreParts};
ghost use Rattle.question_text.specs.CellNames.{cell_name, cell_named, change_named};

use crate::cells::write_root_name;
use crate::copied::Copied;
use crate::prepared::{CardParts, Recorded};
use cell_names::{PlacedParts, Scene, root_at};
use edge_ports::{Memory, Printer};
use effect_log::Changes;
use std::alloc::Global;

/// Prints the name by which the card of a call prints the cell at an address.
///
/// What is found by its place is that of the program, whose source has this many tokens, and of the log; and the open
/// calls are those while this call runs.
pub fn write_name<P: Printer>(
    out: &mut P,
    from: &Recorded,
    number: u32,
    address: u32,
    opened: &PlacedParts,
)
    requires names { finding_in from.now.names.now ≡ finding_of from.now.program.now from.now.tokens from.now.log.now }
    requires opened { AreOpenedIn (recorded_in from.now) number opened.now }
    ensures { Prints (P.printout out.old) (P.printout out.new) (cell_name (recorded_in from.now) number address) }
{
    let scene = Scene {
        program: from.program,
        names: from.names,
        routines: from.calls.routine_column(),
        calls: from.calls,
        opened,
    };
    write_root_name(out, &scene, None, address, root_at(&scene, address));
}

/// Whether the card of a call prints the cell at an address by this name.
fn is_named(
    alloc: Global,
    from: &Recorded,
    number: u32,
    address: u32,
    opened: &PlacedParts,
    name: &[u8],
) -> Result<bool, Memory>
    requires names { finding_in from.now.names.now ≡ finding_of from.now.program.now from.now.tokens from.now.log.now }
    requires opened { AreOpenedIn (recorded_in from.now) number opened.now }
    ensures { IfOk result (λ is. is ≡ bytes_eq (cell_name (recorded_in from.now) number address) name.now) }
{
    let mut copied = Copied::new(alloc);
    write_name(&mut copied, from, number, address, opened);
    let text = copied.text()?;
    Ok(text.as_slice() == name)
}

/// The first of these changes that is of a cell of this name, by the cell's address.
fn change_named(
    alloc: Global,
    from: &Recorded,
    number: u32,
    opened: &PlacedParts,
    changes: &Changes,
    name: &[u8],
) -> Result<Option<u32>, Memory>
    requires names { finding_in from.now.names.now ≡ finding_of from.now.program.now from.now.tokens from.now.log.now }
    requires opened { AreOpenedIn (recorded_in from.now) number opened.now }
    ensures { IfOk result (λ found. found
        ≡ option_map (λ x. x.0) (change_named (recorded_in from.now) number name.now changes.now)) }
{
    for i in 0..changes.len() {
        let (address, _) = changes.at(i);
        if is_named(alloc, from, number, address, opened, name)? {
            return Ok(Some(address));
        }
    }
    Ok(None)
}

/// The cell that a call of the run changed and its card prints by this name, byte by byte; of several the one of least
/// address. The card was prepared.
pub fn cell_named(
    alloc: Global,
    from: &Recorded,
    number: u32,
    parts: &CardParts,
    name: &[u8],
) -> Result<Option<u32>, Memory>
    requires a_call { number < length from.now.calls.now.calls }
    requires names { finding_in from.now.names.now ≡ finding_of from.now.program.now from.now.tokens from.now.log.now }
    requires parts { AreParts (recorded_in from.now) number parts.now }
    ensures { IfOk result (λ found. found ≡ cell_named (recorded_in from.now) number name.now) }
{
    let found = change_named(
        alloc,
        from,
        number,
        &parts.opened,
        &parts.done.changes,
        name,
    )?;
    Ok(found)
}
