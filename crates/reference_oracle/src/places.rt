//! Where the cells of matching variables are in the other program.

ghost use Rattle.std.specs.Prelude.{if◌then◌else◌, ◌+◌, ◌-◌, ◌≡◌, ◌≤◌, ℕ, IfOk, OnOk, Some, length};
ghost use Rattle.reference_oracle.specs.{Matches.lies_among, Places.ArePlaces, Places.EndsBefore, Places.place_at};

use crate::matches::Match;
use cell_value::Memory;
use std::alloc::{AllocError, Global};

/// Where the cell of an address is in the other program, if it is one of a matching variable.
pub(crate) fn place_at(places: &[Option<u32>], address: u32) -> Option<u32>
    ensures { result ≡ place_at places.now address }
{
    match places.get(address as usize) {
        Some(place) => *place,
        None => None,
    }
}

/// One more than the greatest address of a cell of a matching variable.
fn end_of(matches: &[Match]) -> usize
    ensures { EndsBefore matches.now result }
{
    let mut end: usize = 0;
    'each: for i in 0..matches.len() {
        end = end.max(matches[i].subject as usize + matches[i].cells as usize);
    }
    end
}

/// Puts down where the cells of a matching variable are. A place that has no number of 32 bits counts as out of memory.
fn put_match(places: &mut [Option<u32>], both: Match) -> Result<(), Memory>
    requires room { both.subject + both.cells ≤ length places.old }
    ensures put { OnOk result ((address : ℕ) → place_at places.new address
        ≡ (if lies_among both.subject both.cells address then Some (both.reference + (address - both.subject))
        else place_at places.old address)) }
    ensures size { length places.new ≡ length places.old }
{
    'cells: for k in 0..both.cells {
        let Some(place) = both.reference.checked_add(k) else {
            return Err(AllocError);
        };
        places[both.subject as usize + k as usize] = Some(place);
    }
    Ok(())
}

/// Of each address of the subject, where its cell is in the reference. What stands first in the list counts.
pub(crate) fn places_of(alloc: Global, matches: &[Match]) -> Result<Vec<Option<u32>>, Memory>
    ensures { IfOk result (λ v. ArePlaces matches.now v.items) }
{
    let mut places = vec![in alloc; None; end_of(matches)]?;
    let mut at = matches.len();
    'each: while at > 0 {
        at -= 1;
        put_match(&mut places, matches[at])?;
    }
    Ok(places)
}
