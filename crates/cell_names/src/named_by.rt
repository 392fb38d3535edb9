//! Which cells a name names: whether all of a frame, or of a variable of the heap; and one step down by it.

ghost use Rattle.std.specs.Prelude.{◌≡◌, ℕ, Bool, List, false};
ghost use Rattle.std.specs.Option.{MatchOption};
ghost use Rattle.cell_names.specs.{NamedBy.is_of_all, NamedBy.leads_by, Names.scene_in, Names.step_down};
ghost use Rattle.cell_names.specs.declared.names.Spot.{Spot as SpotValue};

use crate::name_parts::{is_all, then_block, then_call, then_selector};
use crate::names::{Origin, Scene, Spot, step_down};
use core_program::Program;

/// Whether a name is that of all cells of a frame, or of a variable of the heap before its last `^`.
#[tactic(auto, using(crate::proofs::NameParts::all_in_parts))]
#[inline]
pub(crate) fn is_of_all(program: &Program, origin: Origin, name: &[u8]) -> bool
    ensures { result ≡ is_of_all program.now origin name.now }
{
    match origin {
        Origin::Heap(base) => is_all(then_block(Some(name), base)),
        Origin::Local { call, routine, .. } => {
            if call == 0 {
                false
            } else {
                is_all(then_call(Some(name), program, call, routine))
            }
        }
    }
}

/// The next step down to a cell, if a name goes on with its selector: where it leads, and what is then left of the
/// name.
#[inline]
pub(crate) fn step_named<'a>(scene: &Scene, at: Spot, name: &'a [u8]) -> Option<(Spot, &'a [u8])>
    ensures { (go : SpotValue → List ℕ → Bool) → MatchOption result
        (leads_by scene.now.program go name.now (step_down (scene_in scene.now) at) ≡ false)
        (λ left. leads_by scene.now.program go name.now (step_down (scene_in scene.now) at) ≡ go left.0 left.1.now) }
{
    match step_down(scene, at) {
        None => None,
        Some(step) => match then_selector(Some(name), scene.program, step.selector) {
            None => None,
            Some(rest) => Some((step.spot, rest)),
        },
    }
}
