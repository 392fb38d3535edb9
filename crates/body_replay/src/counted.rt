//! Steps that a machine took, counted.

ghost use Rattle.std.specs.Prelude.{◌+◌, ◌-◌, ◌≡◌, ◌≤◌};

use cell_value::Steps;

/// Counts the steps that a machine took that has this many left after this many before.
pub(crate) fn count_steps<L>(steps: &mut Steps<L>, before: u32, after: u32)
    requires fell { after ≤ before }
    ensures counted { steps.new ≡ steps.old + (before - after) }
{
    'taken: for _taken in 0..before - after {
        steps.tick();
    }
}
