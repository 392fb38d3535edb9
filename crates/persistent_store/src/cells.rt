//! The cells of the leaves, sixteen bytes each.
ghost use Rattle.std.specs.Prelude.{◌≡◌, IfOk};
ghost use Rattle.persistent_store.specs.Cells.{value_of};

use cell_value::{Memory, SetBits, Value};
use std::alloc::Global;
use std::mem::size_of;
use std::rc::Rc;

/// A cell with a value or with none. Since a set takes 32 bytes and nearly no cell holds one, it stands
/// behind a pointer.
#[derive(Drop)]
pub(crate) enum Cell {
    Absent,
    Undefined,
    Number(i64),
    Bits(Rc<SetBits>),
    Nil,
    Heap(u32),
    Place(u32),
    Frame(u32),
    Routine(u32, u32),
}

const _: () = prove!(size_of::<Cell>() == 16);

impl Clone for Cell {
    ghost use Rattle.std.specs.Prelude.{◌≡◌};
    ghost use Rattle.persistent_store.specs.Cells.{value_of};

    ghost is_clone = { λ cell copy. value_of copy ≡ value_of cell };

    fn clone(&self) -> Result<Cell, Memory> {
        Ok(match self {
            Cell::Absent => Cell::Absent,
            Cell::Undefined => Cell::Undefined,
            Cell::Number(number) => Cell::Number(*number),
            Cell::Bits(bits) => Cell::Bits(bits.clone()?),
            Cell::Nil => Cell::Nil,
            Cell::Heap(to) => Cell::Heap(*to),
            Cell::Place(to) => Cell::Place(*to),
            Cell::Frame(to) => Cell::Frame(*to),
            Cell::Routine(routine, frame) => Cell::Routine(*routine, *frame),
        })
    }
}

impl Cell {
    /// The cell with this value, or with none.
    #[inline(always)]
    pub(crate) fn of(alloc: Global, value: Option<Value>) -> Result<Cell, Memory>
        ensures { IfOk result (λ cell. value_of cell ≡ value) }
    {
        Ok(match value {
            None => Cell::Absent,
            Some(Value::Undefined) => Cell::Undefined,
            Some(Value::Number(number)) => Cell::Number(number),
            Some(Value::Bits(bits)) => Cell::Bits(Rc::new(alloc, bits)?),
            Some(Value::Nil) => Cell::Nil,
            Some(Value::Heap(to)) => Cell::Heap(to),
            Some(Value::Place(to)) => Cell::Place(to),
            Some(Value::Frame(to)) => Cell::Frame(to),
            Some(Value::Routine(routine, frame)) => Cell::Routine(routine, frame),
        })
    }

    /// The value of the cell.
    #[inline(always)]
    pub(crate) fn value(&self) -> Option<Value>
        ensures { result ≡ value_of self.now }
    {
        match self {
            Cell::Absent => None,
            Cell::Undefined => Some(Value::Undefined),
            Cell::Number(number) => Some(Value::Number(*number)),
            Cell::Bits(bits) => Some(Value::Bits(**bits)),
            Cell::Nil => Some(Value::Nil),
            Cell::Heap(to) => Some(Value::Heap(*to)),
            Cell::Place(to) => Some(Value::Place(*to)),
            Cell::Frame(to) => Some(Value::Frame(*to)),
            Cell::Routine(routine, frame) => Some(Value::Routine(*routine, *frame)),
        }
    }
}
