//! What no clause says: that memory suffices for many snapshots, and for a map that is copied whole.
ghost use Rattle.std.specs.Prelude.{◌<◌};

use cell_value::{Memory, Steps, Value};
use persistent_store::{Store, WholeMap};
use std::alloc::Global;
use std::test::Fail;

/// Where write number `i` goes: no two of the first 1,048,576 meet.
fn place_of(i: u32) -> u32
    ensures { result < 1048576 }
{
    i.wrapping_mul(7919) % 1_048_576
}

/// Whether snapshot number `i` has the first write and its own, and not the next one.
fn is_after_write(snapshot: &Store, i: u32) -> bool {
    snapshot.get(place_of(0)) == Some(Value::Heap(0))
        && snapshot.get(place_of(i)) == Some(Value::Heap(i))
        && snapshot.get(place_of(i.wrapping_add(1))).is_none()
}

/// 100,000 snapshots, one after each write.
fn snapshots(alloc: Global) -> Result<Vec<Store>, Memory> {
    let mut made: Steps<()> = Steps::new();
    let mut store = Store::new();
    let mut kept = Vec::new(alloc);
    for i in 0..100_000u32 {
        store.put(alloc, place_of(i), Value::Heap(i), &mut made)?;
        kept.push(store.snapshot()?)?;
    }
    Ok(kept)
}

#[test]
fn many_snapshots(rt: HostRuntime) -> Result<(), Fail> {
    let kept = snapshots(rt.alloc())?;
    for (i, snapshot) in kept.iter().enumerate() {
        assert!(rt; is_after_write(snapshot, (i % 100_000) as u32), "{i}");
    }
    Ok(())
}

/// Whether a copy of a whole map has what was put into the map.
fn copy_holds(alloc: Global, addr: u32, value: Value) -> Result<bool, Memory>
    requires { addr < 1048576 }
{
    let mut whole = WholeMap::new(alloc);
    whole.put(addr, value)?;
    let copy = whole.snapshot()?;
    Ok(copy.get(addr) == Some(value))
}

#[test]
fn whole_maps(rt: HostRuntime) -> Result<(), Fail> {
    assert!(rt; copy_holds(rt.alloc(), 7, Value::Nil)?);
    Ok(())
}
