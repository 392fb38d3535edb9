//! The lowest and the highest bit of a mask.

ghost use Rattle.std.specs.{Prelude.◌<◌, Prelude.◌≡◌, Prelude.◌≢◌, Prelude.ℕ, Int.bit_at};

/// The place of the lowest bit that is set.
#[inline(always)]
pub(crate) fn lowest(mask: u64) -> usize
    requires { mask ≢ 0 }
    ensures bound { result < 64 }
    ensures set { bit_at mask result ≡ 1 }
    ensures below { (bit : ℕ) → bit < result → bit_at mask bit ≡ 0 }
{
    mask.trailing_zeros() as usize
}

/// The place of the highest bit that is set.
#[inline(always)]
pub(crate) fn highest(mask: u64) -> usize
    requires { mask ≢ 0 }
    ensures bound { result < 64 }
    ensures set { bit_at mask result ≡ 1 }
    ensures above { (bit : ℕ) → result < bit → bit_at mask bit ≡ 0 }
{
    mask.ilog2() as usize
}
