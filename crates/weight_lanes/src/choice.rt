//! A choice of a place, and the number by which places are compared.

ghost use Rattle.std.specs.Prelude.{if◌then◌else◌, ◌≡◌, ◌≤◌, MatchOption, nat_le};
ghost use Rattle.weight_lanes.specs.Places.{left_of};

/// A place, and how many suspects the worse answer on the call there leaves.
#[derive(Clone, Copy, Debug, PartialEq, Eq)]
pub struct Choice {
    /// How many suspects the worse answer leaves.
    pub left: u32,
    /// The place.
    pub at: usize,
}

/// How many of `total` suspects the worse answer leaves on a call that weighs this much.
pub fn left_after(weight: u32, total: u32) -> u32
    requires at_least_one { 1 ≤ weight }
    requires at_most_total { weight ≤ total }
    ensures { result ≡ left_of total weight }
{
    (weight - 1).max(total - weight)
}

/// The choice that leaves fewer; of equals the one that came first.
pub(crate) fn better(best: Option<Choice>, next: Choice) -> Choice
    ensures { MatchOption best (result ≡ next)
        (λ best. result ≡ (if nat_le best.left next.left then best else next)) }
{
    match best {
        Some(best) if best.left <= next.left => best,
        _ => next,
    }
}
