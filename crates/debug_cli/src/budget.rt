//! How many steps a run may take.
ghost use Rattle.std.specs.{Prelude.◌≡◌, Prelude.IfSome, Option.option_map};
ghost use Rattle.debug_cli.specs.Meaning.{IsBudget, budget_meant, budget_spelled};

use cell_value::MOST_STEPS;

/// The steps that a run may take where no budget is given.
pub const BUDGET: u32 = 1_000_000;

/// The most digits in which a budget is spelled.
const MOST_DIGITS: usize = 7;

/// The steps that this text spells: one to seven decimal digits, leading zeros among them, of a number from 1 to
/// `MOST_STEPS`.
fn steps_in(text: &str) -> Option<u32>
    ensures spelled { result ≡ budget_spelled text.now }
    ensures budget { IfSome result IsBudget }
{
    if text.len() > MOST_DIGITS || text.as_bytes().starts_with(b"+") {
        return None;
    }
    match text.parse::<u32>() {
        Ok(steps) if 1 <= steps && steps <= MOST_STEPS => Some(steps),
        Ok(_) => None,
        Err(_) => None,
    }
}

/// The steps that a run may take, by the text of the option.
pub(crate) fn steps_asked(text: Option<&str>) -> Option<u32>
    ensures meant { result ≡ budget_meant (option_map (λ t. t.now) text.entry) }
    ensures budget { IfSome result IsBudget }
{
    match text {
        None => Some(BUDGET),
        Some(text) => steps_in(text),
    }
}
