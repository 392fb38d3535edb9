//! Which made source the name of a source means.
ghost use Rattle.std.specs.{Prelude.◌≡◌, Prelude.IfSome, Option.option_map};
ghost use Rattle.debug_cli.specs.Meaning.{IsMadeNumber, after_make, number_spelled};

/// The greatest number of a made source.
pub const MOST_MADE: u32 = 14;

/// What comes after `make:`, in the name of a source that no file holds.
pub(crate) fn after_make(source: &str) -> Option<&str>
    ensures { option_map (λ t. t.now) result ≡ after_make source.now }
{
    source.strip_prefix("make:")
}

/// The number that this text spells: decimal digits without a leading zero, of a number from 1 to `MOST_MADE`.
pub(crate) fn number_in(text: &str) -> Option<u32>
    ensures spelled { result ≡ number_spelled text.now }
    ensures range { IfSome result IsMadeNumber }
{
    if text.as_bytes().starts_with(b"+") || text.as_bytes().starts_with(b"0") {
        return None;
    }
    match text.parse::<u32>() {
        Ok(number) if 1 <= number && number <= MOST_MADE => Some(number),
        Ok(_) => None,
        Err(_) => None,
    }
}
