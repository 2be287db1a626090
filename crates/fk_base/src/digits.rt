//! Numbers in decimal digits.

ghost use Rattle.std.specs.Prelude.{◌≡◌, ◌<◌, IfSome};
ghost use Rattle.fk_base.specs.Digits.{expected_of, number_below};
ghost use Rattle.fk_base.specs.Limits.{IsExpected};

/// The number that a text says, below a limit; a `+` before it is passed over.
pub fn number_below(text: &str, limit: u64) -> Option<u64>
    ensures reads { result ≡ number_below limit text.now }
    ensures fits { IfSome result (λ n. n < limit) }
{
    match text.parse::<u64>() {
        Ok(number) => { if number < limit { Some(number) } else { None } }
        Err(_) => None,
    }
}

/// The expected version that a text says: -1, or a number below 2^31.
#[tactic(auto, unfolding(crate::specs::Digits::expected_of))]
pub fn expected_of(text: &str) -> Option<i32>
    ensures reads { result ≡ expected_of text.now }
    ensures fits { IfSome result IsExpected }
{
    if text == "-1" {
        return Some(-1);
    }
    match number_below(text, 1 << 31) {
        Some(number) => Some(number as i32),
        None => None,
    }
}
