//! Parsing of the numbers in a command line.
ghost use Rattle.std.specs.Prelude.{◌≡◌, ◌≤◌, IfSome};
ghost use Rattle.lay_args.specs.Number.{item_count_of, number_within, seed_of};

/// The greatest number of digits of a seed: that of the greatest 64-bit number.
const SEED_DIGITS: usize = 20;

/// The greatest number of digits of a number of items.
const ITEM_DIGITS: usize = 6;

/// The greatest number of items of a sample.
const MOST_ITEMS: u64 = 200_000;

/// Parses the argument of `--sample`; `None` if it is no number in range.
pub fn seed(text: &str) -> Option<u64>
    ensures { result ≡ seed_of text.now }
{
    number(text, SEED_DIGITS, u64::MAX)
}

/// Parses the argument of `--items`; `None` if it is no number in range.
pub fn item_count(text: &str) -> Option<u32>
    ensures { result ≡ item_count_of text.now }
{
    let count = number(text, ITEM_DIGITS, MOST_ITEMS)?;
    Some(count as u32)
}

/// Parses a number of 1 to `digits` decimal digits that is at most `limit`; else `None`.
fn number(text: &str, digits: usize, limit: u64) -> Option<u64>
    ensures value { result ≡ number_within digits limit text.now }
    ensures bounded { IfSome result (λ value. value ≤ limit) }
{
    // `parse` also accepts a leading plus.
    if text.len() > digits || text.starts_with('+') {
        return None;
    }
    match text.parse::<u64>() {
        Ok(value) if value <= limit => Some(value),
        _ => None,
    }
}
