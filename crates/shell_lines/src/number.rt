//! Decimal numbers.

ghost use Rattle.std.specs.Prelude.{◌≡◌};
ghost use Rattle.std.specs.Option.{option_and_then, option_map};
ghost use Rattle.shell_lines.specs.Number.{number_of, up_to_most, fitting};

/// The number that digits spell, or the greatest of 64 bits for one that is greater.
pub fn read_number(text: &[u8]) -> Option<u64>
    ensures { result ≡ option_map up_to_most (number_of text.now) }
{
    if text.is_empty() {
        return None;
    }
    let mut n = 0u64;
    for c in text {
        if *c < b'0' || *c > b'9' {
            return None;
        }
        n = n.saturating_mul(10).saturating_add(u64::from(*c - b'0'));
    }
    Some(n)
}

/// The number that digits spell, if 64 bits hold it.
pub fn read_seed(text: &[u8]) -> Option<u64>
    ensures { result ≡ option_and_then fitting (number_of text.now) }
{
    if text.is_empty() {
        return None;
    }
    let mut n = 0u64;
    for c in text {
        if *c < b'0' || *c > b'9' {
            return None;
        }
        let Some(tens) = n.checked_mul(10) else {
            return None;
        };
        let Some(more) = tens.checked_add(u64::from(*c - b'0')) else {
            return None;
        };
        n = more;
    }
    Some(n)
}
