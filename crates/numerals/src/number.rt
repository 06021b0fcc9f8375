ghost use Rattle.std.specs.Prelude.{◌≡◌, ◌≤◌, ◌↔◌, ℕ, IfSome, Some};
ghost use Rattle.std.specs.List.{list_all};
ghost use Rattle.std.specs.Char.{is_ascii_digit};
ghost use Rattle.std.specs.Fmt.{decimal};
ghost use Rattle.numerals.specs.Numerals.{is_numeral, number_of};

use std::str::from_utf8;

fn are_digits(text: &[u8]) -> bool
    ensures { result ≡ list_all is_ascii_digit text.now }
{
    text.iter().all(|b| b.is_ascii_digit())
}

fn is_numeral(text: &[u8]) -> bool
    ensures { result ≡ is_numeral text.now }
{
    !text.is_empty() && (text.len() == 1 || text[0] != b'0') && are_digits(text)
}

// The number that a text is, where it is a numeral in that range.
fn number_in(text: &[u8], low: u64, high: u64) -> Option<u64>
    ensures said { result ≡ number_of low high text.now }
    ensures range { IfSome result (λ n. (low ≤ n) × (n ≤ high)) }
{
    if !is_numeral(text) {
        return None;
    }
    let Ok(text) = from_utf8(text) else {
        return None;
    };
    match text.parse::<u64>() {
        Ok(n) => { if low <= n && n <= high { Some(n) } else { None } }
        Err(_) => None,
    }
}

/// The number that a text is, where it is decimal digits without a 0 before another and the number
/// is in that range, both ends being in it; `None` exactly elsewhere. A number has one such text,
/// which is what `to_string` writes of it. It takes no memory.
pub fn number_of(text: &[u8], low: u64, high: u64) -> Option<u64>
    ensures said { result ≡ number_of low high text.now }
    ensures range { IfSome result (λ n. (low ≤ n) × (n ≤ high)) }
    ensures spelled { (n : ℕ) →
        (result ≡ Some n) ↔ ((low ≤ n) × (n ≤ high) × (decimal n ≡ text.now)) }
{
    number_in(text, low, high)
}
