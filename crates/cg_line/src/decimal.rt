//! Decimal numbers without leading zeros and without a sign. No function here allocates.
ghost use Rattle.std.specs.Prelude.{◌≡◌, ◌+◌, ◌-◌, ◌*◌, ◌^◌, ◌≤◌, ◌<◌, IsTrue, IfSome, MatchOption};
ghost use Rattle.std.specs.List.{list_all};
ghost use Rattle.cg_line.specs.Numbers.{is_digit, is_plain, number_of, value_of};

fn is_digit(byte: u8) -> bool
    ensures { result ≡ is_digit byte }
{
    byte.is_ascii_digit()
}

// Appends a digit to the number, or returns `None` if the result does not fit.
fn with_digit(value: u64, digit: u8) -> Option<u64>
    requires { IsTrue (is_digit digit) }
    ensures { MatchOption result (2 ^ 64 ≤ 10 * value + (digit - 48)) (λ v. v ≡ 10 * value + (digit - 48)) }
{
    value.checked_mul(10)?.checked_add(u64::from(digit - b'0'))
}

/// Returns the number of the digits, which may begin with zeros, or `None` if it does not fit.
pub fn value(digits: &[u8]) -> Option<u64>
    requires { IsTrue (list_all is_digit digits.now) }
    ensures { MatchOption result (2 ^ 64 ≤ value_of digits.now) (λ v. v ≡ value_of digits.now) }
{
    let mut value = 0;
    for digit in digits {
        value = with_digit(value, *digit)?;
    }
    Some(value)
}

/// Returns whether each byte is a digit.
pub fn are_digits(text: &[u8]) -> bool
    ensures { result ≡ list_all is_digit text.now }
{
    text.iter().all(|b| is_digit(*b))
}

fn is_plain(text: &[u8]) -> bool
    ensures { result ≡ is_plain text.now }
{
    match text {
        [] => false,
        [digit] => is_digit(*digit),
        [first, ..] => *first != b'0' && are_digits(text),
    }
}

/// Parses a decimal number without leading zeros, of at most `most`.
#[tactic(auto, unfolding(crate::specs::Numbers::number_of, crate::specs::Numbers::is_number))]
pub fn number(word: &[u8], most: u64) -> Option<u64>
    ensures value { result ≡ number_of most word.now }
    ensures within { IfSome result (λ n. n ≤ most) }
{
    if !is_plain(word) {
        return None;
    }
    value(word).filter(|n| *n <= most)
}
