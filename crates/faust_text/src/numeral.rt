ghost use Rattle.std.specs.Prelude.{◌≡◌};
ghost use Rattle.std.specs.Char.{is_ascii_digit};
ghost use Rattle.std.specs.List.{list_all};
ghost use Rattle.faust_text.specs.Numbers.{is_number, number_between, number_of};

/// Whether a token is a number in decimal digits without leading zeros, however long.
pub fn is_number(token: &[u8]) -> bool
    ensures { result ≡ is_number token.now }
{
    match token.first() {
        None => false,
        Some(b'0') => token.len() == 1,
        Some(_) => is_all_digits(token),
    }
}

fn is_all_digits(token: &[u8]) -> bool
    ensures { result ≡ list_all is_ascii_digit token.now }
{
    token.iter().all(|digit| digit.is_ascii_digit())
}

/// The number that a token is: none where it is no number, or doesn't fit 64 bits.
pub fn number(token: &[u8]) -> Option<u64>
    ensures { result ≡ number_of token.now }
{
    if !is_number(token) {
        return None;
    }
    let mut worth: u64 = 0;
    for digit in token {
        worth = worth
            .checked_mul(10)?
            .checked_add(u64::from(*digit - b'0'))?;
    }
    Some(worth)
}

/// The number that a token is: none where it is no number, or isn't from `low` to `high`.
pub fn number_between(token: &[u8], low: u64, high: u64) -> Option<u64>
    ensures { result ≡ number_between token.now low high }
{
    let x = number(token)?;
    if low <= x && x <= high { Some(x) } else { None }
}
