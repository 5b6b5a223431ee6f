// Numbers as they are printed.
ghost use Rattle.std.specs.Prelude.{◌≡◌, ℕ, ◌^◌, ◌<◌, Some, IfSome, decimal};
ghost use Rattle.lsm_below.specs.Numbers.{plain_number, PlainNumbersAreRead};

/// The number that a text is: its plain decimal digits, with no leading 0 and below 2^64.
pub fn parse_number(word: &[u8]) -> Option<u64>
    ensures value { result ≡ plain_number word.now }

    // So it reads what printing a number writes, and nothing else.
    ensures printed { IfSome result (λ n. word.now ≡ decimal n) }
    ensures reads_back { (n : ℕ) → n < 2 ^ 64 → word.now ≡ decimal n → result ≡ Some n }
{
    let first = *word.first()?;
    if !first.is_ascii_digit() {
        return None;
    }
    if first == b'0' && word.len() > 1 {
        return None;
    }
    match str::from_utf8(word) {
        Ok(digits) => digits.parse().ok(),
        Err(_) => None,
    }
}

/// What printing a number writes is read back.
pub fn plain_numbers_are_read()
    ensures { PlainNumbersAreRead }
{}
