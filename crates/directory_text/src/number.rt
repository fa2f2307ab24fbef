// Decimal numbers below 2^64.
ghost use Rattle.std.specs.Prelude.{◌≡◌};
ghost use Rattle.directory_text.specs.Number.{digit_more, word_number};

#[derive(Clone, Copy, PartialEq, Eq)]
pub enum NotNumber {
    NotDecimal,
    TooLarge,
}

// The number with a digit more, if it stays below 2^64.
#[tactic(auto, unfolding(crate::specs::Number::digit_more, crate::specs::Number::decimal_digit))]
fn with_digit(number: u64, character: u8) -> Result<u64, NotNumber>
    ensures { result ≡ digit_more number character }
{
    if !character.is_ascii_digit() {
        return Err(NotNumber::NotDecimal);
    }
    number
        .checked_mul(10)
        .and_then(|tens| tens.checked_add(u64::from(character - b'0')))
        .ok_or(NotNumber::TooLarge)
}

#[tactic(auto, unfolding(crate::specs::Number::word_number, crate::specs::Number::number_from))]
pub fn number_of(word: &[u8]) -> Result<u64, NotNumber>
    ensures { result ≡ word_number word.now }
{
    if word.is_empty() {
        return Err(NotNumber::NotDecimal);
    }
    let mut number = 0;
    for character in word {
        number = with_digit(number, *character)?;
    }
    Ok(number)
}
