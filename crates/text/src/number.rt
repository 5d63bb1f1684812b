// Decimal numbers of up to 32 bits, without leading zeros.
ghost use Rattle.std.specs.Prelude.{◌≡◌};
ghost use Rattle.text.specs.Numbers.{one_digit_more, digits_after, numeral, Reads};

// The number that is written with one more digit, if it has up to 32 bits.
fn with_digit(value: u32, byte: u8) -> Option<u32>
    ensures { result ≡ one_digit_more value byte }
{
    let digit = char::from(byte).to_digit(10)?;
    value.checked_mul(10)?.checked_add(digit)
}

// The number that digits alone write, if it has up to 32 bits. A `for`, whose invariant is a line; `try_fold` takes a page of lemmas.
fn digits(text: &[u8]) -> Option<u32>
    ensures { result ≡ digits_after 0 text.now }
{
    let mut value = 0;
    for byte in text {
        value = with_digit(value, *byte)?;
    }
    Some(value)
}

// The number whose decimal digits these bytes are, if they are any number's of up to 32 bits.
#[tactic(auto, using(crate::proofs::DecimalLaws::reads))]
pub fn number(text: &[u8]) -> Option<u32>
    ensures value { result ≡ numeral text.now }
    ensures decimal { Reads text.now result }
{
    match text {
        // None, or a zero before others.
        [] | [b'0', _, ..] => None,
        _ => digits(text),
    }
}
