//! Reads decimal numbers. A number has only digits, without a sign and without a leading zero; `0` itself is a number.

ghost use Rattle.std.specs.Prelude.{◌≡◌, ◌+◌, ◌-◌, ◌*◌, ◌^◌, cond, None};
ghost use Rattle.pud_defs.specs.StateMachine.Grammar.{begins_as_number, is_digit, in_range, number_within};

/// Whether a number may begin like this: there is a first byte, and it is not a `0` before other bytes.
fn begins_as_number(digits: &[u8]) -> bool
    ensures { result ≡ begins_as_number digits.now }
{
    match digits {
        [] => false,
        [_] => true,
        [first, ..] => *first != b'0',
    }
}

/// Adds one more digit at the end of a number. None if the byte is no digit, or if the number would be 2^64 or larger.
fn with_digit(above: u64, digit: u8) -> Option<u64>
    ensures { result ≡ cond (is_digit digit) (in_range 0 (2 ^ 64) (above * 10 + (digit - 48))) None }
{
    if !digit.is_ascii_digit() {
        return None;
    }
    above.checked_mul(10)?.checked_add(u64::from(digit - b'0'))
}

/// Reads the bytes as a number. None if they are no number, or if the number is 2^64 or larger.
#[tactic(auto, using(crate::proofs::Digits::read))]
pub fn read_number(digits: &[u8]) -> Option<u64>
    ensures { result ≡ number_within 0 (2 ^ 64) digits.now }
{
    if !begins_as_number(digits) {
        return None;
    }
    let mut value = 0;
    for digit in digits {
        value = with_digit(value, *digit)?;
    }
    Some(value)
}

/// Reads the bytes as a number that is at least `least` and below `end`. None if they are no such number.
pub fn read_within(digits: &[u8], least: u32, end: u32) -> Option<u32>
    ensures { result ≡ number_within least end digits.now }
{
    let number = u32::try_from(read_number(digits)?).ok()?;
    (least <= number && number < end).then_some(number)
}
