// What the lists are made of: lines, and numbers in decimal.
ghost use Rattle.std.specs.Prelude.{◌≡◌, ◌<◌, ◌+◌, ◌*◌, ◌^◌, ◌∷◌, ◌++◌, length, true, Contains, IfOk, OnErr};
ghost use Rattle.std.specs.Char.{digit_value};
ghost use Rattle.std.specs.Result.{OkIff};
ghost use Rattle.std.specs.Str.{all_ascii_digits};
ghost use Rattle.std.specs.Str.Parse.{digits_value};

use crate::case::Fault;
use memchr::memchr;

// A list's first line, and what comes after its end.
pub fn cut_line(list: &[u8]) -> Result<(&[u8], &[u8]), Fault>
    ensures line { IfOk result (λ p. (list.now ≡ p.0.now ++ 10 ∷ p.1.now) × ¬ (Contains p.0.now 10)) }
    ensures no_end { OnErr result (¬ (Contains list.now 10)) }
{
    let end = memchr(b'\n', list).ok_or(Fault::Malformed)?;
    Ok((&list[..end], &list[end + 1..]))
}

// The number of one digit more, if the byte is one and the number is below 2^64. A test and no checked product: the processor foresees it.
fn with_digit(value: u64, b: u8) -> Result<u64, ()>
    ensures { OkIff result ((digit_value b < 10) × (value * 10 + digit_value b < 2 ^ 64)) (value * 10 + digit_value b) }
{
    if !b.is_ascii_digit() {
        return Err(());
    }
    let digit = u64::from(b - b'0');
    if value > (u64::MAX - digit) / 10 {
        return Err(());
    }
    Ok(value * 10 + digit)
}

// The number that digits stand for, without a sign.
pub fn number_in(digits: &[u8]) -> Result<u64, Fault>
    ensures { OkIff result ((all_ascii_digits digits.now ≡ true) × (0 < length digits.now) × (digits_value 10 digits.now < 2 ^ 64)) (digits_value 10 digits.now) }
{
    if digits.is_empty() {
        return Err(Fault::Malformed);
    }
    let mut value = 0;
    for &b in digits {
        let Ok(next) = with_digit(value, b) else {
            return Err(Fault::Malformed);
        };
        value = next;
    }
    Ok(value)
}

// The same of a text.
pub fn number(digits: &str) -> Result<u64, Fault>
    ensures { OkIff result ((all_ascii_digits digits.now ≡ true) × (0 < length digits.now) × (digits_value 10 digits.now < 2 ^ 64)) (digits_value 10 digits.now) }
{
    number_in(digits.as_bytes())
}
