// From the numbers of a text to a call: where sections 1 to 6 end in the numbers after the mode, and the names, which follow them as
// numbers, as bytes at the front of a lent array, whose other bytes stay; after a refusal all of it is as it was.
ghost use Rattle.std.specs.Prelude.{◌≡◌, true, ◌+◌, ◌-◌, ◌<◌, ◌≤◌, length, take, drop, IfOk};
ghost use Rattle.rules.specs.Refusal.{done};
ghost use Rattle.rules.specs.Limits.{house};
ghost use Rattle.rules.specs.Text.{all_bytes};
ghost use Rattle.text.specs.Front.{on_front};
ghost use Rattle.text.specs.Splitting.{end_of, rest_of, Judges, cut_all, counted, names_of, bytes_in};

use crate::reader::NUMBERS;
use tables::limits::{Limits, NAME_LENGTH, NAMES};
use tables::refusal::Refusal;
use tables::sections::cut_six;

// No heap is used, so the names are bytes at the front of a lent array, and how many is handed back.
// The most names bytes of a text: the count, one number, takes two of them.
pub const BYTES: usize = 4097;

// The section of the names, whose refusals are 2 for a count or a length over its limit, else 1.
const SECTION: u64 = 7;

// Where sections 1 to 6 end in the numbers after the mode.
pub fn sections_end(words: &[u64]) -> Result<usize, Refusal>
    ensures { (end_of result words.now ≡ rest_of house words.now) × IfOk result (λ end. end ≤ length words.now) }
{
    let sections = cut_six(words, Limits::house())?;
    Ok(sections.replies.end)
}

// So many names: a length within its limit each, then as many values, and nothing after them.
#[tactic(auto, using(crate::proofs::Splitting::lengths_judged))]
fn judge_lengths(count: u64, values: &[u64]) -> Result<(), Refusal>
    ensures { Judges result (cut_all house count values.now) }
{
    let mut rest = values;
    for _ in 0..count {
        let Some((&size, after)) = rest.split_first() else {
            return Err(Refusal::Short(SECTION));
        };
        if size > u64::from(NAME_LENGTH) {
            return Err(Refusal::OverLimit(SECTION));
        }
        if size > after.len() as u64 {
            return Err(Refusal::Short(SECTION));
        }
        rest = &after[size as usize..];
    }
    if rest.is_empty() {
        Ok(())
    } else {
        Err(Refusal::Short(SECTION))
    }
}

// Whether no value is above 255.
fn all_bytes(values: &[u64]) -> bool
    ensures { result ≡ all_bytes values.now }
{
    values.iter().all(|&value| value < 256)
}

// The names bytes at the front of the buffer: the count in two bytes, low byte first, then the values.
fn put_names(count: u64, values: &[u64], out: &mut [u8])
    requires { (count ≤ house.names) × (length values.now + 2 ≤ length out.old) × (all_bytes values.now ≡ true) }
    ensures { out.new ≡ on_front (done (counted count values.now)) out.old }
{
    out[..2].copy_from_slice(&(count as u16).to_le_bytes());
    // By index: behind a `zip` of `iter_mut` std's contracts leave the elements unknown.
    for (i, &value) in values.iter().enumerate() {
        out[i + 2] = value as u8;
    }
}

// The names in numbers: how many, then length and byte values each. The first number is a claim, which is judged against the values: not their length.
#[tactic(auto, unfolding(rules::specs::Text::names_in_numbers), using(crate::proofs::Splitting::after_the_count))]
fn names_in(numbers: &[u64], out: &mut [u8]) -> Result<usize, Refusal>
    requires { length numbers.now < length out.old }
    ensures names { (names_of result out.new ≡ bytes_in house numbers.now) × IfOk result (λ n. n ≤ length out.old) }
    ensures bytes { out.new ≡ on_front (bytes_in house numbers.now) out.old }
{
    let Some((&count, values)) = numbers.split_first() else {
        return Err(Refusal::Short(SECTION));
    };
    if count > u64::from(NAMES) {
        return Err(Refusal::OverLimit(SECTION));
    }
    judge_lengths(count, values)?;
    if !all_bytes(values) {
        return Err(Refusal::Short(SECTION));
    }
    put_names(count, values, out);
    Ok(values.len() + 2)
}

// The names that stand in the numbers from one place to another, as bytes at the front of the array. An array with places, as of a slice nothing would
// bound how many bytes there are, and nothing is asked of the caller.
#[tactic(auto, using(crate::proofs::Splitting::part_none, crate::proofs::Splitting::part_some))]
pub fn names_bytes(
    numbers: &[u64; NUMBERS],
    from: usize,
    to: usize,
    out: &mut [u8; BYTES],
) -> Result<usize, Refusal>
    ensures names { (names_of result out.new ≡ bytes_in house (take (to - from) (drop from numbers.now))) × IfOk result (λ n. n ≤ BYTES) }
    ensures bytes { out.new ≡ on_front (bytes_in house (take (to - from) (drop from numbers.now))) out.old }
{
    let Some(part) = numbers.get(from..to.min(NUMBERS)) else {
        return Err(Refusal::Short(SECTION));
    };
    names_in(part, out)
}
