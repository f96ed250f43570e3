// What the program prints, once the numbers of a text are read: sections and names are cut, the call is made, its answer is printed.
ghost use Rattle.std.specs.Prelude.{◌<◌, ◌≤◌, get_or};
ghost use Rattle.rules.specs.Call.{impl, outcome};
ghost use Rattle.rules.specs.Limits.{house};
ghost use Rattle.rules.specs.Text.{after_numbers, printed, program};
ghost use Rattle.tables.specs.Refusals.{refusal_of};
ghost use Rattle.text.specs.Refused.{refused_is};
ghost use Rattle.text.specs.Reading.{answer_of};
ghost use Rattle.text_answer.specs.Answering.{Prints, Shown, after_mode, answer_after, call_of};

use optimize::optimize::optimize_model_impl;
use tables::judge::judge_mode;
use tables::refusal::Refusal;
use text::printer::{print_accepted, print_refused};
use text::reader::{NUMBERS, ReadError, read_text};
use text::refused::Refused;
use text::split::{BYTES, names_bytes, sections_end};

// No heap is used, so numbers, names and words are in arrays, with a count or an end of their own.
// Room for the longest answer: 4,096 words of 20 digits, a blank or a line end after each, and 18 bytes more.
pub const ROOM: usize = 86034;

// The words of a result, and of scratch.
const WORDS: usize = 4096;

// A call, its result printed from the front of `out` on; a refusal leaves `out` as it was. Its own buffers are made here, where there is a call.
fn print_call(
    mode: u64,
    words: &[u64],
    names: &[u8],
    out: &mut [u8; ROOM],
) -> Result<usize, Refusal>
    ensures { Prints refusal_of result out.old out.new (outcome house impl (call_of mode words.now names.now)) }
{
    let mut res = [0u64; WORDS];
    let mut scratch = [0u64; WORDS];
    optimize_model_impl(mode, words, names, &mut res, &mut scratch)?;
    Ok(print_accepted(out, &res).unwrap())
}

// The call that so many numbers make: the mode, the sections and the names.
#[tactic(auto, using(crate::proofs::Answering::stages))]
fn called(numbers: &[u64; NUMBERS], count: usize, out: &mut [u8; ROOM]) -> Result<usize, Refusal>
    requires { (0 < count) × (count ≤ 4096) }
    ensures { Prints refusal_of result out.old out.new (after_numbers house (get_or numbers.now 0 0, after_mode numbers.now count)) }
{
    let kept: &[u64] = numbers;
    let mode = kept[0];
    judge_mode(mode)?;
    let words = &kept[1..count];
    let end = sections_end(words)?;
    let mut names = [0u8; BYTES];
    let size = names_bytes(numbers, 1 + end, count, &mut names)?;
    let bytes: &[u8] = &names;
    print_call(mode, &words[..end], &bytes[..size], out)
}

// The outcome of the numbers that were read, or of the refusal of reading. A count past the array is all of it, and one of 0, which no
// reading gives, counts as 1.
fn worked(
    read: Result<usize, ReadError>,
    numbers: &[u64; NUMBERS],
    out: &mut [u8; ROOM],
) -> Result<usize, Refused>
    ensures { Prints refused_is result out.old out.new (answer_after (answer_of read numbers.now)) }
{
    let count = read?.clamp(1, NUMBERS);
    Ok(called(numbers, count, out)?)
}

// The answer to the numbers that were read, or to the refusal of reading, printed from the buffer's front on. It tells how many bytes.
pub fn answer(
    read: Result<usize, ReadError>,
    numbers: &[u64; NUMBERS],
    out: &mut [u8; ROOM],
) -> usize
    ensures { Shown out.old out.new result (printed (answer_after (answer_of read numbers.now))) }
{
    match worked(read, numbers, out) {
        Ok(size) => size,
        Err(why) => print_refused(out, why).unwrap(),
    }
}

// The answer to a whole text.
#[tactic(auto, using(crate::proofs::Answering::shown_as, crate::proofs::Answering::text_program))]
pub fn answer_text(text: &[u8], out: &mut [u8; ROOM]) -> usize
    ensures { Shown out.old out.new result (program text.now) }
{
    let mut numbers = [0u64; NUMBERS];
    let read = read_text(text, &mut numbers);
    answer(read, &numbers, out)
}
