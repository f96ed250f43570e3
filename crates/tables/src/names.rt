// The names bytes, section 7: a two-byte count, low byte first, then each name after a one-byte length.
ghost use Rattle.std.specs.Prelude.{◌≡◌, ℕ, ◌+◌, ◌<◌, ◌≤◌, length, get_or, IfOk, IfSome};
ghost use Rattle.rules.specs.Limits.{house};
ghost use Rattle.rules.specs.Refusal.{done};
ghost use Rattle.rules.specs.Names.{starts_with, memory_dump, length_place};
ghost use Rattle.tables.specs.LimitAnswers.{limits_is};
ghost use Rattle.tables.specs.NameAnswers.{count_of, names_count, read_of, read_at, placed, place_of, is_dump, dump_mark};

use crate::limits::{Limits, NAME_MARKS};
use crate::refusal::Refusal;

// Where a name's bytes stand. Their end is written out where it is wanted: of a span that anyone may make, a function could not always tell it.
#[derive(Clone, Copy, Debug, PartialEq, Eq)]
pub struct NameSpan {
    pub start: usize,
    pub len: usize,
}

// The byte at a place, as the walk below holds one; 0 past the end.
fn byte(bytes: &[u8], at: usize) -> usize
    ensures { (result ≡ get_or bytes.now at 0) × (result < 256) }
{
    bytes.get(at).map_or(0, |byte| usize::from(*byte))
}

// Reads one name, from its length byte on, whose place is a number: callers hold such places, and ask for another from the name's end.
#[tactic(auto, using(crate::proofs::NameLaws::one_name))]
pub fn read_name(names: &[u8], at: usize, limits: Limits) -> Result<NameSpan, Refusal>
    ensures read { read_of result ≡ read_at (limits_is limits) names.now at }
    ensures inside { IfOk result (λ name. name.start + name.len ≤ length names.now) }
{
    let Some(&size) = names.get(at) else {
        return Err(Refusal::Short(7));
    };
    let len = usize::from(size);
    let start = at + 1;
    let longest = limits.name_length as usize;
    if longest < len {
        Err(Refusal::OverLimit(7))
    } else if names.len() < start + len {
        Err(Refusal::Short(7))
    } else {
        Ok(NameSpan { start, len })
    }
}

// Judges section 7: refusal 2 before 1, and bytes after the last name are 1.
pub fn cut_names(names: &[u8], limits: Limits) -> Result<usize, Refusal>
    ensures { count_of result ≡ names_count (limits_is limits) names.now }
{
    let [low, high, ..] = names else {
        return Err(Refusal::Short(7));
    };
    let count = usize::from(u16::from_le_bytes([*low, *high]));
    if (limits.names as usize) < count {
        return Err(Refusal::OverLimit(7));
    }
    // By `try_fold` the two statements are the same, in a closure that has a result of its own: no plainer.
    let mut at: usize = 2;
    for _ in 0..count {
        let name = read_name(names, at, limits)?;
        at = name.start + name.len;
    }
    if at < names.len() {
        return Err(Refusal::Short(7));
    }
    Ok(count)
}

// The place of the length byte after so many names: by place, since `name_place` hands one out, and over judged bytes, so that no name is judged again.
fn skip_names(names: &[u8], skipped: u32) -> usize
    ensures { result ≡ length_place skipped names.now 2 }
{
    (0..skipped).fold(2, |at, _| at + 1 + byte(names, at))
}

// Where name `k` stands: names count from 1, and none stands anywhere in bytes that are refused.
pub fn name_place(names: &[u8], k: u64, limits: Limits) -> Option<NameSpan>
    ensures place { placed result ≡ place_of (limits_is limits) names.now k }
    ensures inside { IfSome result (λ name. name.start + name.len ≤ length names.now) }
{
    if k == 0 {
        return None;
    }
    let Ok(count) = cut_names(names, limits) else {
        return None;
    };
    if (count as u64) < k {
        return None;
    }
    let at = skip_names(names, (k - 1) as u32);
    let len = byte(names, at);
    Some(NameSpan { start: at + 1, len })
}

fn starts_with_memory_dump(name: &[u8]) -> bool
    ensures { result ≡ starts_with memory_dump name.now }
{
    name.starts_with(b"memory-dump")
}

// Whether name `k` starts with "memory-dump": not where there is no name `k`, or the bytes are refused.
pub fn is_memory_dump(names: &[u8], k: u64, limits: Limits) -> bool
    ensures { result ≡ is_dump (limits_is limits) names.now k }
{
    match name_place(names, k, limits) {
        Some(name) => starts_with_memory_dump(&names[name.start..name.start + name.len]),
        None => false,
    }
}

// Marks the names of bytes that hold so many of them by the house's limits, from name 1 on. None is judged again.
fn mark_names(names: &[u8], marks: &mut [u8])
    requires { names_count house names.now ≡ done (length marks.old) }
    ensures { (k : ℕ) → k < length marks.old → get_or marks.new k 0 ≡ dump_mark house names.now (k + 1) }
{
    let mut rest = &names[2..];
    for mark in marks.iter_mut() {
        let end = 1 + usize::from(rest[0]);
        *mark = u8::from(starts_with_memory_dump(&rest[1..end]));
        rest = &rest[end..];
    }
}

// The marks are bytes, not bools: the function is public, and its signature and its promise may not change.
// Sets mark k to 1 where name k starts with "memory-dump", and every other mark to 0, whatever they were.
pub fn mark_memory_dumps(names: &[u8], marks: &mut [u8; NAME_MARKS])
    ensures by_index { (k : ℕ) → get_or marks.new k 0 ≡ dump_mark house names.now k }
    ensures marks_len { length marks.new ≡ 4097 }
{
    *marks = [0u8; NAME_MARKS];
    if let Ok(count) = cut_names(names, Limits::house()) {
        mark_names(names, &mut marks[1..count + 1]);
    }
}
