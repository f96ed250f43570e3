// Names by the place of their length byte, over the bytes and a number, by the house's limits. The reader is made of these. Bytes and place stand beside
// one another as the functions are public, and what they take may not change.
#![tactic(auto, using(crate::proofs::PlaceLaws::places))]

ghost use Rattle.std.specs.Prelude.{◌≡◌};
ghost use Rattle.names.specs.Reading.{next_of, next_at, name_at, after_at, begins_at, is_named};

use tables::limits::Limits;
use tables::names::{NameSpan, name_place, read_name};
use tables::refusal::Refusal;

// The name whose length byte stands at a place, `None` at the end of the bytes, or why no name can be read there.
pub fn next_at(names: &[u8], at: usize) -> Result<Option<NameSpan>, Refusal>
    ensures { next_of result ≡ next_at names.now at }
{
    if names.len() <= at {
        return Ok(None);
    }
    let name = read_name(names, at, Limits::house())?;
    Ok(Some(name))
}

// The bytes of the name at a place, as a part of the names bytes; no bytes where no name can be read.
pub fn name_at<'a>(names: &'a [u8], at: usize) -> &'a [u8]
    ensures { result.now ≡ name_at names.now at }
{
    match read_name(names, at, Limits::house()) {
        Ok(name) => &names[name.start..name.start + name.len],
        Err(_) => &names[..0],
    }
}

// The place after the name at a place; the same place where no name can be read.
pub fn after(names: &[u8], at: usize) -> usize
    ensures { result ≡ after_at names.now at }
{
    read_name(names, at, Limits::house()).map_or(at, |name| name.start + name.len)
}

// The place of name `k`'s length byte; the end of the bytes where there is no name `k`, or the bytes are refused.
pub fn begins_at(names: &[u8], k: u64) -> usize
    ensures { result ≡ begins_at names.now k }
{
    match name_place(names, k, Limits::house()) {
        Some(name) => name.start - 1,
        None => names.len(),
    }
}

// Whether there is a name `k`: an empty name is one.
pub fn is_named(names: &[u8], k: u64) -> bool
    ensures { result ≡ is_named names.now k }
{
    name_place(names, k, Limits::house()).is_some()
}
