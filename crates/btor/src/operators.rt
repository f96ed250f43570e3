// The operators of BTOR2 on numbers of at most 64 bits, as optimize.rs folds them, and Div and Rem as the standard has them.
#![tactic(auto, unfolding(crate::specs::Operators::compute, crate::specs::Operators::signed_div))]

ghost use Rattle.std.specs.Prelude.{◌≡◌, ◌+◌, ◌*◌, ◌/◌, ◌%◌, ◌^◌};
ghost use Rattle.btor.specs.Operators.{Op, rust, standard, compute, both, either, complement, less, same, extend};
ghost use Rattle.btor.specs.Readings.{reading_is};
ghost use Rattle.btor.specs.Sorts.{width_of};

use crate::node_type::NodeType;
use crate::reading::Reading;

const HALF: u64 = 9223372036854775808;

const LIMB: u64 = 65536;

// The sum modulo 2^64.
pub fn wrapping_add(left: u64, right: u64) -> u64
    ensures { result ≡ compute rust Op.Add left right }
{
    left.wrapping_add(right)
}

// The difference modulo 2^64.
pub fn wrapping_sub(left: u64, right: u64) -> u64
    ensures { result ≡ compute rust Op.Sub left right }
{
    left.wrapping_sub(right)
}

// The product of two numbers of 16 bits, in 32: the only multiplication here, as the project wants products of its own.
fn piece(left: u16, right: u16) -> u32
    ensures { result ≡ left * right }
{
    left as u32 * right as u32
}

// The product of the lowest limbs of two words. A limb has 16 bits.
fn low_piece(left: u64, right: u64) -> u32
    ensures { result ≡ left % 2 ^ 16 * (right % 2 ^ 16) }
{
    piece((left % LIMB) as u16, (right % LIMB) as u16)
}

// A sum and columns 0 and 1 of a product, modulo 2^64: limbs i and j meet in column i + j.
fn add_columns(sum: u64, left: u64, right: u64) -> u64
    ensures { result ≡ (sum + (left % 2 ^ 16 * (right % 2 ^ 16) + (left / 2 ^ 16 % 2 ^ 16 * (right % 2 ^ 16) + left % 2 ^ 16 * (right / 2 ^ 16 % 2 ^ 16)) * 2 ^ 16)) % 2 ^ 64 }
{
    let cross = low_piece(left >> 16, right) as u64 + low_piece(left, right >> 16) as u64;
    sum.wrapping_add(low_piece(left, right) as u64 + (cross << 16))
}

// The product modulo 2^64: columns 0 to 3, ten pieces.
#[tactic(auto, unfolding(crate::specs::Operators::compute), using(crate::proofs::Words::product_by_pieces))]
pub fn wrapping_mul(left: u64, right: u64) -> u64
    ensures { result ≡ compute rust Op.Mul left right }
{
    let middle = low_piece(left >> 16, right >> 16) as u64;
    let high = add_columns(add_columns(middle, left >> 32, right), left, right >> 32);
    add_columns(high << 32, left, right)
}

// Signed, toward zero; by 0, and for the least by -1, the greatest.
pub fn btor_u64_div(left: u64, right: u64) -> u64
    ensures { result ≡ compute rust Op.Div left right }
{
    match left.cast_signed().checked_div(right.cast_signed()) {
        Some(quotient) => quotient.cast_unsigned(),
        None => HALF - 1,
    }
}

// Unsigned; by 0, all ones.
pub fn btor_u64_divu(left: u64, right: u64) -> u64
    ensures { result ≡ compute rust Op.Divu left right }
{
    left.checked_div(right).unwrap_or(u64::MAX)
}

// Unsigned; by 0, all ones.
pub fn btor_u64_rem(left: u64, right: u64) -> u64
    ensures { result ≡ compute rust Op.Rem left right }
{
    left.checked_rem(right).unwrap_or(u64::MAX)
}

// The standard's Div: by 0, all ones for a dividend of 0 or more and 1 for a negative one; the least by -1 is the least.
pub fn standard_div(left: u64, right: u64) -> u64
    ensures { result ≡ compute standard Op.Div left right }
{
    if right == 0 {
        if left < HALF { u64::MAX } else { 1 }
    } else {
        let quotient = left.cast_signed().wrapping_div(right.cast_signed());
        quotient.cast_unsigned()
    }
}

// The standard's Rem: by 0, the dividend.
pub fn standard_rem(left: u64, right: u64) -> u64
    ensures { result ≡ compute standard Op.Rem left right }
{
    left.checked_rem(right).unwrap_or(left)
}

// Div in either reading. Of the operators two have a reading, and a match says it in less than a trait with an instance for each.
pub fn div(how: Reading, left: u64, right: u64) -> u64
    ensures { result ≡ compute (reading_is how) Op.Div left right }
{
    match how {
        Reading::Rust => btor_u64_div(left, right),
        Reading::Standard => standard_div(left, right),
    }
}

// Rem in either reading.
pub fn rem(how: Reading, left: u64, right: u64) -> u64
    ensures { result ≡ compute (reading_is how) Op.Rem left right }
{
    match how {
        Reading::Rust => btor_u64_rem(left, right),
        Reading::Standard => standard_rem(left, right),
    }
}

// To the left; by 64 or more, 0. The distance is any word, where the library's `unbounded_shl` takes 32 bits of one.
pub fn btor_u64_sll(left: u64, right: u64) -> u64
    ensures { result ≡ compute rust Op.Sll left right }
{
    if right < 64 { left << right } else { 0 }
}

// To the right, zeros coming in; by 64 or more, 0.
pub fn btor_u64_srl(left: u64, right: u64) -> u64
    ensures { result ≡ compute rust Op.Srl left right }
{
    if right < 64 { left >> right } else { 0 }
}

pub fn and(left: u64, right: u64) -> u64
    ensures { result ≡ both left right }
{
    left & right
}

pub fn or(left: u64, right: u64) -> u64
    ensures { result ≡ either left right }
{
    left | right
}

// The complement within a sort's width, of the number's lowest bits.
#[tactic(auto, using(crate::proofs::Sorts::width_le, crate::proofs::Words::complement_masked))]
pub fn not(value: u64, sort: NodeType) -> u64
    ensures { result ≡ complement (width_of sort) value }
{
    !value & sort.ones()
}

pub fn ult(left: u64, right: u64) -> bool
    ensures { result ≡ less left right }
{
    left < right
}

pub fn eq(left: u64, right: u64) -> bool
    ensures { result ≡ same left right }
{
    left == right
}

// A number of a narrower sort as a word.
pub fn ext(value: u64) -> u64
    ensures { result ≡ extend value }
{
    value
}
