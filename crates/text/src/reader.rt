// Decimal numbers out of bytes that arrive in chunks, into an array of 4,096 numbers that each call is lent. Numbers may have any count of
// leading zeros, blanks any length. The first refusal stays, whatever follows. The numbers read before it stay at the array's front,
// and every other word of the array is as it was.
ghost use Rattle.std.specs.Prelude.{◌≡◌, ◌<◌, ◌≤◌, ℕ, List, Option, None, take, IfOk};
ghost use Rattle.std.proofs.Math.Option.{none, some};
ghost use Rattle.rules.specs.Refusal.{refused};
ghost use Rattle.rules.specs.Text.{separates as text_separates, numbers as text_numbers};
ghost use Rattle.rules.specs.Reader as rules;
ghost use Rattle.text.specs.Front.{on_front};
ghost use Rattle.text.specs.Refused.{refused_is};
ghost use Rattle.text.specs.Reading.{token_of, token_with, error_of, read_of, reader_of, fed_in, ended_in, answer_of};

use crate::refused::Refused;
use tables::limits::HIGHEST_MODE;

// The most numbers of a text.
pub const NUMBERS: usize = 4096;

// The token that is being read. No `Option` of a number: none has begun, or what has begun is none, and the two go on differently.
#[derive(Clone, Copy, Debug, PartialEq, Eq)]
pub enum Token {
    Between,
    // Digits so far, of a number below 2^64.
    Within(u64),
    // No number.
    Junk,
}

// Why no numbers are read.
#[derive(Clone, Copy, Debug, PartialEq, Eq)]
pub enum ReadError {
    // Refusal 1, section 0: the token at this place, from 0, is no number below 2^64, or is a mode above 7.
    NoNumber(usize),
    // Refusal 2, section 0, position 4096.
    TooMany,
}

impl From<ReadError> for Refused {
    ghost from_gives = { λ why line. refused_is line ≡ error_of why };

    fn from(why: ReadError) -> Refused {
        let (number, position) = match why {
            ReadError::NoNumber(place) => (1, place as u64),
            ReadError::TooMany => (2, NUMBERS as u64),
        };
        Refused {
            number,
            section: 0,
            position,
        }
    }
}

// The state from chunk to chunk: how many numbers are read at the array's front, or the first refusal, and the token that is being read. It is copied
// freely; the array is lent to each call beside it, as no heap is used.
#[derive(Clone, Copy)]
pub struct Reader {
    pub read: Result<usize, ReadError>,
    pub token: Token,
}

impl Reader {
    // Before the first byte, whatever the array has.
    pub fn new() -> Reader
        ensures { (ws : List ℕ) → reader_of result ws ≡ rules.fresh }
    {
        Reader {
            read: Ok(0),
            token: Token::Between,
        }
    }

    // A chunk of bytes more. How the bytes are cut into chunks does not matter. The state is copied, so that it stays in registers from byte to byte.
    #[tactic(auto, unfolding(rules::specs::Reader::feed, crate::specs::Reading::fed_in), using(crate::proofs::Reading::one_more))]
    pub fn feed(&mut self, chunk: &[u8], numbers: &mut [u64; NUMBERS])
        ensures reader { reader_of self.new numbers.new ≡ rules.feed (reader_of self.old numbers.old) chunk.now }
        ensures numbers { numbers.new ≡ fed_in (reader_of self.old numbers.old) chunk.now numbers.old }
    {
        let mut reader = *self;
        for &b in chunk {
            reader = reader.step(b, numbers);
        }
        *self = reader;
    }

    // At the end of the bytes: how many numbers there are, the mode among them, or the first refusal.
    pub fn finish(self, numbers: &mut [u64; NUMBERS]) -> Result<usize, ReadError>
        ensures read { (answer_of result numbers.new ≡ rules.read_out (reader_of self numbers.old)) × IfOk result (λ n. (0 < n) × (n ≤ NUMBERS)) }
        ensures numbers { numbers.new ≡ ended_in (reader_of self numbers.old) numbers.old }
    {
        let count = closed(self.token, self.read, numbers)?;
        if count == 0 {
            return Err(ReadError::NoNumber(0));
        }
        let kept: &[u64] = numbers;
        Ok(count.min(kept.len()))
    }

    // One byte more.
    #[tactic(auto, unfolding(rules::specs::Reader::step))]
    fn step(self, b: u8, numbers: &mut [u64; NUMBERS]) -> Reader
        ensures reader { reader_of result numbers.new ≡ rules.step (reader_of self numbers.old) b }
        ensures numbers { numbers.new ≡ on_front (rules.step (reader_of self numbers.old) b).read numbers.old }
    {
        if separates(b) {
            return Reader {
                read: closed(self.token, self.read, numbers),
                token: Token::Between,
            };
        }
        Reader {
            read: self.read,
            token: grown(self.token, b),
        }
    }
}

// What is read once a token has ended. Most often none had begun, which is told first.
fn closed(
    token: Token,
    read: Result<usize, ReadError>,
    numbers: &mut [u64; NUMBERS],
) -> Result<usize, ReadError>
    ensures read { read_of result numbers.new ≡ rules.closed (token_of token) (read_of read numbers.old) }
    ensures numbers { numbers.new ≡ on_front (rules.closed (token_of token) (read_of read numbers.old)) numbers.old }
{
    match token {
        Token::Between => read,
        Token::Within(x) => put(read?, x, numbers),
        Token::Junk => Err(junk_at(read?, numbers)),
    }
}

// A number at the next place of the array, which is judged first.
#[tactic(auto, unfolding(rules::specs::Text::judge_token), using(crate::proofs::Reading::put_at_front))]
fn put(place: usize, x: u64, numbers: &mut [u64; NUMBERS]) -> Result<usize, ReadError>
    ensures read { read_of result numbers.new ≡ rules.put (some x) (take place numbers.old) }
    ensures numbers { numbers.new ≡ on_front (rules.put (some x) (take place numbers.old)) numbers.old }
{
    let numbers: &mut [u64] = numbers;
    if place >= numbers.len() {
        return Err(ReadError::TooMany);
    }
    if place == 0 && x > HIGHEST_MODE {
        return Err(ReadError::NoNumber(0));
    }
    numbers[place] = x;
    Ok(place + 1)
}

// Why a token that ends at a place, and is no number, is refused.
#[tactic(auto, unfolding(rules::specs::Text::judge_token))]
fn junk_at(place: usize, numbers: &[u64; NUMBERS]) -> ReadError
    ensures { refused (error_of result) ≡ rules.put none (take place numbers.now) }
{
    let numbers: &[u64] = numbers;
    if place >= numbers.len() {
        return ReadError::TooMany;
    }
    ReadError::NoNumber(place)
}

// Blanks are the space and the tab, line ends the bytes 13 and 10.
fn separates(b: u8) -> bool
    ensures { result ≡ text_separates b }
{
    b == b' ' || b == b'\t' || b == b'\r' || b == b'\n'
}

// The number that a digit after those of x makes, if the byte is one and the number is below 2^64.
#[tactic(auto, unfolding(rules::specs::Reader::digit_after))]
fn number_after(x: u64, b: u8) -> Option<u64>
    ensures { token_with result ≡ rules.digit_after x b }
{
    if !b.is_ascii_digit() {
        return None;
    }
    let digit = u64::from(b - b'0');
    // A test and no checked product: it is foreseen, and the next digit need not wait for it.
    if x > (u64::MAX - digit) / 10 {
        return None;
    }
    Some(x * 10 + digit)
}

// A byte that separates nothing.
fn grown(token: Token, b: u8) -> Token
    ensures { token_of result ≡ rules.grown (token_of token) b }
{
    let x = match token {
        Token::Between => 0,
        Token::Within(x) => x,
        Token::Junk => return Token::Junk,
    };
    match number_after(x, b) {
        Some(x) => Token::Within(x),
        None => Token::Junk,
    }
}

// The whole text at once.
pub fn read_text(bytes: &[u8], numbers: &mut [u64; NUMBERS]) -> Result<usize, ReadError>
    ensures read { (answer_of result numbers.new ≡ text_numbers bytes.now) × IfOk result (λ n. (0 < n) × (n ≤ NUMBERS)) }
    ensures numbers { numbers.new ≡ ended_in (rules.feed rules.fresh bytes.now) (fed_in rules.fresh bytes.now numbers.old) }
{
    let mut reader = Reader::new();
    reader.feed(bytes, numbers);
    reader.finish(numbers)
}
