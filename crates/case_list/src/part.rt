// The numbers of a part of a line. `4(1 2)` stands for 1 2 1 2 1 2 1 2, and `(1 2)` for 1 2; in brackets `7+2` is 7 the first time, and grows
// by 2 from each time to the next.
ghost use Rattle.std.specs.Prelude.{◌≤◌, vec_len};
ghost use Rattle.case_list.specs.declared.part.TheConstants.{MOST_NUMBERS};

use kept_lists::case::Fault;
use kept_lists::parts::number;
use std::alloc::Global;

// The most numbers of a part: a table with every count at its limit, or 4,096 names of 64 bytes, and some over.
const MOST_NUMBERS: usize = 320000;

// The most numbers in brackets.
const MOST_MEMBERS: usize = 80;

// A number in brackets, and by how much it grows.
#[derive(Clone, Copy)]
struct Member {
    first: u64,
    step: u64,
}

impl Member {
    fn read(word: &str) -> Result<Member, Fault> {
        let (first, step) = word.split_once('+').unwrap_or((word, "0"));
        Ok(Member {
            first: number(first)?,
            step: number(step)?,
        })
    }

    fn at(self, time: u64) -> u64 {
        self.first.wrapping_add(self.step.wrapping_mul(time))
    }
}

// The numbers of a part, no more than the most.
#[derive(Drop)]
pub struct Part {
    pub numbers: Vec<u64>,
    ghost few: { vec_len numbers ≤ MOST_NUMBERS },
}

impl Part {
    pub fn read(alloc: Global, text: &str) -> Result<Part, Fault> {
        let mut part = Part {
            numbers: Vec::new(alloc),
        };
        let mut pieces = text.split('(');
        let mut before = pieces.next().unwrap_or("");
        for piece in pieces {
            let (group, after) = piece.split_once(')').ok_or(Fault::Malformed)?;
            let (words, times) = before.rsplit_once(' ').unwrap_or(("", before));
            part.push_words(words)?;
            part.push_group(times, group)?;
            before = after;
        }
        part.push_words(before)?;
        Ok(part)
    }

    fn push(&mut self, number: u64) -> Result<(), Fault> {
        if self.numbers.len() == MOST_NUMBERS {
            return Err(Fault::Malformed);
        }
        self.numbers.push(number)?;
        Ok(())
    }

    fn push_words(&mut self, words: &str) -> Result<(), Fault> {
        for word in words.split(' ').filter(|word| !word.is_empty()) {
            self.push(number(word)?)?;
        }
        Ok(())
    }

    fn push_group(&mut self, times: &str, group: &str) -> Result<(), Fault> {
        let times = if times.is_empty() { 1 } else { number(times)? };
        let members: Vec<Member> = group
            .split(' ')
            .filter(|word| !word.is_empty())
            .take(MOST_MEMBERS + 1)
            .map(Member::read)
            .try_collect(*self.numbers.allocator())?;
        if times == 0 || members.is_empty() || members.len() > MOST_MEMBERS {
            return Err(Fault::Malformed);
        }
        let size = times.saturating_mul(members.len() as u64);
        if size > (MOST_NUMBERS - self.numbers.len()) as u64 {
            return Err(Fault::Malformed);
        }
        // For all of them at once, as a vector that grows stands beside the smaller one.
        self.numbers.reserve(size as usize)?;
        for time in 0..times {
            for member in &members {
                self.push(member.at(time))?;
            }
        }
        Ok(())
    }
}

#[cfg(test)]
mod tests {
    use super::*;
    use std::test::Fail;

    #[test]
    fn numbers_of_a_part(rt: HostRuntime) -> Result<(), Fail> {
        let cases: [(&str, &[u64]); 9] = [
            ("", &[]),
            (" 1  02 ", &[1, 2]),
            ("4(1 2)", &[1, 2, 1, 2, 1, 2, 1, 2]),
            ("5 (1 2) 6", &[5, 1, 2, 6]),
            ("3(7+2)", &[7, 9, 11]),
            ("2( 1 5+3 )", &[1, 5, 1, 8]),
            ("2(1)3(2)4", &[1, 1, 2, 2, 2, 4]),
            ("18446744073709551615", &[18446744073709551615]),
            ("3(18446744073709551615+2)", &[18446744073709551615, 1, 3]),
        ];
        for (text, numbers) in cases {
            let part = Part::read(rt.alloc(), text)?;
            assert!(rt; part.numbers.as_slice() == numbers, "{text}");
        }
        Ok(())
    }

    #[test]
    fn malformed_parts(rt: HostRuntime) {
        let parts = [
            "18446744073709551616",
            "-1",
            "a",
            "1\t2",
            "+1",
            "1+2",
            "(+1)",
            "(1+)",
            "(1+2+3)",
            "(1++2)",
            "(1",
            "1)",
            "()",
            "2( )",
            "0(1)",
            "(1(2))",
            "a(1)",
            "320001(1)",
            "160001(1 2)",
        ];
        for text in parts {
            let part = Part::read(rt.alloc(), text);
            assert!(rt; matches!(part, Err(Fault::Malformed)), "{text}");
        }
    }
}
