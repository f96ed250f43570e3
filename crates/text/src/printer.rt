// Numbers, lines and the program's answer, printed on a page: a lent buffer and the place where the next byte goes. What does not fit is not
// written: the buffer then holds the bytes up to its end, the page is full, and printing on a full page writes nothing.
// By methods of the page and not by `write!`: the contract of `write!` says what was written where it answers `Ok`, and nothing says that it always does;
// here what is written is promised of every call.
ghost use Rattle.std.specs.Prelude.{◌≡◌, [], ◌∷◌, ◌+◌, ◌*◌, ◌≤◌, length};
ghost use Rattle.rules.specs.Refusal.{refused};
ghost use Rattle.rules.specs.Text.{decimal, blanked, line, lines, printed};
ghost use Rattle.text.specs.Refused.{refused_is};
ghost use Rattle.text.specs.Printing.{page, page_of, laid, SectionEnds, sections_in, result_widths, accepted_text};

use crate::refused::Refused;
use itoa::Buffer;

// How many words each entry of a result section has: nodes, made constants, replacements, three lists, inputs left, questions, the tally.
const WIDTHS: [u64; 9] = [6, 2, 2, 1, 1, 1, 1, 4, 1];

// A buffer, and where the next byte goes, or that there was no room.
#[derive(Drop)]
pub struct Page<'a> {
    pub out: &'a mut [u8],
    pub place: Option<usize>,
}

impl<'a> Page<'a> {
    // At the buffer's front. Which buffer it is (`same_buffer`) stands in each contract: a lent field has it from there alone.
    pub fn new(out: &'a mut [u8]) -> Page<'a>
        ensures page { page_of result ≡ page out.old (Some 0) }
        ensures same_buffer { result.out.ghost_name ≡ out.entry.ghost_name }
    {
        Page {
            out,
            place: Some(0),
        }
    }

    // One byte. By index: of what `get_mut` lends, std does not say that the slice ends with it.
    #[tactic(auto, unfolding(crate::specs::Printing::laid, crate::specs::Printing::put_at))]
    pub fn byte(&mut self, b: u8)
        ensures printed { page_of self.new ≡ laid (page_of self.old) (b ∷ []) }
        ensures same_buffer { self.new.out.ghost_name ≡ self.old.out.ghost_name }
    {
        let Some(at) = self.place else {
            return;
        };
        if at >= self.out.len() {
            self.place = None;
            return;
        }
        self.out[at] = b;
        self.place = Some(at + 1);
    }

    // Bytes as they are.
    #[tactic(auto, unfolding(crate::specs::Printing::laid))]
    pub fn bytes(&mut self, bytes: &[u8])
        ensures printed { page_of self.new ≡ laid (page_of self.old) bytes.now }
        ensures same_buffer { self.new.out.ghost_name ≡ self.old.out.ghost_name }
    {
        for &b in bytes {
            self.byte(b);
        }
    }

    // A number in decimal digits, without leading zeros.
    #[tactic(auto, using(crate::proofs::Printing::decimal_same))]
    pub fn number(&mut self, x: u64)
        ensures printed { page_of self.new ≡ laid (page_of self.old) (decimal x) }
        ensures same_buffer { self.new.out.ghost_name ≡ self.old.out.ghost_name }
    {
        let mut digits = Buffer::new();
        self.bytes(digits.format(x).as_bytes());
    }

    // Each number after a blank, 21 bytes at most.
    #[tactic(auto, unfolding(crate::specs::Printing::laid, rules::specs::Text::blanked), using(crate::proofs::Answer::blanked_bound))]
    pub fn blanked(&mut self, numbers: &[u64])
        ensures printed { page_of self.new ≡ laid (page_of self.old) (blanked numbers.now) }
        ensures short { length (blanked numbers.now) ≤ 21 * length numbers.now }
        ensures same_buffer { self.new.out.ghost_name ≡ self.old.out.ghost_name }
    {
        for &x in numbers {
            self.byte(b' ');
            self.number(x);
        }
    }

    // Numbers on one line.
    #[tactic(auto, using(crate::proofs::Laid::laid_append), unfolding(crate::specs::Printing::laid, rules::specs::Text::blanked))]
    pub fn line(&mut self, numbers: &[u64])
        ensures printed { page_of self.new ≡ laid (page_of self.old) (line numbers.now) }
        ensures same_buffer { self.new.out.ghost_name ≡ self.old.out.ghost_name }
    {
        if let Some((&first, others)) = numbers.split_first() {
            self.number(first);
            self.blanked(others);
        }
        self.byte(b'\n');
    }

    // The sections of a result, each on a line of its own.
    #[tactic(auto, unfolding(crate::specs::Printing::laid, rules::specs::Text::lines, crate::specs::Printing::sections_in))]
    pub fn sections(&mut self, words: &[u64])
        ensures printed { page_of self.new ≡ laid (page_of self.old) (lines (sections_in result_widths words.now)) }
        ensures same_buffer { self.new.out.ghost_name ≡ self.old.out.ghost_name }
    {
        let mut rest = words;
        for width in WIDTHS {
            let (section, after) = rest.split_at(section_size(rest, width));
            self.line(section);
            rest = after;
        }
    }
}

// How many words of the front are a section: its count, and so many words for each that is counted, as far as there are words.
fn section_size(words: &[u64], width: u64) -> usize
    ensures { SectionEnds width words.now result }
{
    let Some(&count) = words.first() else {
        return 0;
    };
    let size = width.saturating_mul(count).saturating_add(1);
    size.min(words.len() as u64) as usize
}

// `accepted` and a line per result section: the words of a result, which may be followed by others, from the buffer's front on. It tells
// where the text ends, if it fits. A word takes 21 bytes at most, so 86,034 bytes are room for 4,096 words.
pub fn print_accepted(out: &mut [u8], words: &[u64]) -> Option<usize>
    ensures result_after { page out.new result ≡ laid (page out.old (Some 0)) (accepted_text words.now) }
    ensures room { 21 * length words.now + 18 ≤ length out.old → result ≡ Some (length (accepted_text words.now)) }
{
    let mut page = Page::new(out);
    page.bytes(b"accepted\n");
    page.sections(words);
    page.place
}

// `refused` and three numbers on one line, from the buffer's front on. It tells where the text ends, if it fits.
pub fn print_refused(out: &mut [u8], why: Refused) -> Option<usize>
    ensures result_after { page out.new result ≡ laid (page out.old (Some 0)) (printed (refused (refused_is why))) }
    ensures room { 71 ≤ length out.old → result ≡ Some (length (printed (refused (refused_is why)))) }
{
    let mut page = Page::new(out);
    page.bytes(b"refused");
    page.blanked(&[why.number, why.section, why.position]);
    page.byte(b'\n');
    page.place
}
