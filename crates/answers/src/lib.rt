// Answers of queries in the words that C and Rust are given. NONE and 0 stand for what is not there. A function `put_..` writes an
// answer's words at the start of a lent slice and returns 0; where there is no answer, or the slice is too short, it returns 18 and
// leaves the slice as it was.
#![tactic(auto)]

pub mod node; // node.rt: a node's view
pub mod view_words; // view_words.rt: a node's view, as it is answered
pub mod lists; // lists.rt: list values, definitions, items

ghost use Rattle.std.specs.Prelude.{◌≡◌, ◌≤◌, ◌++◌, length, drop};
ghost use Rattle.answers.specs.AnswerWords.{span_or, no_span, unsigned, named_view_words};
ghost use Rattle.answers.specs.AnswerWords.{Answered, found_answer, named_answer, place_answer, part_words, part_answer};
ghost use Rattle.answers.specs.Lent.{Spelled};

use image::NONE;
use image::refusal::Refusal;
use views::{NamedChildView, Span};
use words::output::put_bytes;

// The refusals of answers, by the numbers that C is given.
pub const NOT_FOUND: u32 = Refusal::NotFound as u32;

pub const NO_ROOM: u32 = Refusal::NoRoom as u32;

// The largest number that a word holds.
const LARGEST_WORD: usize = 4294967295;

// The bits of a signed number.
pub fn unsigned_of(n: i32) -> u32
    ensures { result ≡ unsigned n }
{
    if n < 0 {
        let rest = -1 - n;
        NONE - rest as u32
    } else {
        n as u32
    }
}

// The place of no text.
pub fn no_span() -> Span
    ensures { result ≡ no_span }
{
    Span {
        offset: NONE,
        len: NONE,
    }
}

// The place of a text, or of none.
pub fn span_or(text: Option<Span>) -> Span
    ensures { result ≡ span_or text }
{
    match text {
        Some(span) => span,
        None => no_span(),
    }
}

// Name, name_length, node.
pub fn named_words(named: NamedChildView) -> [u32; 3]
    ensures { result ≡ named_view_words named }
{
    [named.name.offset, named.name.len, named.node]
}

// Writes words at the start of a slice that holds them.
pub fn put_words(words: &[u32], out: &mut [u32])
    requires { length words.now ≤ length out.old }
    ensures { out.new ≡ words.now ++ drop (length words.now) out.old }
{
    // Not `copy_from_slice`: of two or three words it takes up to twice the time.
    for (i, word) in words.iter().enumerate() {
        out[i] = *word;
    }
}

// The words of an answer.
pub fn put_answer(words: &[u32], answer: &mut [u32]) -> u32
    ensures { Answered (Some words.now) answer.old answer.new result }
{
    if words.len() <= answer.len() {
        put_words(words, answer);
        return 0;
    }
    NOT_FOUND
}

// The number that was found: a node, a count.
pub fn put_found(found: Option<u32>, answer: &mut [u32]) -> u32
    ensures { Answered (found_answer found) answer.old answer.new result }
{
    match found {
        None => NOT_FOUND,
        Some(node) => {
            let words = [node];
            put_answer(&words, answer)
        }
    }
}

// A named child that was found.
// Beside `put_found` and the functions of `lists` only the words' function differs; what is alike is `put_answer`.
pub fn put_named(found: Option<NamedChildView>, answer: &mut [u32]) -> u32
    ensures { Answered (named_answer found) answer.old answer.new result }
{
    match found {
        None => NOT_FOUND,
        Some(named) => {
            let words = named_words(named);
            put_answer(&words, answer)
        }
    }
}

// The place, in the strings, of a text that was found.
pub fn put_place(found: Option<Span>, answer: &mut [u32]) -> u32
    ensures { Answered (place_answer found) answer.old answer.new result }
{
    match found {
        None => NOT_FOUND,
        Some(text) => {
            let words = [text.offset, text.len];
            put_answer(&words, answer)
        }
    }
}

// Start and length in an image of so many bytes of what lies at a place of a section that begins at `section`; where it lies inside and
// a word holds the start.
pub fn put_part(bytes: usize, section: u32, place: Span, answer: &mut [u32]) -> u32
    ensures { Answered (part_words bytes section place) answer.old answer.new result }
{
    let start = section as usize + place.offset as usize;
    if bytes < start + place.len as usize {
        return NOT_FOUND;
    }
    if LARGEST_WORD < start {
        return NOT_FOUND;
    }
    let words = [start as u32, place.len];
    put_answer(&words, answer)
}

// The same of a text that was found.
pub fn put_text(bytes: usize, strings: u32, found: Option<Span>, answer: &mut [u32]) -> u32
    ensures { Answered (part_answer bytes strings found) answer.old answer.new result }
{
    match found {
        None => NOT_FOUND,
        Some(text) => put_part(bytes, strings, text, answer),
    }
}

// Copies a text of `long` bytes to the start of the lent one, and writes its length as the first of the words that are lent for it; 23 where either has
// no room, and then both stay.
pub fn put_text_copy(part: &[u8], long: u32, text: &mut [u8], size: &mut [u32]) -> u32
    requires { long ≡ length part.now }
    ensures { Spelled (Some part.now) text.old text.new size.old size.new result }
{
    if size.len() < 1 {
        return NO_ROOM;
    }
    if text.len() < part.len() {
        return NO_ROOM;
    }
    put_bytes(part, text);
    size[0] = long;
    0
}
