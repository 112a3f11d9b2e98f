// Answers against recorded words.
ghost use Rattle.std.specs.Prelude.{◌≡◌, ◌≤◌};
ghost use Rattle.words.specs.Words.{words_of};
ghost use Rattle.texts.specs.Text.{same};
ghost use Rattle.answers.specs.AnswerWords.{found_answer};
ghost use Rattle.replay.specs.Recorded.{recorded};

use answers::NOT_FOUND;
use image::Section;

// Whether these bytes are the words, and no word more.
pub fn same_words(part: &[u8], words: &[u32]) -> bool
    ensures { result ≡ same (words_of part.now) words.now }
{
    if part.len() / 4 != words.len() {
        return false;
    }
    for (i, word) in words.iter().enumerate() {
        if image::part_word(part, i) != *word {
            return false;
        }
    }
    true
}

// Whether the record has, at `at`, 0 and then `count` words, which are these.
pub fn found(fields: &[u8], at: u32, count: u32, words: &[u32]) -> bool
    requires { at ≤ 1000 }
    ensures { result ≡ recorded fields.now at count (Some words.now) }
{
    if words::get(fields, at as usize) != 0 {
        return false;
    }
    let part = image::section_part(
        fields,
        Section {
            offset: at + 4,
            count,
        },
        4,
    );
    same_words(part, words)
}

// Whether the record has, at `at`, the number of what is not found.
pub fn nothing(fields: &[u8], at: u32) -> bool
    ensures { result ≡ recorded fields.now at 0 None }
{
    words::get(fields, at as usize) == NOT_FOUND
}

// The same for an answer that is a node.
pub fn node(fields: &[u8], at: u32, answer: Option<u32>) -> bool
    requires { at ≤ 1000 }
    ensures { result ≡ recorded fields.now at 1 (found_answer answer) }
{
    match answer {
        Some(node) => found(fields, at, 1, &[node]),
        None => nothing(fields, at),
    }
}
