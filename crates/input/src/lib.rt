// What the programs read: their input, as far as it fits a buffer of fixed length, and images in it.
#![tactic(auto)]

ghost use Rattle.std.specs.Prelude.{◌≡◌, ◌+◌, ◌≤◌, ◌<◌, length, take, IfOk};
ghost use Rattle.std.specs.Io.KnownBytes.{Consumes, IsAtEnd};
ghost use Rattle.words.specs.Words.{word_in};
ghost use Rattle.image.specs.Sections.{text_or_empty};

use std::io;
use std::io::Read;

// Reads until the buffer is full or the input ends; answers how many bytes.
pub fn read_full<R: Read>(reader: &mut R, buffer: &mut [u8]) -> io::Result<usize>
    ensures bound { IfOk result (λ n. n ≤ length buffer.new) }
    ensures bytes { IfOk result (λ n. Consumes (R.remaining reader.old) (R.remaining reader.new) (take n buffer.new)) }
    ensures end { IfOk result (λ n. n < length buffer.new → IsAtEnd (R.remaining reader.new)) }
{
    let mut filled = 0;
    // No `for`: a read gives as many bytes as it likes.
    while filled < buffer.len() {
        let n = reader.read(&mut buffer[filled..])?;
        if n == 0 {
            break;
        }
        filled += n;
    }
    Ok(filled)
}

// The image that stands at `at` behind its length; empty where the length leads out of the records.
pub fn image_at(records: &[u8], at: u32) -> &[u8]
    requires { at ≤ 65536 }
    ensures { result.now ≡ text_or_empty records.now (at + 4) (word_in records.now at) }
{
    image::text_part(records, at + 4, words::get(records, at as usize))
}
