// Words and bytes written into a lent output.
ghost use Rattle.std.specs.Prelude.{◌≡◌, ◌+◌, ◌*◌, ◌≤◌, length};
ghost use Rattle.words.specs.Output.{put_at, over};

use crate::put_word;

// Writes the bytes of the words from `at` on, where the caller knows that they fit.
pub fn put_words(out: &mut [u8], at: usize, words: &[u32])
    requires { at + 4 * length words.now ≤ length out.old }
    ensures { out.new ≡ put_at out.old at words.now }
{
    for (i, word) in words.iter().enumerate() {
        put_word(out, at + 4 * i, *word);
    }
}

// Writes bytes at the start of an output that holds them.
pub fn put_bytes(bytes: &[u8], out: &mut [u8])
    requires { length bytes.now ≤ length out.old }
    ensures { out.new ≡ over bytes.now out.old }
{
    // Not `copy_from_slice`: an archive for C would need `memmove` from outside.
    for (i, byte) in bytes.iter().enumerate() {
        out[i] = *byte;
    }
}
