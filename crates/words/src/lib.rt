// Little-endian words in bytes.
#![tactic(auto)]

pub mod output; // output.rt: words written into an output

ghost use Rattle.std.specs.Prelude.{◌≡◌, ◌++◌, ◌+◌, ◌≤◌, length, take, drop};
ghost use Rattle.words.specs.Words.{word_at, word_in, bytes4, put_in};

// The word at `at`, where the caller knows that four bytes lie.
pub fn word(bytes: &[u8], at: usize) -> u32
    requires { at + 4 ≤ length bytes.now }
    ensures { result ≡ word_at bytes.now at }
{
    u32::from_le_bytes([bytes[at], bytes[at + 1], bytes[at + 2], bytes[at + 3]])
}

// The word at `at`, or 0 where fewer than four bytes lie there.
pub fn get(bytes: &[u8], at: usize) -> u32
    ensures { result ≡ word_in bytes.now at }
{
    let n = bytes.len();
    if n < 4 {
        return 0;
    }
    if at <= n - 4 { word(bytes, at) } else { 0 }
}

// Writes the word's four bytes at `at`, where the caller knows that they fit.
pub fn put_word(out: &mut [u8], at: usize, w: u32)
    requires { at + 4 ≤ length out.old }
    ensures { out.new ≡ take at out.old ++ bytes4 w ++ drop (at + 4) out.old }
{
    out[at..at + 4].copy_from_slice(&w.to_le_bytes());
}

// Writes the word's four bytes at `at`; writes nothing where they do not fit.
pub fn put(out: &mut [u8], at: usize, w: u32)
    ensures { out.new ≡ put_in out.old at w }
{
    let n = out.len();
    if n < 4 {
        return;
    }
    if at <= n - 4 {
        put_word(out, at, w);
    }
}
