// The leaves, exported for the benchmark, which measures each by itself.
#![tactic(auto)]

ghost use Rattle.std.specs.Prelude.{◌≡◌};
ghost use Rattle.checksum.specs.Crc.{crc32};
ghost use Rattle.texts.specs.Text.{before, same};
ghost use Rattle.utf8.specs.Utf8.{utf8};

// CRC-32 of all bytes.
#[unsafe(no_mangle)]
pub extern "C" fn leaf_crc(bytes: &[u8]) -> u32
    ensures { result ≡ crc32 bytes.now }
{
    checksum::crc(bytes)
}

// Whether the bytes are well-formed UTF-8.
#[unsafe(no_mangle)]
pub extern "C" fn leaf_valid(bytes: &[u8]) -> bool
    ensures { result ≡ utf8 bytes.now }
{
    utf8::valid(bytes)
}

// Whether two texts are one.
#[unsafe(no_mangle)]
pub extern "C" fn leaf_equal(a: &[u8], b: &[u8]) -> bool
    ensures { result ≡ same a.now b.now }
{
    texts::equal(a, b)
}

// Whether the first text comes before the second.
#[unsafe(no_mangle)]
pub extern "C" fn leaf_before(a: &[u8], b: &[u8]) -> bool
    ensures { result ≡ before a.now b.now }
{
    texts::comes_before(a, b)
}
