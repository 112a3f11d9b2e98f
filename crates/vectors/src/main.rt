// Published vectors of CRC-32, UTF-8 and White_Space: one line for each, with its bytes in hexadecimal and what the code says of them.
#![tactic(auto)]

use std::{fmt, io};

// Bytes in hexadecimal.
#[derive(Clone, Copy)]
struct Hex<'b>(&'b [u8]);

impl<'b> fmt::Display for Hex<'b> {
    fn fmt<W: fmt::Write>(&self, f: &mut fmt::Formatter<W>) -> fmt::Result {
        for byte in self.0 {
            write!(f, "{byte:02x}")?;
        }
        Ok(())
    }
}

// CRC-32: the check value of 123456789, and other published ones.
const CRC_INPUTS: [&[u8]; 10] = [
    b"123456789",
    b"",
    b"a",
    b"abc",
    b"message digest",
    b"abcdefghijklmnopqrstuvwxyz",
    b"12345678901234567890123456789012345678901234567890123456789012345678901234567890",
    b"\x00\x00\x00\x00\x00\x00\x00\x00\x00\x00\x00\x00\x00\x00\x00\x00\x00\x00\x00\x00\x00\x00\x00\x00\x00\x00\x00\x00\x00\x00\x00\x00",
    b"\xff\xff\xff\xff\xff\xff\xff\xff\xff\xff\xff\xff\xff\xff\xff\xff\xff\xff\xff\xff\xff\xff\xff\xff\xff\xff\xff\xff\xff\xff\xff\xff",
    b"The quick brown fox jumps over the lazy dog",
];

// UTF-8, and what is none.
const ENCODINGS: [&[u8]; 95] = [
    // the first and the last sequence of each row of the Unicode Standard's table 3-7: one and two bytes
    b"\x00",
    b"\x7f",
    b"\xc2\x80",
    b"\xdf\xbf",
    // three bytes
    b"\xe0\xa0\x80",
    b"\xe0\xbf\xbf",
    b"\xe1\x80\x80",
    b"\xec\xbf\xbf",
    b"\xed\x80\x80",
    b"\xed\x9f\xbf",
    b"\xee\x80\x80",
    b"\xef\xbf\xbf",
    // four bytes
    b"\xf0\x90\x80\x80",
    b"\xf0\xbf\xbf\xbf",
    b"\xf1\x80\x80\x80",
    b"\xf3\xbf\xbf\xbf",
    b"\xf4\x80\x80\x80",
    b"\xf4\x8f\xbf\xbf",
    // longer forms than a character needs: two and three bytes
    b"\xc0\x80",
    b"\xc0\xaf",
    b"\xc1\xbf",
    b"\xe0\x80\x80",
    b"\xe0\x80\xaf",
    b"\xe0\x9f\xbf",
    // four bytes and more
    b"\xf0\x80\x80\x80",
    b"\xf0\x80\x80\xaf",
    b"\xf0\x8f\xbf\xbf",
    b"\xf8\x88\x80\x80\xaf",
    b"\xfc\x84\x80\x80\x80\x80",
    // surrogates and their neighbours
    b"\xed\x9f\xbf",
    b"\xed\xa0\x80",
    b"\xed\xad\xbf",
    b"\xed\xae\x80",
    b"\xed\xaf\xbf",
    b"\xed\xb0\x80",
    b"\xed\xbe\x80",
    b"\xed\xbf\xbf",
    // surrogates in pairs, and what follows them
    b"\xed\xa0\x80\xed\xb0\x80",
    b"\xed\xaf\xbf\xed\xbf\xbf",
    b"\xee\x80\x80",
    // above 10ffff, and bytes that begin no sequence
    b"\xf4\x8f\xbf\xbf",
    b"\xf4\x90\x80\x80",
    b"\xf4\xbf\xbf\xbf",
    b"\xf5\x80\x80\x80",
    b"\xf7\xbf\xbf\xbf",
    b"\xf8\x80\x80\x80\x80\x80",
    b"\xfe",
    b"\xff",
    b"\xfe\xfe\xff\xff",
    // sequences of two and three bytes that the text cuts off
    b"\xc2",
    b"\xdf",
    b"\xe0",
    b"\xe0\xa0",
    b"\xe1",
    b"\xef",
    b"\xef\xbf",
    // sequences of four
    b"\xf0",
    b"\xf0\x90",
    b"\xf0\x90\x80",
    b"\xf4",
    b"\xf4\x8f",
    b"\xf4\x8f\xbf",
    // sequences that end before another character
    b"\xc2A",
    b"\xe0\xa0A",
    b"\xf0\x90\x80A",
    b"\xe0\xa0\xc2\x80",
    b"\xe0A",
    // continuation bytes that go on nothing
    b"\x80",
    b"\xbf",
    b"\x80\x80",
    b"A\xbf",
    b"\xc2\x80\x80",
    b"\xe0\xa0\x80\x80",
    b"\xf0\x90\x80\x80\xbf",
    // second bytes beside their ranges: two and three bytes
    b"\xc2\x7f",
    b"\xc2\xc0",
    b"\xe0\x9f\x80",
    b"\xe0\xa0\x7f",
    b"\xe0\xc0\x80",
    b"\xe1\x7f\x80",
    b"\xe1\xc0\x80",
    b"\xed\x9f\xc0",
    b"\xed\xa0\xbf",
    // four bytes
    b"\xf0\x8f\x80\x80",
    b"\xf0\xc0\x80\x80",
    b"\xf1\x7f\x80\x80",
    b"\xf1\xc0\x80\x80",
    b"\xf4\x90\x80\x80",
    b"\xf4\x7f\x80\x80",
    // texts of several characters: examples of the Unicode Standard, and the empty text
    b"",
    b"M\xd0\xb0\xe4\xba\x8c\xf0\x90\x8c\x82",
    b"A\xe2\x89\xa2\xce\x91.",
    b"\xef\xbb\xbf\xf0\xa3\x8e\xb4",
    b"a\xf1\x80\x80\x80\xe1\x80\xc2b\x80c\x80\xbfd",
    b"\xc0\xaf\x80",
];

// White_Space, and what is none.
const SPACES: [&[u8]; 53] = [
    // the 25 characters with the property White_Space: up to 1680
    b"\x09",
    b"\x0a",
    b"\x0b",
    b"\x0c",
    b"\x0d",
    b" ",
    b"\xc2\x85",
    b"\xc2\xa0",
    b"\xe1\x9a\x80",
    // from 2000 to 200a
    b"\xe2\x80\x80",
    b"\xe2\x80\x81",
    b"\xe2\x80\x82",
    b"\xe2\x80\x83",
    b"\xe2\x80\x84",
    b"\xe2\x80\x85",
    b"\xe2\x80\x86",
    b"\xe2\x80\x87",
    b"\xe2\x80\x88",
    b"\xe2\x80\x89",
    b"\xe2\x80\x8a",
    // from 2028
    b"\xe2\x80\xa8",
    b"\xe2\x80\xa9",
    b"\xe2\x80\xaf",
    b"\xe2\x81\x9f",
    b"\xe3\x80\x80",
    // characters without it, near those that have it
    b"\x08",
    b"\x0e",
    b"\x1c",
    b"\x1f",
    b"!",
    b"\xc2\x84",
    b"\xc2\x86",
    b"\xc2\x9f",
    b"\xc2\xa1",
    // the Mongolian vowel separator, the zero-width space, and others
    b"\xe1\xa0\x8e",
    b"\xe1\xbf\xbf",
    b"\xe2\x80\x8b",
    b"\xe2\x80\x8d",
    b"\xe2\x80\xa7",
    b"\xe2\x80\xaa",
    // the word joiner, the byte order mark, and others
    b"\xe2\x80\xb0",
    b"\xe2\x81\x9e",
    b"\xe2\x81\xa0",
    b"\xe2\xbf\xbf",
    b"\xe3\x80\x81",
    b"\xef\xbb\xbf",
    // texts: empty, of several such characters, with another among them
    b"",
    b"  ",
    b" \xe3\x80\x80\x09\xc2\xa0",
    b" a",
    b"a ",
    b"\xe2\x80\x83\xe2\x80\x8b",
    b"\xe3\x80\x80\xe3\x80\x81",
];

fn print_crcs(rt: &impl Print) -> io::Result<()> {
    for bytes in CRC_INPUTS {
        let hex = Hex(bytes);
        let sum = checksum::crc(bytes);
        println!(rt; "crc {hex} {sum:08x}")?;
    }
    Ok(())
}

fn print_encodings(rt: &impl Print) -> io::Result<()> {
    for bytes in ENCODINGS {
        let hex = Hex(bytes);
        let answer = if utf8::valid(bytes) {
            "valid"
        } else {
            "not valid"
        };
        println!(rt; "utf8 {hex} {answer}")?;
    }
    Ok(())
}

// Beside `print_encodings` the table, the test and all words of the line differ: as one function it would be given all of them.
fn print_spaces(rt: &impl Print) -> io::Result<()> {
    for bytes in SPACES {
        let hex = Hex(bytes);
        let answer = if utf8::is_blank(bytes) {
            "blank"
        } else {
            "not blank"
        };
        println!(rt; "blank {hex} {answer}")?;
    }
    Ok(())
}

fn main(rt: HostRuntime) -> io::Result<()> {
    print_crcs(&rt)?;
    print_encodings(&rt)?;
    print_spaces(&rt)
}
