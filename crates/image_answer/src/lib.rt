// What the program image_check says of an image, and the line that it prints: proved of every reader whose bytes are known.
#![tactic(auto)]

ghost use Rattle.std.specs.Prelude.{◌≡◌, ◌+◌, ◌≤◌, length, Some, OnOk, IfSome};
ghost use Rattle.std.specs.Io.KnownBytes.{Appends};
ghost use Rattle.words.specs.Output.{over};
ghost use Rattle.texts.specs.Decimal.{decimal};
ghost use Rattle.image_answer.specs.Answer.{answer_of, put_bytes, accepted_line, refused_line, long_line, line_of};

use std::io::{Read, Write};
use std::{fmt, io};
use texts::{decimal_len, put_decimal};

// The longest image that is read, in bytes.
const LIMIT: usize = 65536;

// No Result: there are three cases, each a line of its own, and of a refusal the number is what is printed.
#[derive(Clone, Copy)]
pub enum Answer {
    Accepted(u32, u32),
    Refused(u32),
    Long,
}

// The line of an answer: `ok V N`, `no K` or `long`.
impl fmt::Display for Answer {
    ghost output = { λ answer. Some (line_of answer) };

    fn fmt<W: fmt::Write>(&self, f: &mut fmt::Formatter<W>) -> fmt::Result {
        match *self {
            Answer::Accepted(version, nodes) => write!(f, "ok {version} {nodes}\n"),
            Answer::Refused(number) => write!(f, "no {number}\n"),
            Answer::Long => write!(f, "long\n"),
        }
    }
}

// Writes a text into the output; answers the place behind it.
fn put_text(out: &mut [u8], at: usize, text: &[u8]) -> usize
    requires { at + length text.now ≤ length out.old }
    ensures value { result ≡ at + length text.now }
    ensures out_after { out.new ≡ put_bytes out.old at text.now }
{
    let end = at + text.len();
    out[at..end].copy_from_slice(text);
    end
}

// Writes a number in decimal, of at most ten digits; answers the place behind it.
fn put_number(out: &mut [u8], at: usize, n: u32) -> usize
    requires { at + 10 ≤ length out.old }
    ensures value { result ≡ at + length (decimal n) }
    ensures out_after { out.new ≡ put_bytes out.old at (decimal n) }
{
    put_decimal(&mut out[at..], n);
    at + decimal_len(n)
}

// The line of an accepted image: `ok V N`.
fn accepted_text(version: u32, nodes: u32, out: &mut [u8]) -> usize
    requires { 25 ≤ length out.old }
    ensures value { result ≡ length (accepted_line version nodes) }
    ensures out_after { out.new ≡ over (accepted_line version nodes) out.old }
{
    let a = put_text(out, 0, b"ok ");
    let b = put_number(out, a, version);
    let c = put_text(out, b, b" ");
    let d = put_number(out, c, nodes);
    put_text(out, d, b"\n")
}

// The line of a refused one: `no K`.
fn refused_text(number: u32, out: &mut [u8]) -> usize
    requires { 25 ≤ length out.old }
    ensures value { result ≡ length (refused_line number) }
    ensures out_after { out.new ≡ over (refused_line number) out.old }
{
    let a = put_text(out, 0, b"no ");
    let b = put_number(out, a, number);
    put_text(out, b, b"\n")
}

// The line of one that is not read.
fn long_text(out: &mut [u8]) -> usize
    requires { 25 ≤ length out.old }
    ensures value { result ≡ length long_line }
    ensures out_after { out.new ≡ over long_line out.old }
{
    put_text(out, 0, b"long\n")
}

// Writes the line of an answer at the front of the output; answers how many bytes. No line has more than 25.
pub fn answer_text(answer: Answer, out: &mut [u8; 25]) -> usize
    ensures value { result ≡ length (line_of answer) }
    ensures out_after { out.new ≡ over (line_of answer) out.old }
{
    match answer {
        Answer::Accepted(version, nodes) => accepted_text(version, nodes, out),
        Answer::Refused(number) => refused_text(number, out),
        Answer::Long => long_text(out),
    }
}

// Work words for any image that is read.
const WORK_WORDS: usize = 16354;

// What is said of these bytes.
pub fn answer_of(bytes: &[u8]) -> Answer
    ensures { result ≡ answer_of bytes.now }
{
    if bytes.len() > LIMIT {
        return Answer::Long;
    }
    match load::load(bytes, &mut [0; WORK_WORDS]) {
        Ok(view) => Answer::Accepted(view.ink_version, view.nodes.count),
        Err(refusal) => Answer::Refused(refusal.number()),
    }
}

// Prints the line of an answer. It goes out whole, by one write: `write!` would write each part of it by itself.
fn print_answer<W: Write>(answer: Answer, writer: &mut W) -> io::Result<()>
    ensures { OnOk result (Appends (W.contents writer.old) (W.contents writer.new) (line_of answer)) }
{
    let mut line = [0; 25];
    let n = answer_text(answer, &mut line);
    writer.write_all(&line[..n])
}

// Prints the line of the image that the reader gives. A read or a write that fails is the error that is returned.
pub fn print_answer_of<R: Read, W: Write>(reader: &mut R, writer: &mut W) -> io::Result<()>
    ensures { OnOk result (IfSome (R.remaining reader.old)
        (λ bs. Appends (W.contents writer.old) (W.contents writer.new) (line_of (answer_of bs)))) }
{
    // one byte more than is read tells a longer input
    let mut buffer = [0; LIMIT + 1];
    let n = input::read_full(reader, &mut buffer)?;
    print_answer(answer_of(&buffer[..n]), writer)
}
