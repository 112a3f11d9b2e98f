// Resolves and writes the small examples of FORMAT.md's rows 3, 7, 19 to 23, 25 and 26, and of the drafts at the edges; counts and changes the
// targets of such drafts (18, 19, 27). Standard input holds records of words: ink version, output bytes and work words lent, the lengths of the
// draft's seven slices, of the paths, components and names beside it and of the summary, and how many calls there are on draft and summary; then
// the slices, and three words a call. A line is printed for each: its place; where there are paths, the number of resolving their
// targets, every node word that has changed, and how many of the lent work words are 0; or of each call, on a line of its own, the number,
// every node word that has changed since the record was read, and the summary; then, of writing the draft, the number, the
// length that was written or with 23 is needed, the CRC-32 of the lent output and how many of the lent work words are 0.
#![tactic(auto)]

use calls::CallLengths;
use draft_records::{Draft, Head};
use draft_words::after;
use std::io;

mod calls; // calls.rt: targets counted and changed

// Where the draft begins in a record: behind the head and the lengths of summary and calls.
const DRAFT_AT: usize = Head::BYTES + CallLengths::BYTES;

// Resolves or calls, and writes, the draft of a record; answers the record's length.
fn run(rt: &impl Print, record: &[u8], head: Head) -> io::Result<usize> {
    let lengths = CallLengths::read(after(record, Head::BYTES));
    let draft = Draft::read(head, after(record, DRAFT_AT));
    let mut words = draft.nodes;
    match words.get_mut(..head.draft.nodes as usize) {
        Some(nodes) => {
            draft.resolve(rt, nodes)?;
            calls::run(rt, &draft, lengths, nodes)?;
            draft.write(rt, nodes)?;
        }
        None => println!(rt; " has too many node words")?,
    }
    Ok(DRAFT_AT + head.bytes_behind() + lengths.bytes_behind())
}

fn main(rt: HostRuntime) -> io::Result<()> {
    let mut buffer = [0u8; 65536];
    let n = input::read_full(&mut rt.reader(), &mut buffer)?;
    draft_records::run_all(&rt, &buffer[..n], |record, head| run(&rt, record, head))
}
