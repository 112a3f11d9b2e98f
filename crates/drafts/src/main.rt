// Resolves and writes the small examples of FORMAT.md's rows 3, 7, 19 to 23, 25 and 26, and of the drafts at the edges. Standard input holds
// records of words: ink version, output bytes and work words lent, the lengths of the draft's seven slices and of the paths, components
// and names beside it; then the slices. A line is printed for each: its place; where there are paths, the number of resolving their
// targets, every node word that has changed, and how many of the lent work words are 0; then, of writing the draft, the number, the
// length that was written or with 23 is needed, the CRC-32 of the lent output and how many of the lent work words are 0.
#![tactic(auto)]

use draft_records::{Draft, Head};
use draft_words::after;
use std::io;

// Resolves and writes the draft of a record; answers the record's length.
fn run(rt: &impl Print, record: &[u8], head: Head) -> io::Result<usize> {
    let draft = Draft::read(head, after(record, Head::BYTES));
    let mut words = draft.nodes;
    match words.get_mut(..head.draft.nodes as usize) {
        Some(nodes) => {
            draft.resolve(rt, nodes)?;
            draft.write(rt, nodes)?;
        }
        None => println!(rt; " has too many node words")?,
    }
    Ok(Head::BYTES + head.bytes_behind())
}

fn main(rt: HostRuntime) -> io::Result<()> {
    let mut buffer = [0u8; 65536];
    let n = input::read_full(&mut rt.reader(), &mut buffer)?;
    draft_records::run_all(&rt, &buffer[..n], |record, head| run(&rt, record, head))
}
