// Reads an image from standard input and prints one line: `ok V N` with the ink version and the count of nodes, `no K` with the
// number of the first rule broken, or `long`.
#![tactic(auto)]

use std::io;

fn main(rt: HostRuntime) -> io::Result<()> {
    image_answer::print_answer_of(&mut rt.reader(), &mut io::writer(&rt))
}
