// Runs the load on the small example of each of FORMAT.md's rows 1 to 17, and on the examples at the edges. Standard input holds
// records: words of work lent, length of the image, the image's bytes. A line is printed for each: its place, and the answer.
#![tactic(auto)]

use image::ImageView;
use image::refusal::Refusal;
use std::io;

// What load answers, as a number: 0 for an accepted image.
fn number(answer: Result<ImageView, Refusal>) -> u32 {
    match answer {
        Ok(_) => 0,
        Err(refusal) => refusal.number(),
    }
}

// Loads an image with so many work words, of which there are 64.
fn run(rt: &impl Print, image: &[u8], lent: u32) -> io::Result<()> {
    let mut work = [7u32; 64];
    match work.get_mut(..lent as usize) {
        Some(words) => {
            let answer = number(load::load(image, words));
            println!(rt; "{answer}")
        }
        None => println!(rt; "lends too many work words"),
    }
}

// The first record; answers how long it is, or none at the end.
fn run_one(rt: &impl Print, records: &[u8], place: u32) -> io::Result<Option<usize>> {
    let lent = words::get(records, 0);
    let len = words::get(records, 4);
    if len == 0 {
        return Ok(None);
    }
    print!(rt; "{place}: ")?;
    if 65536 < len {
        println!(rt; "longer than is read")?;
        return Ok(None);
    }
    run(rt, image::text_part(records, 8, len), lent)?;
    Ok(Some(8 + len as usize))
}

// Every record, up to 100.
fn run_all(rt: &impl Print, records: &[u8]) -> io::Result<()> {
    let mut rest = records;
    for place in 1..=100 {
        let Some(size) = run_one(rt, rest, place)? else {
            break;
        };
        rest = &rest[size.min(rest.len())..];
    }
    Ok(())
}

fn main(rt: HostRuntime) -> io::Result<()> {
    let mut buffer = [0u8; 65536];
    let n = input::read_full(&mut rt.reader(), &mut buffer)?;
    run_all(&rt, &buffer[..n])
}
