// Runs a sample of the published Rust's answers through the library. Standard input holds the records, in the form that README.md says.
// A line is printed for each record that the library answers otherwise, then how many of each kind agree, and the sums. Some records are
// wrong on purpose: a comparison that compared nothing would leave their lines out.
#![tactic(auto)]

mod compare; // compare.rt: answers against recorded words
mod drafts; // drafts.rt: drafts and the images they become
mod loads; // loads.rt: images, whole and damaged
mod queries; // queries.rt: what is asked of an accepted image
mod targets; // targets.rt: drafts whose targets are found from paths

use image::Section;
use std::io;

// The first two words of the sample.
const MAGIC: u32 = 1380272467;

const FORM: u32 = 1;

// The kind of a record of which the next ones speak.
const IMAGE: u32 = 1;

// Kinds are below this. They stay numbers: each is a word of its record, counted under it and only matched, unknown ones too.
const KINDS: usize = 22;

// Where the run is: the next record, the image that it speaks of, and how many records agreed and differed.
#[derive(Clone, Copy)]
struct Run {
    at: u32,
    image: Section,
    agree: u32,
    differ: u32,
}

// The place after a record's words, of which there are so many; the same place where a word does not hold it.
fn after(at: u32, words: u32) -> u32 {
    if 100000000 < at {
        return at;
    }
    if 100000000 < words {
        return at;
    }
    at + 8 + 4 * words
}

// The words of the record at `at`.
fn record_at(data: &[u8], at: u32) -> &[u8] {
    image::section_part(
        data,
        Section {
            offset: after(at, 0),
            count: words::get(data, at as usize + 4),
        },
        4,
    )
}

// The image that the record at `at` speaks of: itself, or the one before.
fn image_at(data: &[u8], at: u32, kind: u32, before: Section) -> Section {
    if kind == IMAGE {
        Section {
            offset: after(at, 2),
            count: words::get(data, at as usize + 12),
        }
    } else {
        before
    }
}

// Whether the library answers as is recorded.
fn agrees(kind: u32, fields: &[u8], image: &[u8]) -> bool {
    match kind {
        1 => loads::image_agrees(fields, image),
        2 => loads::word_agrees(fields, image),
        3 => loads::bit_agrees(fields, image),
        4 => loads::cut_agrees(fields, image),
        10..=19 => queries::agrees(kind, fields, image),
        20 => drafts::draft_agrees(fields),
        21 => targets::targets_agree(fields),
        _ => false,
    }
}

// The name of a kind.
fn kind_name(kind: u32) -> &'static str {
    match kind {
        1 => "image",
        2 => "word",
        3 => "bit",
        4 => "cut",
        10 => "node view",
        11 => "child",
        12 => "named child",
        13 => "find named child",
        14 => "list entry",
        15 => "list origin",
        16 => "definition",
        17 => "definition item",
        18 => "list item",
        19 => "walk",
        20 => "draft",
        21 => "targets",
        _ => "unknown",
    }
}

// One record.
fn step(
    rt: &impl Print,
    data: &[u8],
    run: Run,
    place: u32,
    counts: &mut [u32; KINDS],
) -> io::Result<Run> {
    let at = run.at;
    let kind = words::get(data, at as usize);
    let image = image_at(data, at, kind, run.image);
    let next = Run {
        at: after(at, words::get(data, at as usize + 4)),
        image,
        ..run
    };
    let part = image::section_part(data, image, 1);
    if agrees(kind, record_at(data, at), part) {
        if let Some(count) = counts.get_mut(kind as usize) {
            *count = count.saturating_add(1);
        }
        return Ok(Run {
            agree: run.agree.saturating_add(1),
            ..next
        });
    }
    let name = kind_name(kind);
    println!(rt; "record {place}, {name}: another answer")?;
    Ok(Run {
        differ: run.differ.saturating_add(1),
        ..next
    })
}

// So many records.
fn run_all(
    rt: &impl Print,
    data: &[u8],
    records: u32,
    counts: &mut [u32; KINDS],
) -> io::Result<Run> {
    let mut run = Run {
        at: 12,
        image: Section {
            offset: 0,
            count: 0,
        },
        agree: 0,
        differ: 0,
    };
    for place in 0..records {
        run = step(rt, data, run, place, counts)?;
    }
    Ok(run)
}

// How many records of each kind agreed, if any did.
fn print_counts(rt: &impl Print, counts: &[u32; KINDS]) -> io::Result<()> {
    for (kind, count) in (0..).zip(counts) {
        if 0 < *count {
            let name = kind_name(kind);
            println!(rt; "{name}: {count}")?;
        }
    }
    Ok(())
}

// Every record of a sample, of which this program knows the form; then the counts. Records that do not end where the sample does differ too.
fn replay(rt: &impl Print, data: &[u8]) -> io::Result<()> {
    if words::get(data, 0) != MAGIC {
        return println!(rt; "no sample");
    }
    if words::get(data, 4) != FORM {
        return println!(rt; "another form");
    }
    let mut counts = [0; KINDS];
    let run = run_all(rt, data, words::get(data, 8), &mut counts)?;
    print_counts(rt, &counts)?;
    let agree = run.agree;
    let mut differ = run.differ;
    if run.at as usize != data.len() {
        println!(rt; "the records do not end with the sample")?;
        differ = differ.saturating_add(1);
    }
    println!(rt; "{agree} agree, {differ} differ")
}

fn main(rt: HostRuntime) -> io::Result<()> {
    let mut buffer = [0u8; 393216];
    let n = input::read_full(&mut rt.reader(), &mut buffer)?;
    replay(&rt, &buffer[..n])
}
