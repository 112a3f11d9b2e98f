// Records of drafts that are resolved, changed and written, for the programs `drafts` and `target_drafts`: what a record begins with, its
// draft, and the lines that are printed of it.
#![tactic(auto)]

ghost use Rattle.std.specs.Prelude.{◌≡◌, ◌+◌, ◌*◌, ◌≤◌, drop, take};
ghost use Rattle.words.specs.Words.{word_in};
ghost use Rattle.draft_words.specs.Slices.{BeginWith, behind_nodes, behind_children, behind_named, behind_definitions, behind_items, lengths_in};

use draft_words::{Lengths, Slices, Tables, after, after_words, first, lengths_of, read_words};
use image::refusal::{Refusal, number_of};
use std::{fmt, io};
use writer::EncodeError;

// What a record begins with: the ink version; how many output bytes and work words are lent; how long the draft's slices are, and those of
// the list of paths, of which paths and components are counted in words and names in bytes.
#[derive(Clone, Copy)]
pub struct Head {
    pub ink: u32,
    pub out: u32,
    pub work: u32,
    pub draft: Lengths,
    pub paths: u32,
    pub components: u32,
    pub names: u32,
}

impl Head {
    pub const BYTES: usize = 52;

    pub fn read(bytes: &[u8]) -> Head
        ensures ink { result.ink ≡ word_in bytes.now 0 }
        ensures out { result.out ≡ word_in bytes.now 4 }
        ensures work { result.work ≡ word_in bytes.now 8 }
        ensures draft { result.draft ≡ lengths_in (drop 12 bytes.now) }
        ensures paths { result.paths ≡ word_in bytes.now 40 }
        ensures components { result.components ≡ word_in bytes.now 44 }
        ensures names { result.names ≡ word_in bytes.now 48 }
    {
        Head {
            ink: words::get(bytes, 0),
            out: words::get(bytes, 4),
            work: words::get(bytes, 8),
            draft: lengths_of(after(bytes, 12)),
            paths: words::get(bytes, 40),
            components: words::get(bytes, 44),
            names: words::get(bytes, 48),
        }
    }

    // How many bytes the draft and the list of paths have.
    pub fn bytes_behind(&self) -> usize
        ensures value { let d = self.now.draft in
            result ≡ 4 * (d.nodes + d.children + d.named + d.definitions + d.items + self.now.paths + self.now.components)
            + (d.payload + d.strings + self.now.names) }
        ensures bound { result ≤ 200000000000 }
    {
        let draft = self.draft;
        let tree = draft.nodes as usize + draft.children as usize + draft.named as usize;
        let lists = draft.definitions as usize + draft.items as usize;
        let paths = self.paths as usize + self.components as usize;
        let bytes = draft.payload as usize + draft.strings as usize + self.names as usize;
        4 * (tree + lists + paths) + bytes
    }
}

// The words of some nodes that have changed, each behind a space as its place and its new value.
#[derive(Clone, Copy)]
pub struct Changes<'n> {
    pub before: &'n [u32],
    pub nodes: &'n [u32],
}

impl<'n> fmt::Display for Changes<'n> {
    fn fmt<W: fmt::Write>(&self, f: &mut fmt::Formatter<W>) -> fmt::Result {
        for (place, (before, word)) in self.before.iter().zip(self.nodes).enumerate() {
            if before != word {
                write!(f, " {place}={word}")?;
            }
        }
        Ok(())
    }
}

// How many of the words are 0.
fn zeros(words: &[u32]) -> usize {
    words.iter().filter(|word| **word == 0).count()
}

// A draft as its record has it, of which the nodes have at most 128 words and each other slice at most 64.
#[derive(Clone, Copy)]
pub struct Draft<'r> {
    pub head: Head,
    pub nodes: [u32; 128],
    pub tables: Tables<64>,
    pub payload: &'r [u8],
    pub strings: &'r [u8],
    // the list of paths, and what is beside it
    pub behind: &'r [u8],
}

impl<'r> Draft<'r> {
    pub fn read(head: Head, bytes: &'r [u8]) -> Draft<'r>
        ensures nodes { BeginWith 128 bytes.now result.nodes }
        ensures children { BeginWith 64 (behind_nodes head.draft bytes.now) result.tables.children }
        ensures named { BeginWith 64 (behind_children head.draft bytes.now) result.tables.named }
        ensures definitions { BeginWith 64 (behind_named head.draft bytes.now) result.tables.definitions }
        ensures items { BeginWith 64 (behind_definitions head.draft bytes.now) result.tables.items }
        ensures payload { result.payload.now ≡ take head.draft.payload (behind_items head.draft bytes.now) }
        ensures strings { result.strings.now ≡ take head.draft.strings (drop head.draft.payload (behind_items head.draft bytes.now)) }
        ensures behind { result.behind.now ≡ drop head.draft.strings (drop head.draft.payload (behind_items head.draft bytes.now)) }
        ensures head { result.head ≡ head }
    {
        let mut nodes = [0; 128];
        read_words(bytes, &mut nodes);
        let (tables, from_payload) = Tables::read(bytes, head.draft);
        let from_strings = after(from_payload, head.draft.payload as usize);
        Draft {
            head,
            nodes,
            tables,
            payload: first(from_payload, head.draft.payload),
            strings: first(from_strings, head.draft.strings),
            behind: after(from_strings, head.draft.strings as usize),
        }
    }

    // Its slices besides the nodes.
    pub fn slices(&self) -> Slices<'_>
        ensures children { result.children.now ≡ take self.now.head.draft.children self.now.tables.children }
        ensures named { result.named.now ≡ take self.now.head.draft.named self.now.tables.named }
        ensures definitions { result.definitions.now ≡ take self.now.head.draft.definitions self.now.tables.definitions }
        ensures items { result.items.now ≡ take self.now.head.draft.items self.now.tables.items }
        ensures payload { result.payload.now ≡ self.now.payload.now }
        ensures strings { result.strings.now ≡ self.now.strings.now }
    {
        self.tables
            .slices(self.head.draft, self.payload, self.strings)
    }

    // Resolves the targets of its nodes by the list of paths behind it; answers the number.
    fn find_targets(&self, nodes: &mut [u32], work: &mut [u32]) -> u32 {
        let head = self.head;
        let mut paths = [0; 64];
        read_words(self.behind, &mut paths);
        let from_components = after_words(self.behind, head.paths);
        let mut components = [0; 64];
        read_words(from_components, &mut components);
        let from_names = after_words(from_components, head.components);
        let slices = self.slices();
        number_of(static_targets::resolve_static_targets(
            head.ink,
            nodes,
            slices.children,
            slices.named,
            slices.definitions,
            slices.items,
            slices.payload,
            slices.strings,
            first(&paths, head.paths),
            first(&components, head.components),
            first(from_names, head.names),
            work,
        ))
    }

    // The same, if there is a list; prints the number, the words that have changed, and how many of the work words are 0.
    pub fn resolve(&self, rt: &impl Print, nodes: &mut [u32]) -> io::Result<()> {
        if self.head.paths == 0 {
            return Ok(());
        }
        let mut words = [7; 512];
        let Some(work) = words.get_mut(..self.head.work as usize) else {
            return print!(rt; " lends too many work words");
        };
        let number = self.find_targets(nodes, work);
        let changes = Changes {
            before: &self.nodes,
            nodes,
        };
        let zeros = zeros(work);
        print!(rt; " {number}{changes} {zeros},")
    }

    // Writes it with these nodes, and prints the number, the length or 0, the CRC-32 of the output and how many of the work words are 0. As
    // much is lent of 512 bytes and 512 words as the record says, none of them 0.
    pub fn write(&self, rt: &impl Print, nodes: &[u32]) -> io::Result<()> {
        let head = self.head;
        let mut bytes = [170; 512];
        let mut words = [7; 512];
        let Some(out) = bytes.get_mut(..head.out as usize) else {
            return println!(rt; " lends too much output");
        };
        let Some(work) = words.get_mut(..head.work as usize) else {
            return println!(rt; " lends too many work words");
        };
        let slices = self.slices();
        let answer = writer::encode(head.ink, slices.with_nodes(nodes), out, work);
        let (number, length) = match answer {
            Ok(length) => (0, length),
            Err(EncodeError::Short(length)) => (Refusal::NoRoom.number(), length),
            Err(EncodeError::Refused(refusal)) => (refusal.number(), 0),
        };
        let sum = checksum::crc(out);
        let zeros = zeros(work);
        println!(rt; " {number} {length} {sum} {zeros}")
    }
}

// Runs every record, up to 100, behind its place: `run` takes a record and its head, and answers how long the record is.
pub fn run_all<R: Print, F: Fn(&[u8], Head) -> io::Result<usize>>(
    rt: &R,
    records: &[u8],
    run: F,
) -> io::Result<()>
    requires { F.IsAlwaysCallable run }
{
    let mut rest = records;
    for place in 1..=100 {
        let head = Head::read(rest);
        if head.draft.nodes == 0 {
            break;
        }
        print!(rt; "{place}:")?;
        let size = run(rest, head)?;
        rest = after(rest, size);
    }
    Ok(())
}
