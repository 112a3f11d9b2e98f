// Runs FORMAT.md's examples of list items by name, of a relative walk, of depths and of pages through the code. Standard input holds twelve
// images, each behind its length. Of the first three items and walks are asked: one with the definitions red and size, which both hold low;
// one whose root has a glue as its child; and that one with a bit of its checksum turned, which is refused. Of the next four the depths of
// nodes: the smallest; one whose nodes 1 and 2 are each the other's parent, which is refused; one with a container that is only a named
// child; and a chain of six containers, the last of which is node 1. Pages of the one with the named child, and of the next two: a root
// with a child of tag 15, which is refused; and forty nodes of all kinds but lists. The tenth has sixty definitions of twenty items. The last two
// are asked by both readers: they differ only in what notes to the technician hold, in where texts lie and in their lengths.
#![tactic(auto)]

use image::ImageView;
use image::refusal::Refusal;
use input::image_at;
use shown::{ShownCount, ShownNode};
use std::io;

mod items; // items.rt: list items by name
mod page; // page.rt: pages of nodes
mod readers; // readers.rt: the technician's reader and the sleeper's
mod shown; // shown.rt: answers as they are printed

// Walks and children.
fn walk(rt: &impl Print, bytes: &[u8], view: ImageView) -> io::Result<()> {
    let path = [1u32, 0u32, 0u32];
    let glue = ShownNode(walks::resolve_path(bytes, view, 1, true, &[], b""));
    println!(rt; "relative, no components, from the glue: {glue}")?;
    let outside = ShownNode(walks::resolve_path(bytes, view, 9, false, &path, b""));
    println!(rt; "absolute, child 0, origin outside: {outside}")?;
    let first = ShownNode(views::children::child_at(bytes, view, 0, 0));
    println!(rt; "child 0 of the root: {first}")?;
    let second = ShownNode(views::children::child_at(bytes, view, 0, 1));
    println!(rt; "child 1 of the root: {second}")
}

// Every query on an image.
fn both(rt: &impl Print, bytes: &[u8], view: ImageView) -> io::Result<()> {
    items::ask_two(rt, bytes, view)?;
    walk(rt, bytes, view)
}

fn print_refusal(rt: &impl Print, refusal: Refusal) -> io::Result<()> {
    let number = refusal.number();
    println!(rt; "refused: {number}")
}

// The depths of nodes 0 to 6 and of NONE.
fn print_depths(rt: &impl Print, bytes: &[u8], view: ImageView) -> io::Result<()> {
    print!(rt; "depths:")?;
    for node in [0, 1, 2, 3, 4, 5, 6, image::NONE] {
        let steps = ShownCount(depth::depth(bytes, view, node));
        print!(rt; " {steps}")?;
    }
    println!(rt)
}

// What a load says of an image, and depths in it, also where the load refuses it.
fn depths(rt: &impl Print, name: &str, bytes: &[u8]) -> io::Result<()> {
    print!(rt; "{name}: ")?;
    match load::load(bytes, &mut [7; 64]) {
        Ok(_) => println!(rt; "accepted")?,
        Err(wrong) => print_refusal(rt, wrong)?,
    }
    match ImageView::new(bytes) {
        Ok(view) => print_depths(rt, bytes, view),
        Err(wrong) => print_refusal(rt, wrong),
    }
}

// Loads an image and asks it, or prints why it is refused.
fn run(rt: &impl Print, bytes: &[u8]) -> io::Result<()> {
    match load::load(bytes, &mut [7; 64]) {
        Ok(view) => both(rt, bytes, view),
        Err(wrong) => print_refusal(rt, wrong),
    }
}

// The images that are asked items and walks.
fn run_all(rt: &impl Print, records: &[u8]) -> io::Result<()> {
    for at in [0, 210, 398] {
        run(rt, image_at(records, at))?;
    }
    Ok(())
}

// The images that are asked depths.
fn run_depths(rt: &impl Print, records: &[u8]) -> io::Result<()> {
    depths(rt, "smallest", image_at(records, 586))?;
    depths(rt, "circle", image_at(records, 730))?;
    depths(rt, "named child", image_at(records, 1030))?;
    depths(rt, "chain", image_at(records, 1341))
}

// The images that are asked pages.
fn run_pages(rt: &impl Print, records: &[u8]) -> io::Result<()> {
    page::run_four(rt, image_at(records, 1030))?;
    page::run_refused(rt, image_at(records, 1774))?;
    page::run_forty(rt, image_at(records, 1962))
}

fn main(rt: HostRuntime) -> io::Result<()> {
    let mut buffer = [0u8; 65536];
    let n = input::read_full(&mut rt.reader(), &mut buffer)?;
    let records = &buffer[..n];
    run_all(&rt, records)?;
    run_depths(&rt, records)?;
    run_pages(&rt, records)?;
    items::run_sixty(&rt, image_at(records, 3833))?;
    readers::run_both(&rt, records)
}
