// Pages of nodes: the words of each slot, with parent and place as the view of the slot's words has them.
use crate::print_refusal;
use crate::shown::ShownWord;
use image::refusal::number_of;
use image::{ImageView, NONE};
use std::io;
use views::NodeView;

fn print_words(rt: &impl Print, words: &[u32]) -> io::Result<()> {
    for word in words {
        print!(rt; " {word}")?;
    }
    Ok(())
}

fn print_view(rt: &impl Print, answer: Option<NodeView>) -> io::Result<()> {
    match answer {
        Some(node) => {
            let parent = ShownWord(node.parent);
            let place = ShownWord(node.child_index);
            println!(rt; "; parent {parent} place {place}")
        }
        None => println!(rt; "; no-18"),
    }
}

// A line for each slot, and one for the words behind the last.
fn print_slots(rt: &impl Print, bytes: &[u8], view: ImageView, slots: &[u32]) -> io::Result<()> {
    let whole = slots.chunks_exact(pages::SLOT_WORDS);
    let behind = whole.remainder();
    for slot in whole {
        print_words(rt, slot)?;
        print_view(rt, pages::slot_view(bytes, view, slot))?;
    }
    print_words(rt, behind)?;
    println!(rt)
}

fn print_page(
    rt: &impl Print,
    name: &str,
    bytes: &[u8],
    view: ImageView,
    numbers: &[u32],
    slots: &mut [u32],
) -> io::Result<()> {
    let number = number_of(pages::page(bytes, view, numbers, slots));
    println!(rt; "{name}: {number}")?;
    print_slots(rt, bytes, view, slots)
}

// Pages of an image of four nodes: a number twice, NONE and the count, with a word behind the slots; a word too few for two numbers, of
// which one is no node; and no numbers.
fn four(rt: &impl Print, bytes: &[u8], view: ImageView) -> io::Result<()> {
    let numbers = [0, 0, NONE, 4];
    print_page(rt, "0, 0, NONE, 4", bytes, view, &numbers, &mut [7; 49])?;
    print_page(rt, "9, 0 with 23 words", bytes, view, &[9, 0], &mut [7; 23])?;
    print_page(rt, "none with no words", bytes, view, &[], &mut [])
}

fn forty(rt: &impl Print, bytes: &[u8], view: ImageView) -> io::Result<()> {
    let numbers = [
        0, 1, 2, 3, 4, 5, 6, 7, 8, 9, 10, 11, 12, 13, 14, 15, 16, 17, 18, 19, 20, 21, 22, 23, 24,
        25, 26, 27, 28, 29, 30, 31, 32, 33, 34, 35, 36, 37, 38, 39,
    ];
    print_page(rt, "forty nodes", bytes, view, &numbers, &mut [7; 480])
}

// Pages of an image of four nodes.
pub fn run_four(rt: &impl Print, bytes: &[u8]) -> io::Result<()> {
    match ImageView::new(bytes) {
        Ok(view) => four(rt, bytes, view),
        Err(wrong) => print_refusal(rt, wrong),
    }
}

// A page of an image that a load refuses: of a node whose tag is none, and the root.
pub fn run_refused(rt: &impl Print, bytes: &[u8]) -> io::Result<()> {
    match ImageView::new(bytes) {
        Ok(view) => print_page(rt, "1, 0", bytes, view, &[1, 0], &mut [7; 24]),
        Err(wrong) => print_refusal(rt, wrong),
    }
}

// A page of forty nodes.
pub fn run_forty(rt: &impl Print, bytes: &[u8]) -> io::Result<()> {
    match load::load(bytes, &mut [7; 80]) {
        Ok(view) => forty(rt, bytes, view),
        Err(wrong) => print_refusal(rt, wrong),
    }
}
