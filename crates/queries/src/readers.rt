// Both readers on two images that differ only in what notes to the technician hold, in where texts lie and in their lengths: what the header
// tells the technician, the kind of each node as he sees it, and as the sleeper's reader shows it, with its text.
use crate::print_refusal;
use crate::shown::{ShownCount, ShownWord};
use image::ImageView;
use input::image_at;
use sleeper::{SleeperKind, SleeperValue, SleeperView, Which};
use std::io;
use views::{NodeKindView, ValueView};

// What the header tells.
fn print_header(rt: &impl Print, bytes: &[u8]) -> io::Result<()> {
    let total = ShownCount(technician::total_length(bytes));
    let strings = ShownCount(technician::strings_length(bytes));
    let checksum = ShownCount(technician::checksum(bytes));
    println!(rt; "total length {total}, strings {strings}, checksum {checksum}")
}

// The word for a kind of node to the technician.
fn kind_word(kind: NodeKindView) -> &'static str {
    match kind {
        NodeKindView::Container { .. } => "container",
        NodeKindView::Tag(_) => "tag",
        NodeKindView::Value(ValueView::String(_)) => "string",
        NodeKindView::Value(_) => "value",
        NodeKindView::Void => "void",
        _ => "other",
    }
}

// The word for a kind of node to the sleeper's reader.
fn seen_word(kind: SleeperKind) -> &'static str {
    match kind {
        SleeperKind::Container { .. } => "container",
        SleeperKind::Tag => "tag",
        SleeperKind::Value(SleeperValue::String) => "string",
        SleeperKind::Value(_) => "value",
        SleeperKind::Void => "void",
        _ => "other",
    }
}

// The kind of a node to the technician.
fn print_technician(rt: &impl Print, bytes: &[u8], view: ImageView, node: u32) -> io::Result<()> {
    match views::view::node_view(bytes, view, node) {
        None => print!(rt; " no-18"),
        Some(found) => {
            let kind = kind_word(found.kind);
            print!(rt; " {kind}")
        }
    }
}

// The length of a node's text, and the text; or 18.
fn print_text(rt: &impl Print, bytes: &[u8], view: SleeperView, node: u32) -> io::Result<()> {
    match sleeper::text::text_length(bytes, view, Which::Node(node)) {
        None => print!(rt; ", text no-18"),
        Some(len) => {
            print!(rt; ", text of {len}: ")?;
            rt.write_all(sleeper::text::text(bytes, view, Which::Node(node)))
        }
    }
}

// A node as the sleeper's reader shows it.
fn print_sleeper(rt: &impl Print, bytes: &[u8], view: SleeperView, node: u32) -> io::Result<()> {
    match sleeper::view::node_view(bytes, view, node) {
        None => print!(rt; " no-18")?,
        Some(found) => {
            let kind = seen_word(found.kind);
            let parent = ShownWord(found.parent);
            let place = ShownWord(found.child_index);
            print!(rt; "{kind}, parent {parent}, place {place}")?;
        }
    }
    print_text(rt, bytes, view, node)
}

fn print_node(
    rt: &impl Print,
    bytes: &[u8],
    view: ImageView,
    seen: SleeperView,
    node: u32,
) -> io::Result<()> {
    print!(rt; "{node}")?;
    print_technician(rt, bytes, view, node)?;
    print!(rt; "; ")?;
    print_sleeper(rt, bytes, seen, node)?;
    println!(rt)
}

// Twelve nodes, and a number that is none.
fn print_nodes(
    rt: &impl Print,
    bytes: &[u8],
    view: ImageView,
    seen: SleeperView,
) -> io::Result<()> {
    for node in 0..=12 {
        print_node(rt, bytes, view, seen, node)?;
    }
    Ok(())
}

// An image that both readers load.
fn run(rt: &impl Print, bytes: &[u8]) -> io::Result<()> {
    let mut work = [7u32; 64];
    print_header(rt, bytes)?;
    match load::load(bytes, &mut work) {
        Err(wrong) => print_refusal(rt, wrong),
        Ok(view) => {
            match sleeper::load(bytes, &mut work) {
                Err(wrong) => print_refusal(rt, wrong),
                Ok(seen) => print_nodes(rt, bytes, view, seen),
            }
        }
    }
}

// The two images, and a header that is cut.
pub fn run_both(rt: &impl Print, records: &[u8]) -> io::Result<()> {
    run(rt, image_at(records, 19586))?;
    run(rt, image_at(records, 20379))?;
    print_header(rt, image::text_part(records, 19590, 87))
}
