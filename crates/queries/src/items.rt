// List items by name: the definition and the item that answer, or 18, and how many definitions' items were searched.
use crate::print_refusal;
use image::ImageView;
use std::io;

// Asks for an item and prints a line.
fn ask(rt: &impl Print, label: &str, bytes: &[u8], view: ImageView, name: &[u8]) -> io::Result<()> {
    let search = list_items::list_item(bytes, view, name);
    let searched = search.searched;
    match search.answer {
        Some(item) => {
            let definition = item.definition;
            let place = item.item;
            print!(rt; "{label}: definition {definition}, item {place}")?;
        }
        None => print!(rt; "{label}: 18")?,
    }
    println!(rt; ", searched {searched}")
}

// Asks for items whose names are their labels.
fn ask_each(rt: &impl Print, bytes: &[u8], view: ImageView, names: &[&str]) -> io::Result<()> {
    for name in names {
        ask(rt, name, bytes, view, name.as_bytes())?;
    }
    Ok(())
}

// Of an image with the definitions red and size, which both hold low. Behind those are names without an item: nothing, White_Space alone (a
// space, a tab, U+2003, U+3000), a dot with nothing on one side.
pub fn ask_two(rt: &impl Print, bytes: &[u8], view: ImageView) -> io::Result<()> {
    let names = [
        "low",
        "red.low",
        "size.low",
        "no.low",
        "high",
        "red.high",
        "red.low.low",
    ];
    ask_each(rt, bytes, view, &names)?;
    ask(rt, "empty", bytes, view, b"")?;
    ask(rt, "blank", bytes, view, " \t\u{2003}\u{3000}".as_bytes())?;
    ask_each(rt, bytes, view, &[".", ".low", "red.", "x."])
}

// Loads an image with sixty definitions of twenty items, and asks it.
pub fn run_sixty(rt: &impl Print, bytes: &[u8]) -> io::Result<()> {
    let names = [
        "first", "last", "none", "i00", "i19", "d00.i00", "d59.last", "d00.last", "d60.i00",
    ];
    match load::load(bytes, &mut [7; 2]) {
        Ok(view) => ask_each(rt, bytes, view, &names),
        Err(wrong) => print_refusal(rt, wrong),
    }
}
