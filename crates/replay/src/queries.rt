// Queries of an accepted image. A record has what is asked, then the answer: 0 and its words, or 18.
use crate::compare::{found, node, nothing};
use draft_words::{after, first, read_words};
use image::ImageView;
use lookups::ListItem;
use views::Span;

// Whether the library answers the query as is recorded. The image has to be accepted.
pub fn agrees(kind: u32, fields: &[u8], image: &[u8]) -> bool {
    match load::load(image, &mut [0; 2048]) {
        Ok(view) => answers(kind, fields, image, view),
        Err(_) => false,
    }
}

// Whether the query of a kind is answered as recorded.
fn answers(kind: u32, fields: &[u8], image: &[u8], view: ImageView) -> bool {
    match kind {
        10 => node_view(fields, image, view),
        11 => child(fields, image, view),
        12 => named_child(fields, image, view),
        13 => find_named_child(fields, image, view),
        14 => list_entry(fields, image, view),
        15 => list_origin(fields, image, view),
        16 => definition(fields, image, view),
        17 => definition_item(fields, image, view),
        18 => list_item(fields, image, view),
        19 => walk(fields, image, view),
        _ => false,
    }
}

// Node; number, the view's ten words.
fn node_view(fields: &[u8], image: &[u8], view: ImageView) -> bool {
    let mut words = [0u32; 10];
    if answers::node::put_node_view(image, view, words::get(fields, 0), &mut words) != 0 {
        return nothing(fields, 4);
    }
    found(fields, 4, 10, &words)
}

// Node, index; number, node.
fn child(fields: &[u8], image: &[u8], view: ImageView) -> bool {
    let answer = views::children::child_at(
        image,
        view,
        words::get(fields, 0),
        words::get(fields, 4),
    );
    node(fields, 8, answer)
}

// Node, index; number, name, length, node.
fn named_child(fields: &[u8], image: &[u8], view: ImageView) -> bool {
    match views::children::named_child_at(
        image,
        view,
        words::get(fields, 0),
        words::get(fields, 4),
    ) {
        Some(named) => { found(fields, 8, 3, &answers::named_words(named)) }
        None => nothing(fields, 8),
    }
}

// Node; number, node; the name's length, the name.
fn find_named_child(fields: &[u8], image: &[u8], view: ImageView) -> bool {
    let name = image::text_part(fields, 16, words::get(fields, 12));
    node(
        fields,
        4,
        lookups::find_named_child(image, view, words::get(fields, 0), name),
    )
}

// The payload of the list whose place and length begin a record.
fn payload<'r, 'i>(fields: &'r [u8], image: &'i [u8], view: ImageView) -> &'i [u8] {
    views::lists::list_payload(
        image,
        view,
        Span {
            offset: words::get(fields, 0),
            len: words::get(fields, 4),
        },
    )
}

// The bytes of an image's strings.
fn strings(image: &[u8], view: ImageView) -> &[u8] {
    image::section_part(image, view.strings, ImageView::STRINGS_SIZE)
}

// List's place and length, index; number, origin, length, name, length, value.
fn list_entry(fields: &[u8], image: &[u8], view: ImageView) -> bool {
    match views::lists::list_entry(
        payload(fields, image, view),
        strings(image, view),
        words::get(fields, 8),
    ) {
        Some(entry) => { found(fields, 12, 5, &answers::lists::entry_words(entry)) }
        None => nothing(fields, 12),
    }
}

// List's place and length, index; number, origin, length.
fn list_origin(fields: &[u8], image: &[u8], view: ImageView) -> bool {
    match views::lists::list_origin(
        payload(fields, image, view),
        strings(image, view),
        words::get(fields, 8),
    ) {
        Some(text) => { found(fields, 12, 2, &[text.offset, text.len]) }
        None => nothing(fields, 12),
    }
}

// Index; number, name, length, items.
fn definition(fields: &[u8], image: &[u8], view: ImageView) -> bool {
    match views::lists::definition(image, view, words::get(fields, 0)) {
        Some(definition) => { found(fields, 4, 3, &answers::lists::definition_words(definition)) }
        None => nothing(fields, 4),
    }
}

// Index, item; number, name, length, value.
fn definition_item(fields: &[u8], image: &[u8], view: ImageView) -> bool {
    match views::lists::definition_item(image, view, words::get(fields, 0), words::get(fields, 4)) {
        Some(item) => { found(fields, 8, 3, &answers::lists::item_words(item)) }
        None => nothing(fields, 8),
    }
}

// Number, definition, item among all, value; the name's length, the name.
fn list_item(fields: &[u8], image: &[u8], view: ImageView) -> bool {
    let name = image::text_part(fields, 20, words::get(fields, 16));
    match list_items::list_item(image, view, name).answer {
        Some(item) => item_agrees(fields, item),
        None => nothing(fields, 0),
    }
}

// Whether the item found is the recorded one.
fn item_agrees(fields: &[u8], item: ListItem) -> bool {
    let mut words = [0u32; 3];
    if answers::lists::put_item_numbers(item, &mut words) != 0 {
        return false;
    }
    found(fields, 0, 3, &words)
}

// Origin, whether relative; number, node; number of components, three words each; the names' length, the names. Words of at most eight
// components are read; those past the record's components are of no account.
fn walk(fields: &[u8], image: &[u8], view: ImageView) -> bool {
    let components = words::get(fields, 16);
    if 8 < components {
        return false;
    }
    let mut path = [0; 24];
    read_words(after(fields, 20), &mut path);
    let at = 20 + 12 * components;
    let names = image::text_part(fields, at + 4, words::get(fields, at as usize));
    let relative = words::get(fields, 4) != 0;
    let origin = words::get(fields, 0);
    let path = first(&path, 3 * components);
    let answer = walks::resolve_path(image, view, origin, relative, path, names);
    node(fields, 8, answer)
}
