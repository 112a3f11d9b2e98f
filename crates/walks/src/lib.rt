// Walks along a path. A component is lent as three words: its kind (0 parent, 1 index, 2 name), then the index, or offset and length of
// the name in a lent byte slice.
#![tactic(auto)]

ghost use Rattle.std.specs.Prelude.{◌≡◌, Bool};
ghost use Rattle.image.specs.Header.{sections_by};
ghost use Rattle.walks.specs.Walk.{component, components, parent_query, step, steps, resolve};

use image::{ImageView, NONE, tag};

// Words a component, and the kinds of components: numbers, since they are words that C lends.
pub const COMPONENT_WORDS: usize = 3;

pub const PARENT: u32 = 0;

pub const INDEX: u32 = 1;

pub const NAME: u32 = 2;

// The node in the parent word; a step up from the root finds nothing.
fn parent_of(bytes: &[u8], view: ImageView, id: u32) -> Option<u32>
    ensures { result ≡ parent_query (sections_by bytes.now view) id }
{
    let node = views::entries::node_of(bytes, view, id)?;
    if node.parent == NONE {
        None
    } else {
        Some(node.parent)
    }
}

// The named child whose name lies in the lent names.
fn child_named(
    bytes: &[u8],
    view: ImageView,
    id: u32,
    names: &[u8],
    offset: u32,
    len: u32,
) -> Option<u32>
    ensures { result ≡ step (sections_by bytes.now view) id (component names.now 2 offset len) }
{
    let start = offset as usize;
    let end = start + len as usize;
    if end <= names.len() {
        lookups::find_named_child(bytes, view, id, &names[start..end])
    } else {
        None
    }
}

// One component.
fn step_along(
    bytes: &[u8],
    view: ImageView,
    id: u32,
    names: &[u8],
    kind: u32,
    a: u32,
    b: u32,
) -> Option<u32>
    ensures { result ≡ step (sections_by bytes.now view) id (component names.now kind a b) }
{
    match kind {
        PARENT => parent_of(bytes, view, id),
        INDEX => views::children::child_at(bytes, view, id, a),
        NAME => child_named(bytes, view, id, names, a, b),
        _ => None,
    }
}

// A walk from a node along the components of these words.
fn walk(bytes: &[u8], view: ImageView, from: u32, path: &[u32], names: &[u8]) -> Option<u32>
    ensures { result ≡ steps (sections_by bytes.now view) (Some from) (components names.now path.now) }
{
    let mut at = from;
    let mut left = path;
    while let [kind, a, b, rest @ ..] = left {
        match step_along(bytes, view, at, names, *kind, *a, *b) {
            None => {
                return None;
            }
            Some(next) => {
                at = next;
            }
        }
        left = rest;
    }
    if left.is_empty() { Some(at) } else { None }
}

// The node at the end of a path. An absolute walk starts at node 0 and does not test its origin; a relative one starts at the origin if
// that is a container, else at its parent, and skips one component.
pub fn resolve_path(
    bytes: &[u8],
    view: ImageView,
    origin: u32,
    relative: bool,
    path: &[u32],
    names: &[u8],
) -> Option<u32>
    ensures { result ≡ resolve (sections_by bytes.now view) relative origin (components names.now path.now) }
{
    if !relative {
        return walk(bytes, view, 0, path, names);
    }
    let node = views::entries::node_of(bytes, view, origin)?;
    if node.tag == tag::CONTAINER {
        return walk(bytes, view, origin, path, names);
    }
    if node.parent == NONE {
        return None;
    }
    let behind = path.len().min(COMPONENT_WORDS);
    walk(bytes, view, node.parent, &path[behind..], names)
}
