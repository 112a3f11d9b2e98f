// How deep a node lies: the number of parent steps from it to node 0.
#![tactic(auto)]

ghost use Rattle.std.specs.Prelude.{◌≡◌};
ghost use Rattle.image.specs.Header.{sections_by};
ghost use Rattle.depth.specs.Depth.{depth_of};

use image::{ImageView, NodeRecord};

// The number of parent steps from a node to node 0; nothing for a node outside, and where parents lead outside or in a circle.
// No more nodes are looked at than there are: parents that reach node 0 lead to none twice.
pub fn depth(bytes: &[u8], view: ImageView, id: u32) -> Option<u32>
    ensures { result ≡ depth_of (sections_by bytes.now view) id }
{
    let nodes = image::nodes_part(bytes, view);
    let count = image::node_count(nodes, view.version);
    let mut at = id;
    for steps in 0..view.nodes.count {
        if !image::is_inside(count, at) {
            return None;
        }
        if at == 0 {
            return Some(steps);
        }
        at = image::node_word(nodes, view.version, at as usize, NodeRecord::PARENT);
    }
    None
}
