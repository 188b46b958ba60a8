// For the edits of must-fail/: a node keeps its unused fields, here unused4, stored in lent memory, given from there,
// and whatever else of it changes.
ghost use Rattle.std.specs.Prelude.{◌≡◌};

use cells::node::PathNode;
use cells::node_entry::NodeEntry;
use numbers::math::Vec3;

// The last field of a node as lent memory holds it.
pub fn stored_tag(n: PathNode) -> u16
    ensures { result ≡ n.unused4 }
{
    let stored = NodeEntry::from(n);
    let tag = stored.unused4;
    tag
}

// Behind the very test that the edit makes: each arm does the work, and it is accepted.
pub fn stored_tag_in_arms(n: PathNode) -> u16
    ensures { result ≡ n.unused4 }
{
    let stored = NodeEntry::from(n);
    if 255 < n.unused4 {
        return stored.unused4;
    }
    stored.unused4
}

// The last field of a node that lent memory holds, as calls give it.
pub fn given_tag(e: NodeEntry) -> u16
    ensures { result ≡ e.unused4 }
{
    let node = PathNode::from(e);
    let given = node.unused4;
    given
}

// The same.
pub fn given_tag_in_arms(e: NodeEntry) -> u16
    ensures { result ≡ e.unused4 }
{
    let node = PathNode::from(e);
    if 255 < e.unused4 {
        return node.unused4;
    }
    node.unused4
}

// The last field of a node that is moved.
pub fn last_field(n: PathNode, to: Vec3) -> u16
    ensures { result ≡ n.unused4 }
{
    let moved = n.set_position(to);
    let last = moved.unused4;
    last
}

// The same.
pub fn last_field_in_arms(n: PathNode, to: Vec3) -> u16
    ensures { result ≡ n.unused4 }
{
    let moved = n.set_position(to);
    if 255 < n.unused4 {
        return moved.unused4;
    }
    moved.unused4
}
