// The node and the wire section of a route's nodes.
ghost use Rattle.std.specs.Prelude.{◌≡◌, ◌-◌, ◌*◌, ◌≤◌, length};
ghost use Rattle.laws.specs.Lists.{over};
ghost use Rattle.net.specs.Layout.{node_bytes, wire_bytes};
ghost use Rattle.def.specs.Sections.{wire_record, wire_section};
ghost use Rattle.def.specs.Written.{flagged_node, flagged_nodes};

use net::layout::{NODE_BYTES, WIRE_BYTES};
use routes::Node;

// The nodes with their flags, one behind the other. It and write_wires stay two: one function would take a closure with a contract for each record.
pub fn write_nodes(nodes: &[Node], flags: &[u8], out: &mut [u8])
    requires { (length nodes.now ≤ length flags.now) × (node_bytes * length nodes.now ≤ length out.old) }
    ensures { out.new ≡ over (flagged_nodes nodes.now flags.now) out.old }
{
    for i in 0..nodes.len() {
        let at = NODE_BYTES * i;
        write_node(nodes[i], flags[i], &mut out[at..]);
    }
}

// The wires, from wire 1 on, one behind the other.
pub fn write_wires(nodes: &[Node], out: &mut [u8])
    requires { (1 ≤ length nodes.now) × (wire_bytes * (length nodes.now - 1) ≤ length out.old) }
    ensures { out.new ≡ over (wire_section nodes.now) out.old }
{
    for i in 1..nodes.len() {
        let at = WIRE_BYTES * (i - 1);
        write_wire(nodes[i], &mut out[at..]);
    }
}

// A node: x, y, flags.
fn write_node(node: Node, flags: u8, out: &mut [u8])
    requires { node_bytes ≤ length out.old }
    ensures { out.new ≡ over (flagged_node node flags) out.old }
{
    let [x_low, x_high] = node.x.to_le_bytes();
    let [y_low, y_high] = node.y.to_le_bytes();
    out[..NODE_BYTES].copy_from_slice(&[x_low, x_high, y_low, y_high, flags]);
}

// A wire: parent, layer, factor 1.
fn write_wire(node: Node, out: &mut [u8])
    requires { wire_bytes ≤ length out.old }
    ensures { out.new ≡ over (wire_record node) out.old }
{
    out[..WIRE_BYTES].copy_from_slice(&[node.parent, node.wire, 1]);
}
