// Pins: 19, and the flags they give to nodes.
ghost use Rattle.std.specs.Prelude.{◌≡◌, true, ℕ, ◌+◌, ◌*◌, ◌≤◌, length, get_or, OnOk};
ghost use Rattle.net.specs.Layout.{most_nodes};
ghost use Rattle.net.specs.Numbers.{checked};
ghost use Rattle.routes.specs.Nodes.{known, route_nodes};
ghost use Rattle.def.specs.Pins.{pin_bytes, pin_x, pin_y, pin_layer, pin_count, pins_refusal};
ghost use Rattle.def.specs.Joining.{Routed, Joined, JoinedOne};

use net::fields::u16_at;
use net::refusal::Refusal;
use routes::Node;
use routes::reader::Reader;
use routes::table::node_on;

// Bytes of a pin: x, y (16 bits each), layer, flags (8 each).
pub const PIN_BYTES: usize = 6;

// Each pin in order: 19, or its flags joined to those of its node. Nodes are all that the route has, where the table has them all.
pub fn join_pins(
    reader: Reader,
    points: usize,
    nodes: Option<&[Node]>,
    pins: &[u8],
    flags: &mut [u8],
) -> Result<(), Refusal>
    requires routed { Routed reader.text.now reader.place points nodes }
    requires most_nodes_in_bounds { (most_nodes ≤ length flags.old) × ((i : ℕ) → get_or flags.old i 0 ≡ 0) }
    ensures verdict { checked result ≡ pins_refusal (route_nodes reader.entry.text.now reader.entry.place) pins.now }
    ensures joined { OnOk result (Joined (route_nodes reader.entry.text.now reader.entry.place) pins.now (pin_count pins.now) flags.new) }
{
    for k in 0..pins.len().div_ceil(PIN_BYTES) {
        let at = PIN_BYTES * k;
        let pin = &pins[at..];
        if pin.len() < PIN_BYTES || !join_pin(reader, points, nodes, pin, flags) {
            return Err(Refusal::Pin(k));
        }
    }
    Ok(())
}

// The first pin of `pins` meets a node; its flags are joined to the node's where the table has it.
fn join_pin(
    reader: Reader,
    points: usize,
    nodes: Option<&[Node]>,
    pins: &[u8],
    flags: &mut [u8],
) -> bool
    requires routed { Routed reader.text.now reader.place points nodes }
    requires most_nodes_in_bounds { (most_nodes ≤ length flags.old) × (pin_bytes ≤ length pins.now) }
    ensures { (result ≡ known (route_nodes reader.entry.text.now reader.entry.place) (pin_x pins.now 0) (pin_y pins.now 0) (pin_layer pins.now 0)) × (result ≡ true → JoinedOne (route_nodes reader.entry.text.now reader.entry.place) pins.now flags.old flags.new) }
{
    let x = u16_at(pins, 0);
    let y = u16_at(pins, 2);
    let layer = pins[4];
    let Some(nodes) = nodes else {
        return reader.again(points, x, y, layer).is_some();
    };
    let Some(node) = node_on(nodes, x, y, layer) else {
        return false;
    };
    flags[node] |= pins[5];
    true
}
