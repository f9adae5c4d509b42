// A net's routing read from a DEF text and written as a net file.
// `flags` stand in an array beside the nodes, which `routes` lends and which have none: in one array the nodes would have to be copied, no plainer. No heap, fixed memory.
// Definitions: specs/.
#![tactic(auto)]

ghost use Rattle.std.specs.Prelude.{◌≡◌, ◌≤◌, length};
ghost use Rattle.net.specs.Layout.{most_nodes};
ghost use Rattle.net.specs.Numbers.{answered};
ghost use Rattle.net.specs.Refusal.{write_answer, write_buffer};
ghost use Rattle.def.specs.Promise.{def_answer, def_buffer};
ghost use Rattle.def.specs.Sections.{wire_section};
ghost use Rattle.def.specs.Written.{flagged_nodes, written};

use crate::pins::join_pins;
use crate::sections::{write_nodes, write_wires};
use net::layout::{FIRST_VERSION, MOST_NODES, NODE_BYTES, WIRE_BYTES};
use net::refusal::Refusal;
use net::write::write;
use routes::Node;
use routes::reader::Reader;

pub mod pins;
pub mod sections;

// A file that was written: the place in the text after `;`, and the number of its bytes.
#[derive(Clone, Copy)]
pub struct Written {
    pub end: usize,
    pub bytes: usize,
}

// Reads the routing from a place on, and writes its net file: 17 or 18, 19, 4 to 11, 16, or the place after `;` and the number of bytes written.
pub fn def(
    text: &[u8],
    place: usize,
    pins: &[u8],
    obstacles: &[u8],
    out: &mut [u8],
) -> Result<Written, Refusal>
    ensures { (written result ≡ def_answer text.now place pins.now obstacles.now (length out.old)) × (out.new ≡ def_buffer text.now place pins.now obstacles.now out.old) }
{
    let reader = Reader { text, place };
    let route = reader.route()?;
    let nodes = route.found();
    let mut flags = [0; MOST_NODES];
    join_pins(reader, route.points, nodes, pins, &mut flags)?;
    let Some(nodes) = nodes else {
        return Err(Refusal::NodeSection);
    };
    let bytes = write_net(nodes, &flags, obstacles, out)?;
    Ok(Written {
        end: route.end,
        bytes,
    })
}

// The net file of the nodes with their flags, or the first of 4 to 11 and 16.
fn write_net(
    nodes: &[Node],
    flags: &[u8],
    obstacles: &[u8],
    out: &mut [u8],
) -> Result<usize, Refusal>
    requires { (1 ≤ length nodes.now) × (length nodes.now ≤ most_nodes) × (length nodes.now ≤ length flags.now) }
    ensures { (answered result ≡ write_answer 1 (flagged_nodes nodes.now flags.now) (wire_section nodes.now) obstacles.now (length out.old)) × (out.new ≡ write_buffer 1 (flagged_nodes nodes.now flags.now) (wire_section nodes.now) obstacles.now out.old) }
{
    let nodes_end = NODE_BYTES * nodes.len();
    let wires_end = WIRE_BYTES * (nodes.len() - 1);
    let mut node_section = [0; NODE_BYTES * MOST_NODES];
    let mut wire_section = [0; WIRE_BYTES * MOST_NODES];
    write_nodes(nodes, flags, &mut node_section);
    write_wires(nodes, &mut wire_section);
    write(
        u32::from(FIRST_VERSION),
        &node_section[..nodes_end],
        &wire_section[..wires_end],
        obstacles,
        out,
    )
}
