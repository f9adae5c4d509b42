// Fields of nodes, wires and obstacles, read in place from their sections. Each asks that its record is there and no more: a Net would ask more of callers.
ghost use Rattle.std.specs.Prelude.{◌≡◌, ◌&&◌, ◌+◌, ◌*◌, ◌<◌, ◌≤◌, length, ltb, leb};
ghost use Rattle.laws.specs.Bytes.{le16, le32};
ghost use Rattle.net.specs.Layout.{wire_bytes, obstacle_bytes};
ghost use Rattle.net.specs.Net.{node_count, node_x, node_y, node_flags, is_gate, is_source, wire_parent, wire_layer, wire_factor, obstacle_count, obstacle_x1, obstacle_y1, obstacle_x2, obstacle_y2, obstacle_layer};

use crate::layout::{
    FIRST_OBSTACLE_BYTES, FIRST_VERSION, MOST_LAYERS, NODE_BYTES, OBSTACLE_BYTES, WIRE_BYTES,
};

// A node: its coordinates and flags.
#[derive(Clone, Copy, Debug, PartialEq, Eq)]
pub struct Node {
    pub x: u16,
    pub y: u16,
    pub flags: u8,
}

// A wire: the node at its other end, its layer and factor.
#[derive(Clone, Copy, Debug, PartialEq, Eq)]
pub struct Wire {
    pub parent: usize,
    pub layer: u8,
    pub factor: u8,
}

// An obstacle: its corners, both included, and its layer.
#[derive(Clone, Copy, Debug, PartialEq, Eq)]
pub struct Obstacle {
    pub x1: u16,
    pub y1: u16,
    pub x2: u16,
    pub y2: u16,
    pub layer: u8,
}

// The little-endian number of 16 bits at a place. It and the next stay two: each is one call of std, and a trait over both widths would be longer.
pub fn u16_at(bytes: &[u8], at: usize) -> u16
    requires { at + 1 < length bytes.now }
    ensures { result ≡ le16 bytes.now at }
{
    u16::from_le_bytes([bytes[at], bytes[at + 1]])
}

// The little-endian number of 32 bits at a place.
pub fn u32_at(bytes: &[u8], at: usize) -> u32
    requires { at + 3 < length bytes.now }
    ensures { result ≡ le32 bytes.now at }
{
    u32::from_le_bytes([bytes[at], bytes[at + 1], bytes[at + 2], bytes[at + 3]])
}

pub fn node_count(nodes: &[u8]) -> usize
    ensures { result ≡ node_count nodes.now }
{
    nodes.len() / NODE_BYTES
}

pub fn node_at(nodes: &[u8], i: usize) -> Node
    requires { i < node_count nodes.now }
    ensures x { result.x ≡ node_x nodes.now i }
    ensures y { result.y ≡ node_y nodes.now i }
    ensures flags { result.flags ≡ node_flags nodes.now i }
{
    let at = NODE_BYTES * i;
    Node {
        x: u16_at(nodes, at),
        y: u16_at(nodes, at + 2),
        flags: nodes[at + 4],
    }
}

// Bit 0 of a node's flags.
pub fn is_gate(flags: u8) -> bool
    ensures { result ≡ is_gate flags }
{
    flags & 1 == 1
}

// Bit 1 of a node's flags.
pub fn is_source(flags: u8) -> bool
    ensures { result ≡ is_source flags }
{
    (flags >> 1) & 1 == 1
}

pub fn wire_at(wires: &[u8], i: usize) -> Wire
    requires { (0 < i) × (wire_bytes * i ≤ length wires.now) }
    ensures parent { result.parent ≡ wire_parent wires.now i }
    ensures layer { result.layer ≡ wire_layer wires.now i }
    ensures factor { result.factor ≡ wire_factor wires.now i }
{
    let at = WIRE_BYTES * (i - 1);
    Wire {
        parent: usize::from(wires[at]),
        layer: wires[at + 1],
        factor: wires[at + 2],
    }
}

// A stage has wire i: it is a wire, of a layer at most the stage.
pub fn is_present(stage: u8, wires: &[u8], i: usize) -> bool
    requires { wire_bytes * i ≤ length wires.now }
    ensures { result ≡ (ltb 0 i && leb (wire_layer wires.now i) stage) }
{
    0 < i && wire_at(wires, i).layer <= stage
}

// Bytes of an obstacle.
pub fn obstacle_bytes(version: u16) -> usize
    ensures { result ≡ obstacle_bytes version }
{
    if version == FIRST_VERSION {
        FIRST_OBSTACLE_BYTES
    } else {
        OBSTACLE_BYTES
    }
}

pub fn obstacle_count(version: u16, obstacles: &[u8]) -> usize
    ensures { result ≡ obstacle_count version obstacles.now }
{
    // not by obstacle_bytes: divided by a constant, the machine does not divide; so read of 5 nodes took 1.29 of the time before the design pass, with this 1.17
    if version == FIRST_VERSION {
        obstacles.len() / FIRST_OBSTACLE_BYTES
    } else {
        obstacles.len() / OBSTACLE_BYTES
    }
}

// An obstacle of version 1 has no layer: it reads as the highest one.
pub fn obstacle_at(version: u16, obstacles: &[u8], k: usize) -> Obstacle
    requires { k < obstacle_count version obstacles.now }
    ensures x1 { result.x1 ≡ obstacle_x1 version obstacles.now k }
    ensures y1 { result.y1 ≡ obstacle_y1 version obstacles.now k }
    ensures x2 { result.x2 ≡ obstacle_x2 version obstacles.now k }
    ensures y2 { result.y2 ≡ obstacle_y2 version obstacles.now k }
    ensures layer { result.layer ≡ obstacle_layer version obstacles.now k }
{
    let at = obstacle_bytes(version) * k;
    Obstacle {
        x1: u16_at(obstacles, at),
        y1: u16_at(obstacles, at + 2),
        x2: u16_at(obstacles, at + 4),
        y2: u16_at(obstacles, at + 6),
        layer: if version == FIRST_VERSION {
            MOST_LAYERS
        } else {
            obstacles[at + 8]
        },
    }
}
