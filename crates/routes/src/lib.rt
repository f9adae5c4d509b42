// The route of a net read from a DEF text: 17, 18, and a table of its first 256 nodes.
// Definitions: specs/.
#![tactic(auto)]

use net::layout::MOST_NODES;

pub mod reader;
pub mod reading;
pub mod table;

// A node: a point on a layer; the node it hangs on, and the layer of the wire or via between them.
#[derive(Clone, Copy, Debug, Default, PartialEq, Eq)]
pub struct Node {
    pub x: u16,
    pub y: u16,
    pub layer: u8,
    pub parent: u8,
    pub wire: u8,
}

// A route: the place after `;`, the number of its points, that of its nodes where it has no more than 256, and the first nodes, in a table of fixed size: no heap.
#[derive(Clone, Copy)]
pub struct Route {
    pub end: usize,
    pub points: usize,
    pub count: Option<usize>,
    pub nodes: [Node; MOST_NODES],
}

// What a point does to the nodes found so far: nothing to the node that it is, or a new node, what it hangs on and by.
#[derive(Clone, Copy)]
pub enum Placed {
    Known(usize),
    New { parent: usize, wire: u8 },
}

// The nodes found so far, where the table has them all: how many, and which is that of the point before.
#[derive(Clone, Copy)]
pub struct Found {
    pub count: usize,
    pub last: usize,
}
