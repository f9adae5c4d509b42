// The net of document 01: its files read, refused, handed out in sections and written.
// Definitions: specs/.
#![tactic(auto)]

ghost use Rattle.std.specs.Prelude.{◌≡◌};
ghost use Rattle.net.specs.Refusal.{none, net_refusal};

pub mod call;
pub mod fields;
pub mod layout;
pub mod read;
pub mod refusal;
pub mod sections;
pub mod write;

// What a call answers: number 0 is done; another is the refusal of document 01 with its place, and then count is 0.
#[repr(C)]
#[derive(Clone, Copy)]
pub struct Answer {
    pub number: u32,
    pub place: u64,
    pub count: u64,
}

// An accepted net: its version and sections, on which none of 4 to 11 and 20 is met.
#[derive(Clone, Copy)]
pub struct Net<'a> {
    // The number that the file and C have; an enum of two would ask more of who passes one.
    pub version: u16,
    pub nodes: &'a [u8],
    pub wires: &'a [u8],
    pub obstacles: &'a [u8],
    ghost accepted: { net_refusal version nodes.now wires.now obstacles.now ≡ none },
}
