// The records of all pieces, written in one pass by rising wire number over an accepted net with an accepted jumper list.
#![tactic(auto)]

ghost use Rattle.laws.specs.Numbers.{Bytes};
ghost use Rattle.records.specs.ListRight.{AcceptedWithoutObstacles};

pub mod pass;
mod record;
mod wire;

// An accepted net at a stage with an accepted jumper list. The passes over them read no obstacle, and without obstacles both are still accepted.
#[derive(Clone, Copy)]
pub struct NetWithJumpers<'a> {
    pub stage: u8,
    pub nodes: &'a [u8],
    pub wires: &'a [u8],
    pub jumpers: &'a [u8],
    ghost accepted: { AcceptedWithoutObstacles nodes.now wires.now stage jumpers.now },
    // Each item is a byte. Rattle knows it of a slice, but not of one in a struct.
    ghost bytes: { Bytes nodes.now × Bytes wires.now },
}
