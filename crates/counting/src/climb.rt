// Climbing a branch's wire in the pass down: what the branch then adds to its host, with a jumper of its own where it must.
// `nodes, wires, obstacles, i`: the sections of any net that is wired; a `Net` would ask more of callers.
ghost use Rattle.std.specs.Prelude.{◌+◌, ◌<◌, ◌≤◌};
ghost use Rattle.clusters.specs.Stretch.{stretch_weight};
ghost use Rattle.counting.specs.Climb.{Branch, LastWithin, Climbs, Closable};

use crate::close::{Closing, Options};
use clusters::stretch::{stretch_weight, weight_of_step};
use clusters::work::{Cuttable, Jumper};
use points::highest_cuttable;

// What climbing a branch's wire finds: the fewest points below and on it; the least weight that it then adds to its host; the least without a gate, if that can be had;
// its own jumper, if it has one.
#[derive(Clone, Copy)]
pub struct Climbing {
    pub count: u64,
    pub lightest: u64,
    pub ungated: Option<u64>,
    pub near: Option<Jumper>,
}

// The highest cuttable position of a branch's wire up to which its piece is within the limit.
fn last_within(
    nodes: &[u8],
    wires: &[u8],
    obstacles: &[u8],
    i: usize,
    ends: Cuttable,
    weight: u64,
    limit: u64,
) -> Jumper
    requires branch { Branch nodes.now wires.now obstacles.now i ends.lo ends.hi }
    requires weight_le_limit { (weight ≤ limit) × (limit < weight + stretch_weight wires.now i ends.lo ends.hi) }
    ensures { LastWithin nodes.now wires.now obstacles.now i ends.lo ends.hi weight limit result.position }
{
    let steps = (limit - weight) / weight_of_step(wires, i);
    // below hi, so it fits: std has no From between u64 and u32, and try_from would add a branch that gives up
    let last = (u64::from(ends.lo) + steps) as u32;
    Jumper {
        position: highest_cuttable(nodes, wires, obstacles, i, last).unwrap(),
    }
}

// Climbs the wire of branch i, whose cluster is closed.
pub fn climb(
    nodes: &[u8],
    wires: &[u8],
    obstacles: &[u8],
    i: usize,
    ends: Cuttable,
    x: Closing,
    limit: u64,
) -> Climbing
    requires branch { Branch nodes.now wires.now obstacles.now i ends.lo ends.hi }
    requires closable { Closable limit x }
    ensures { Climbs nodes.now wires.now obstacles.now i ends.lo ends.hi limit x result }
{
    let hi = u64::from(ends.hi);
    let span = stretch_weight(wires, i, u64::from(ends.lo), hi);
    match x.options {
        Options::Any(weight) if limit < weight + span => {
            let near = last_within(nodes, wires, obstacles, i, ends, weight, limit);
            let rest = stretch_weight(wires, i, u64::from(near.position), hi);
            Climbing {
                count: x.fewest + 1,
                lightest: rest,
                ungated: Some(rest),
                near: Some(near),
            }
        }
        Options::Any(weight) => Climbing {
            count: x.fewest,
            lightest: weight + span,
            ungated: None,
            near: None,
        },
        Options::Ungated(weight) => Climbing {
            count: x.fewest,
            lightest: weight + span,
            ungated: Some(weight + span),
            near: None,
        },
        Options::Either { any, ungated } => Climbing {
            count: x.fewest,
            lightest: if any + span <= limit {
                any + span
            } else {
                ungated + span
            },
            ungated: Some(ungated + span),
            near: None,
        },
    }
}
