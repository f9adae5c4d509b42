// The points of each wire that may be cut: its lowest and its highest position that is inside the wire, on a present wire, and not barred.
// Sections, with `Wired nodes wires` and `i < node_count nodes`: any net that is wired will do, and a `Net` would ask more of callers.
// The array that is written is lent alone: with the others in one struct, the contract would have to say of each that it stays, no plainer.
ghost use Rattle.std.specs.Prelude.{◌<◌, ◌≤◌, length};
ghost use Rattle.net.specs.Layout.{newest};
ghost use Rattle.net.specs.Net.{node_count};
ghost use Rattle.net.specs.NoClearance.{stage_of};
ghost use Rattle.clusters.specs.Positions.{lo_of, hi_of, los, his};
ghost use Rattle.clusters.specs.FirstPasses.{Wired, LowestFree, HighestFree, Ends};

use crate::work::Cuttable;
use net::fields::{is_present, node_count};
use points::{highest_cuttable, length_of, lowest_cuttable};

// The lowest and the highest position of wire i that may be cut, if there is one.
pub(crate) fn cuttable_of(
    nodes: &[u8],
    wires: &[u8],
    obstacles: &[u8],
    stage: u8,
    i: usize,
) -> Option<Cuttable>
    requires { Wired nodes.now wires.now × (i < node_count nodes.now) }
    ensures { LowestFree (stage_of newest nodes.now wires.now obstacles.now stage) i (lo_of result)
        × HighestFree (stage_of newest nodes.now wires.now obstacles.now stage) i (hi_of result) }
{
    if !is_present(stage, wires, i) {
        return None;
    }
    let lo = lowest_cuttable(nodes, wires, obstacles, i, 1)?;
    let last = length_of(nodes, wires, i) - 1;
    let hi = highest_cuttable(nodes, wires, obstacles, i, last)?;
    Some(Cuttable { lo, hi })
}

// Where each wire may be cut.
pub fn find_cuttable(
    nodes: &[u8],
    wires: &[u8],
    obstacles: &[u8],
    stage: u8,
    cuttable: &mut [Option<Cuttable>],
)
    requires wired { Wired nodes.now wires.now }
    requires nodes_in_bounds { node_count nodes.now ≤ length cuttable.old }
    ensures { Ends (stage_of newest nodes.now wires.now obstacles.now stage) (los cuttable.new) (his cuttable.new) }
{
    for i in 0..node_count(nodes) {
        cuttable[i] = cuttable_of(nodes, wires, obstacles, stage, i);
    }
}
