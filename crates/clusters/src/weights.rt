// The fixed weight of each cluster: what no cut takes away from it.
// Sections, with `Wired nodes wires`, `i < node_count nodes` and `i < length cuttable`: any net that is wired will do, and a `Net` would ask more of callers.
// `cuttable`, `root`, `host` and `fixed` are lent one by one, each with a clause that it holds all nodes, one written while others are read: with all in one struct, each contract would have to say which of them stay, no plainer. No heap, fixed memory. `Falling`: see `marks`.
ghost use Rattle.std.specs.Prelude.{◌≡◌, ℕ, ◌+◌, ◌<◌, ◌≤◌, length, get_or};
ghost use Rattle.net.specs.Net.{node_count, wire_length};
ghost use Rattle.clusters.specs.Positions.{los, his};
ghost use Rattle.clusters.specs.FirstPasses.{Wired, EndsInside, Falling, gathered, lower_weight, upper_weight};

use crate::stretch::weight_of_step;
use crate::work::Cuttable;
use net::fields::{is_present, node_count};
use points::length_of;

// What wire i gives to the cluster at its lower end.
fn lower_weight(
    nodes: &[u8],
    wires: &[u8],
    stage: u8,
    cuttable: &[Option<Cuttable>],
    i: usize,
) -> u64
    requires wired { Wired nodes.now wires.now × (i < node_count nodes.now) × (i < length cuttable.now) }
    requires i_bound { 0 < get_or (los cuttable.now) i 0 → get_or (los cuttable.now) i 0 ≤ wire_length nodes.now wires.now i }
    ensures { result ≡ lower_weight nodes.now wires.now stage (los cuttable.now) i }
{
    if !is_present(stage, wires, i) {
        return 0;
    }
    let length = match cuttable[i] {
        Some(e) => e.lo,
        None => length_of(nodes, wires, i),
    };
    u64::from(length) * weight_of_step(wires, i)
}

// And to the cluster at its upper end.
fn upper_weight(nodes: &[u8], wires: &[u8], cuttable: &[Option<Cuttable>], i: usize) -> u64
    requires wired { Wired nodes.now wires.now × (i < node_count nodes.now) × (i < length cuttable.now) }
    requires i_nonzero { (0 < get_or (los cuttable.now) i 0 → 0 < i) × (0 < get_or (los cuttable.now) i 0 → get_or (his cuttable.now) i 0 ≤ wire_length nodes.now wires.now i) }
    ensures { result ≡ upper_weight nodes.now wires.now (los cuttable.now) (his cuttable.now) i }
{
    let Some(e) = cuttable[i] else {
        return 0;
    };
    u64::from(length_of(nodes, wires, i) - e.hi) * weight_of_step(wires, i)
}

// The weight that no cut takes away from each cluster.
pub fn weigh_clusters(
    nodes: &[u8],
    wires: &[u8],
    stage: u8,
    cuttable: &[Option<Cuttable>],
    root: &[usize],
    host: &[usize],
    fixed: &mut [u64],
)
    requires wired { Wired nodes.now wires.now × EndsInside nodes.now wires.now (los cuttable.now) (his cuttable.now) }
    requires nodes_in_bounds { node_count nodes.now ≤ length cuttable.now }
    requires nodes_in_bounds_2 { (node_count nodes.now ≤ length root.now) × (node_count nodes.now ≤ length host.now) }
    requires nodes_in_bounds_3 { node_count nodes.now ≤ length fixed.old }
    requires falling { Falling (node_count nodes.now) root.now × Falling (node_count nodes.now) host.now }
    ensures { (r : ℕ) → r < node_count nodes.now → get_or fixed.new r 0
        ≡ gathered (node_count nodes.now) root.now (lower_weight nodes.now wires.now stage (los cuttable.now)) r
        + gathered (node_count nodes.now) host.now (upper_weight nodes.now wires.now (los cuttable.now) (his cuttable.now)) r }
{
    for i in 0..node_count(nodes) {
        // no wire below i gives to cluster i: roots and hosts are no higher than their nodes
        fixed[i] = 0;
        fixed[root[i]] += lower_weight(nodes, wires, stage, cuttable, i);
        fixed[host[i]] += upper_weight(nodes, wires, cuttable, i);
    }
}
