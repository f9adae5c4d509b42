// The gates of each cluster that a piece may harm: those of components without a source.
// Of a net the section of nodes is read, with `i < node_count nodes`: any will do, and a `Net` would ask more of callers.
// `component`, `root`, `sourced` and `gates` are lent one by one, each with a clause that it holds all nodes, one written while others are read: with all in one struct, each contract would have to say which of them stay, no plainer. No heap, fixed memory. `Falling`: see `marks`.
ghost use Rattle.std.specs.Prelude.{◌≡◌, false, ℕ, ◌<◌, ◌≤◌, length, get_or};
ghost use Rattle.net.specs.Net.{node_count};
ghost use Rattle.clusters.specs.FirstPasses.{Falling, source_in, gate_of, gathered};

use crate::marks::mark_components;
use net::fields::{is_gate, is_source, node_at, node_count};

// Which components have a source.
pub fn mark_sources(nodes: &[u8], component: &[usize], sourced: &mut [bool])
    requires nodes_in_bounds { (node_count nodes.now ≤ length component.now) × (node_count nodes.now ≤ length sourced.old) }
    requires falling { Falling (node_count nodes.now) component.now }
    ensures { (k : ℕ) → k < node_count nodes.now → get_or sourced.new k false ≡ source_in nodes.now component.now (node_count nodes.now) k }
{
    mark_components(
        node_count(nodes),
        component,
        |i| is_source(node_at(nodes, i).flags),
        sourced,
    );
}

// 1 if node i is a gate whose component has no source, else 0.
fn gate_of(nodes: &[u8], component: &[usize], sourced: &[bool], i: usize) -> u64
    requires { (i < node_count nodes.now) × (i < length component.now) × (get_or component.now i 0 < length sourced.now) }
    ensures { result ≡ gate_of nodes.now component.now sourced.now i }
{
    u64::from(is_gate(node_at(nodes, i).flags) && !sourced[component[i]])
}

// The gates of each cluster whose components have no source.
pub fn count_gates(
    nodes: &[u8],
    root: &[usize],
    component: &[usize],
    sourced: &[bool],
    gates: &mut [u64],
)
    requires nodes_in_bounds { (node_count nodes.now ≤ length root.now) × (node_count nodes.now ≤ length component.now) }
    requires nodes_in_bounds_2 { (node_count nodes.now ≤ length sourced.now) × (node_count nodes.now ≤ length gates.old) }
    requires falling { Falling (node_count nodes.now) root.now × Falling (node_count nodes.now) component.now }
    ensures { (r : ℕ) → r < node_count nodes.now → get_or gates.new r 0 ≡ gathered (node_count nodes.now) root.now (gate_of nodes.now component.now sourced.now) r }
{
    for i in 0..node_count(nodes) {
        // no node below i is in cluster i: a root is no higher than its nodes
        gates[i] = 0;
        gates[root[i]] += gate_of(nodes, component, sourced, i);
    }
}
