// Nodes that stay together, by their lowest node: the root of a cluster, which no cut parts; the lowest node of an uncut component; and the host of a branch, the root of the cluster that it hangs on.
// Sections, with `Wired nodes wires`, `wire_bytes * i ≤ length wires` and `i < length cuttable`: any net that is wired will do, and a `Net` would ask more of callers.
// `leader`, `root`, `component`, `cuttable` and `host` are lent one by one, each with a clause that it holds all nodes, one written while others are read: with all in one struct, each contract would have to say which of them stay, no plainer. No heap, fixed memory.
ghost use Rattle.std.specs.Prelude.{◌≡◌, Bool, true, cond, ℕ, ◌*◌, ◌<◌, ◌≤◌, length, get_or};
ghost use Rattle.net.specs.Layout.{wire_bytes};
ghost use Rattle.net.specs.Net.{node_count, wire_parent};
ghost use Rattle.clusters.specs.Positions.{los};
ghost use Rattle.clusters.specs.FirstPasses.{Wired, is_present, whole, Leads, host_of};

use crate::work::Cuttable;
use net::fields::{is_present, node_count, wire_at};

// The node that each node leads to, lower nodes first: where its parent leads if its wire joins them, else itself.
pub(crate) fn find_leaders<F: Fn(usize) -> bool>(
    nodes: &[u8],
    wires: &[u8],
    joined: F,
    leader: &mut [usize],
)
    requires wired { Wired nodes.now wires.now }
    requires nodes_in_bounds { node_count nodes.now ≤ length leader.old }
    requires callable { (i : ℕ) → i < node_count nodes.now → F.pre joined i }
    requires wires_only { (i : ℕ) → i < node_count nodes.now → F.post joined i true → 0 < i }
    ensures { (i : ℕ) → i < node_count nodes.now → (b : Bool) × F.post joined i b × (get_or leader.new i 0 ≡ cond b (get_or leader.new (wire_parent wires.now i) 0) i) }
{
    for i in 0..node_count(nodes) {
        leader[i] = if joined(i) {
            leader[wire_at(wires, i).parent]
        } else {
            i
        };
    }
}

// Roots of clusters: a node whose wire is present and cannot be cut has its parent's.
pub fn find_roots(
    nodes: &[u8],
    wires: &[u8],
    stage: u8,
    cuttable: &[Option<Cuttable>],
    root: &mut [usize],
)
    requires wired { Wired nodes.now wires.now }
    requires nodes_in_bounds { (node_count nodes.now ≤ length cuttable.now) × (node_count nodes.now ≤ length root.old) }
    ensures { Leads (node_count nodes.now) (whole wires.now stage (los cuttable.now)) (wire_parent wires.now) root.new }
{
    find_leaders(
        nodes,
        wires,
        |i| is_present(stage, wires, i) && cuttable[i].is_none(),
        root,
    );
}

// Uncut components: a node whose wire is present is in its parent's.
pub fn find_components(nodes: &[u8], wires: &[u8], stage: u8, component: &mut [usize])
    requires wired { Wired nodes.now wires.now }
    requires nodes_in_bounds { node_count nodes.now ≤ length component.old }
    ensures { Leads (node_count nodes.now) (is_present wires.now stage) (wire_parent wires.now) component.new }
{
    find_leaders(nodes, wires, |i| is_present(stage, wires, i), component);
}

// The host of node i: its parent's root where wire i can be cut, else 0.
fn host_of(wires: &[u8], cuttable: &[Option<Cuttable>], root: &[usize], i: usize) -> usize
    requires i_in_bounds { (wire_bytes * i ≤ length wires.now) × (i < length cuttable.now) × (i < length root.now) }
    requires i_bound { (0 < i → wire_parent wires.now i < i) × (0 < get_or (los cuttable.now) i 0 → 0 < i) }
    ensures { result ≡ host_of wires.now (los cuttable.now) root.now i }
{
    if cuttable[i].is_some() {
        return root[wire_at(wires, i).parent];
    }
    0
}

// Hosts of branches: the cluster that each hangs on.
pub fn find_hosts(
    nodes: &[u8],
    wires: &[u8],
    cuttable: &[Option<Cuttable>],
    root: &[usize],
    host: &mut [usize],
)
    requires wired { Wired nodes.now wires.now }
    requires nodes_in_bounds { (node_count nodes.now ≤ length cuttable.now) × (node_count nodes.now ≤ length root.now) }
    requires nodes_in_bounds_2 { node_count nodes.now ≤ length host.old }
    requires lo_value { get_or (los cuttable.now) 0 0 ≡ 0 }
    ensures { (i : ℕ) → i < node_count nodes.now → get_or host.new i 0 ≡ host_of wires.now (los cuttable.now) root.now i }
{
    for i in 0..node_count(nodes) {
        host[i] = host_of(wires, cuttable, root, i);
    }
}
