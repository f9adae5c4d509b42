// The passes of this crate again, for arrays of any length, as slices. A lowest position of 0 is that of a wire that cannot be cut, whatever its highest one is.
ghost use Rattle.std.specs.Prelude.{◌≡◌, false, cond, ℕ, ◌+◌, ◌<◌, ◌≤◌, ◌^◌, length, get_or, ltb};
ghost use Rattle.net.specs.Layout.{newest};
ghost use Rattle.net.specs.Net.{node_count, wire_parent};
ghost use Rattle.net.specs.NoClearance.{stage_of};
ghost use Rattle.clusters.specs.Positions.{lo_of, hi_of};
ghost use Rattle.clusters.specs.FirstPasses.{Wired, Ends, EndsInside, whole, Leads, host_of, Falling, gathered, lower_weight, upper_weight};
ghost use Rattle.clusters.specs.Hopeless.{hopeless_at, any_hopeless, hopeless_in};
ghost use Rattle.clusters.specs.BySlices.{Narrow, SameClusters};

use crate::cuttable::cuttable_of;
use crate::marks::mark_components;
use crate::roots::find_leaders;
use crate::weights;
use crate::work::{Clusters, Cuttable};
use net::fields::{is_present, node_count, wire_at};
use net::layout::MOST_NODES;

// Where a wire may be cut, by its lowest and its highest position.
fn ends_of(lo: u64, hi: u64) -> Option<Cuttable>
    requires { 0 < lo → (lo < 2 ^ 32) × (hi < 2 ^ 32) }
    ensures { (lo_of result ≡ lo) × (hi_of result ≡ cond (ltb 0 lo) hi 0) }
{
    if lo == 0 {
        return None;
    }
    Some(Cuttable {
        lo: lo as u32,
        hi: hi as u32,
    })
}

// The clusters of n nodes, by where their wires may be cut and the hosts of their branches.
pub fn clusters_of<const N: usize>(n: usize, lo: &[u64], hi: &[u64], host: &[usize]) -> Clusters<N>
    requires in_bounds { (n ≤ N) × (n ≤ length lo.now) × (n ≤ length hi.now) × (n ≤ length host.now) }
    requires narrow { Narrow n lo.now hi.now }
    ensures { SameClusters n lo.now hi.now host.now result }
{
    let mut cuttable = [None; N];
    for i in 0..n {
        cuttable[i] = ends_of(lo[i], hi[i]);
    }
    let mut hosts = [0; N];
    for j in 0..n {
        hosts[j] = host[j];
    }
    let mut c = Clusters::new();
    c.n = n;
    c.cuttable = cuttable;
    c.host = hosts;
    c
}

// Where each wire may be cut.
pub fn find_cuttable(
    nodes: &[u8],
    wires: &[u8],
    obstacles: &[u8],
    stage: u8,
    lo: &mut [u64],
    hi: &mut [u64],
)
    requires wired { Wired nodes.now wires.now }
    requires nodes_in_bounds { (node_count nodes.now ≤ length lo.old) × (node_count nodes.now ≤ length hi.old) }
    ensures { Ends (stage_of newest nodes.now wires.now obstacles.now stage) lo.new hi.new }
{
    for i in 0..node_count(nodes) {
        let ends = cuttable_of(nodes, wires, obstacles, stage, i);
        lo[i] = ends.map_or(0, |e| u64::from(e.lo));
        hi[i] = ends.map_or(0, |e| u64::from(e.hi));
    }
}

// Roots of clusters.
pub fn find_roots(nodes: &[u8], wires: &[u8], stage: u8, lo: &[u64], root: &mut [usize])
    requires wired { Wired nodes.now wires.now }
    requires nodes_in_bounds { (node_count nodes.now ≤ length lo.now) × (node_count nodes.now ≤ length root.old) }
    ensures { Leads (node_count nodes.now) (whole wires.now stage lo.now) (wire_parent wires.now) root.new }
{
    find_leaders(
        nodes,
        wires,
        |i| is_present(stage, wires, i) && lo[i] == 0,
        root,
    );
}

// Hosts of branches.
pub fn find_hosts(nodes: &[u8], wires: &[u8], lo: &[u64], root: &[usize], host: &mut [usize])
    requires wired { Wired nodes.now wires.now }
    requires nodes_in_bounds { (node_count nodes.now ≤ length lo.now) × (node_count nodes.now ≤ length root.now) }
    requires nodes_in_bounds_2 { node_count nodes.now ≤ length host.old }
    requires lo_value { get_or lo.now 0 0 ≡ 0 }
    ensures { (i : ℕ) → i < node_count nodes.now → get_or host.new i 0 ≡ host_of wires.now lo.now root.now i }
{
    for i in 0..node_count(nodes) {
        host[i] = if 0 < lo[i] {
            root[wire_at(wires, i).parent]
        } else {
            0
        };
    }
}

// The weight that no cut takes away from each cluster.
pub fn weigh_clusters(
    nodes: &[u8],
    wires: &[u8],
    stage: u8,
    lo: &[u64],
    hi: &[u64],
    root: &[usize],
    host: &[usize],
    fixed: &mut [u64],
)
    requires wired { Wired nodes.now wires.now × EndsInside nodes.now wires.now lo.now hi.now }
    requires nodes_in_bounds { (node_count nodes.now ≤ length lo.now) × (node_count nodes.now ≤ length hi.now) }
    requires nodes_in_bounds_2 { (node_count nodes.now ≤ length root.now) × (node_count nodes.now ≤ length host.now) }
    requires nodes_in_bounds_3 { node_count nodes.now ≤ length fixed.old }
    requires falling { Falling (node_count nodes.now) root.now × Falling (node_count nodes.now) host.now }
    ensures { (r : ℕ) → r < node_count nodes.now → get_or fixed.new r 0
        ≡ gathered (node_count nodes.now) root.now (lower_weight nodes.now wires.now stage lo.now) r
        + gathered (node_count nodes.now) host.now (upper_weight nodes.now wires.now lo.now hi.now) r }
{
    let c: Clusters<MOST_NODES> = clusters_of(node_count(nodes), lo, hi, host);
    weights::weigh_clusters(nodes, wires, stage, &c.cuttable, root, host, fixed);
}

// Marks the components that have a hopeless cluster, each at its lowest node, and answers whether there is one.
pub fn find_hopeless(
    component: &[usize],
    fixed: &[u64],
    gates: &[u64],
    n: usize,
    limit: u64,
    hopeless: &mut [bool],
) -> bool
    requires n_in_bounds { (n ≤ length component.now) × Falling n component.now }
    requires n_in_bounds_2 { (n ≤ length fixed.now) × (n ≤ length gates.now) }
    requires n_in_bounds_3 { n ≤ length hopeless.old }
    ensures { (result ≡ any_hopeless n fixed.now gates.now limit)
        × ((k : ℕ) → k < n → get_or hopeless.new k false ≡ hopeless_in n component.now fixed.now gates.now limit k) }
{
    mark_components(
        n,
        component,
        |r| -> bool
            requires { (r < length fixed.now) × (r < length gates.now) }
            ensures { result ≡ hopeless_at fixed.entry.now gates.entry.now limit r }
        { 0 < gates[r] && limit < fixed[r] },
        hopeless,
    )
}
