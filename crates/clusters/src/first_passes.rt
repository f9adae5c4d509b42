// The first passes of repair in order: the points of each wire that may be cut, clusters and components, and what no cut parts from a cluster.
// Sections, with `Wired nodes wires`: any net that is wired will do, and a `Net` would ask more of callers.
ghost use Rattle.std.specs.Prelude.{◌≤◌};
ghost use Rattle.net.specs.Net.{node_count};
ghost use Rattle.clusters.specs.FirstPasses.{Wired, Clustered};

use crate::cuttable::find_cuttable;
use crate::gates::{count_gates, mark_sources};
use crate::roots::{find_components, find_hosts, find_roots};
use crate::weights::weigh_clusters;
use crate::work::Clusters;
use net::fields::node_count;

pub fn first_passes<const N: usize>(
    nodes: &[u8],
    wires: &[u8],
    obstacles: &[u8],
    stage: u8,
    c: &mut Clusters<N>,
)
    requires wired { Wired nodes.now wires.now }
    requires in_range { node_count nodes.now ≤ N }
    ensures { Clustered nodes.now wires.now obstacles.now stage c.new }
{
    c.n = node_count(nodes);
    find_cuttable(nodes, wires, obstacles, stage, &mut c.cuttable);
    find_roots(nodes, wires, stage, &c.cuttable, &mut c.root);
    find_hosts(nodes, wires, &c.cuttable, &c.root, &mut c.host);
    find_components(nodes, wires, stage, &mut c.component);
    mark_sources(nodes, &c.component, &mut c.sourced);
    count_gates(nodes, &c.root, &c.component, &c.sourced, &mut c.gates);
    weigh_clusters(
        nodes,
        wires,
        stage,
        &c.cuttable,
        &c.root,
        &c.host,
        &mut c.fixed,
    );
}
