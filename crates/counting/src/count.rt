// The pass down of repair: from high numbers to low, each cluster is closed and its wire climbed.
// `nodes, wires, obstacles`: the sections of any net that is wired; a `Net` would ask more of callers.
ghost use Rattle.std.specs.Prelude.{◌≡◌, false, ℕ, ◌<◌, ◌^◌, get_or};
ghost use Rattle.clusters.specs.Positions.{los};
ghost use Rattle.counting.specs.Count.{work_clusters, Ready, NoneHopeless, CountedFrom, CountedAll, root_sum};

use crate::climb::climb;
use crate::close::close;
use crate::work::{Branches, Counts};
use clusters::work::Clusters;

// The points found: the sum over the nodes that are no branch. Among these only the lowest node of a component has points.
fn total_points<const N: usize>(c: &Clusters<N>, fewest: &[u64; N]) -> u64
    requires { root_sum c.now.n (los c.now.cuttable) fewest.now < 2 ^ 64 }
    ensures { result ≡ root_sum c.now.n (los c.now.cuttable) fewest.now }
{
    let mut sum = 0;
    for r in 0..c.n {
        if c.cuttable[r].is_none() {
            sum += fewest[r];
        }
    }
    sum
}

// The pass down over lent arrays, where no branch is marked: every other entry is written before it is read.
fn count_clusters<const N: usize>(
    nodes: &[u8],
    wires: &[u8],
    obstacles: &[u8],
    c: &Clusters<N>,
    limit: u64,
    k: &mut Counts<N>,
    b: &mut Branches<N>,
)
    requires ready { Ready nodes.now wires.now obstacles.now c.now }
    requires none_hopeless { NoneHopeless c.now limit }
    requires none_marked { (j : ℕ) → j < c.now.n → get_or k.old.cut_any j false ≡ false }
    ensures { CountedFrom (work_clusters nodes.now wires.now obstacles.now c.now) limit k.new b.new 0 }
{
    for r in (0..c.n).rev() {
        let x = close(c, b, &k.ungated, &mut k.cut_any, r, limit);
        k.fewest[r] = x.fewest;
        k.any_ok[r] = x.options.has_any();
        k.any_weight[r] = x.options.any_weight();
        if let Some(ends) = c.cuttable[r] {
            let y = climb(nodes, wires, obstacles, r, ends, x, limit);
            b.count[r] = y.count;
            b.lightest[r] = y.lightest;
            k.ungated[r] = y.ungated;
            k.near[r] = y.near;
        } else {
            k.near[r] = None;
        }
    }
}

// The pass down, with the arrays that only it uses; it may be called again at another limit over the same first passes.
// Of each component, fewest has the fewest points at its lowest node; the answer is their sum.
pub fn count_pass<const N: usize>(
    nodes: &[u8],
    wires: &[u8],
    obstacles: &[u8],
    c: &Clusters<N>,
    limit: u64,
    k: &mut Counts<N>,
) -> u64
    requires ready { Ready nodes.now wires.now obstacles.now c.now }
    requires none_hopeless { NoneHopeless c.now limit }
    ensures { CountedAll nodes.now wires.now obstacles.now c.now limit k.new result }
{
    let mut b = Branches {
        count: [0; N],
        lightest: [0; N],
    };
    k.cut_any.fill(false);
    count_clusters(nodes, wires, obstacles, c, limit, k, &mut b);
    total_points(c, &k.fewest)
}
