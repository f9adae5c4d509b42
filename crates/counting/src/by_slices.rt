// The pass of this crate again, for arrays of any length, as slices. A lowest position of 0 is that of a wire that cannot be cut, whatever its highest one is; an entry of near is 0 where the branch has no jumper of its own.
ghost use Rattle.std.specs.Prelude.{◌≡◌, false, ℕ, ◌<◌, ◌≤◌, length, get_or};
ghost use Rattle.clusters.specs.Positions.{position_of, positions};
ghost use Rattle.clusters.specs.BySlices.{Narrow, SameClusters};
ghost use Rattle.counting.specs.Optional.{flags};
ghost use Rattle.counting.specs.BySlices.{Ready, NoneHopeless, CountLengths, CountedAll};

use crate::count;
use crate::work::Counts;
use clusters::by_slices::clusters_of;
use clusters::work::{Clusters, Jumper};
use net::layout::MOST_NODES;

// The first n entries of an array, over those of another.
fn copy<T: Copy>(n: usize, from: &[T], to: &mut [T])
    requires { (n ≤ length from.now) × (n ≤ length to.old) }
    ensures { (i : ℕ) (d : T) → i < n → get_or to.new i d ≡ get_or from.now i d }
{
    to[..n].copy_from_slice(&from[..n]);
}

// A jumper's position, 0 where there is none.
fn position_of(jumper: Option<Jumper>) -> u64
    ensures { result ≡ position_of jumper }
{
    jumper.map_or(0, |j| u64::from(j.position))
}

// The clusters of n nodes, with their weights and gates.
fn weighed_clusters<const N: usize>(
    n: usize,
    lo: &[u64],
    hi: &[u64],
    host: &[usize],
    fixed: &[u64],
    gates: &[u64],
) -> Clusters<N>
    requires in_bounds { (n ≤ N) × (n ≤ length lo.now) × (n ≤ length hi.now) × (n ≤ length host.now) × (n ≤ length fixed.now) × (n ≤ length gates.now) }
    requires narrow { Narrow n lo.now hi.now }
    ensures same { SameClusters n lo.now hi.now host.now result }
    ensures weights { (r : ℕ) → r < n → (get_or result.fixed r 0 ≡ get_or fixed.now r 0) × (get_or result.gates r 0 ≡ get_or gates.now r 0) }
{
    let mut c = clusters_of(n, lo, hi, host);
    copy(n, fixed, &mut c.fixed);
    copy(n, gates, &mut c.gates);
    c
}

// Of the first n branches, whether they can come without a gate, and their own jumpers.
fn put_branches<const N: usize>(n: usize, k: &Counts<N>, has_ungated: &mut [bool], near: &mut [u64])
    requires { (n ≤ N) × (n ≤ length has_ungated.old) × (n ≤ length near.old) }
    ensures { (r : ℕ) → r < n → (get_or has_ungated.new r false ≡ get_or (flags k.now.ungated) r false) × (get_or near.new r 0 ≡ get_or (positions k.now.near) r 0) }
{
    for r in 0..n {
        has_ungated[r] = k.ungated[r].is_some();
        near[r] = position_of(k.near[r]);
    }
}

// The pass down over n nodes; it may be called again at another limit over the same first passes.
// Of each component, fewest has the fewest points at its lowest node; the answer is their sum.
pub fn count_pass(
    nodes: &[u8],
    wires: &[u8],
    obstacles: &[u8],
    lo: &[u64],
    hi: &[u64],
    host: &[usize],
    fixed: &[u64],
    gates: &[u64],
    cut_any: &mut [bool],
    any_ok: &mut [bool],
    any_weight: &mut [u64],
    has_ungated: &mut [bool],
    near: &mut [u64],
    fewest: &mut [u64],
    n: usize,
    limit: u64,
) -> u64
    requires ready { Ready n nodes.now wires.now obstacles.now lo.now hi.now host.now fixed.now gates.now }
    requires count_lengths { CountLengths n lo.now hi.now host.now fixed.now gates.now cut_any.old any_ok.old any_weight.old has_ungated.old near.old fewest.old }
    requires none_hopeless { NoneHopeless n fixed.now gates.now limit }
    ensures { CountedAll n nodes.now wires.now obstacles.now lo.now hi.now host.now fixed.now gates.now limit
        cut_any.new any_ok.new any_weight.new has_ungated.new near.new fewest.new result }
{
    let c = weighed_clusters::<MOST_NODES>(n, lo, hi, host, fixed, gates);
    let mut k = Counts::<MOST_NODES>::new();
    let points = count::count_pass(nodes, wires, obstacles, &c, limit, &mut k);
    copy(n, &k.cut_any, cut_any);
    copy(n, &k.any_ok, any_ok);
    copy(n, &k.any_weight, any_weight);
    copy(n, &k.fewest, fewest);
    put_branches(n, &k, has_ungated, near);
    points
}
