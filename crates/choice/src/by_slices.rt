// The pass of this crate again, for arrays of any length, as slices. A lowest position of 0 is that of a wire that cannot be cut; an entry of near is 0 where the branch has no jumper of its own.
ghost use Rattle.std.specs.Prelude.{◌≡◌, Bool, List, ℕ, ◌<◌, ◌≤◌, is_some, length, ltb};
ghost use Rattle.net.specs.Layout.{most_nodes};
ghost use Rattle.clusters.specs.Positions.{position_of};
ghost use Rattle.choice.specs.BySlices.{ChoiceLengths, Chooses, Choosable, SameCounts};

use clusters::by_slices::clusters_of;
use clusters::work::Jumper;
use counting::work::Counts;
use net::layout::MOST_NODES;

// A jumper at some position, where near is one.
fn jumper_of(near: u64) -> Option<Jumper>
    ensures { ltb 0 (position_of result) ≡ ltb 0 near }
{
    (0 < near).then_some(Jumper { position: 1 })
}

// Some weight, where one can be had.
fn weight_of(has_ungated: bool) -> Option<u64>
    ensures { is_some result ≡ has_ungated }
{
    has_ungated.then_some(0)
}

// Puts into k what the pass down finds of n clusters, as far as the pass up reads it: of jumpers whether they are there, of weights without a gate whether they can be had.
fn put_counts<const N: usize>(
    n: usize,
    cut_any: &[bool],
    any_ok: &[bool],
    any_weight: &[u64],
    has_ungated: &[bool],
    near: &[u64],
    k: &mut Counts<N>,
)
    requires { (n ≤ N) × (n ≤ length cut_any.now) × (n ≤ length any_ok.now) × (n ≤ length any_weight.now) × (n ≤ length has_ungated.now) × (n ≤ length near.now) }
    ensures { SameCounts n cut_any.now any_ok.now any_weight.now has_ungated.now near.now k.new }
{
    for r in 0..n {
        k.cut_any[r] = cut_any[r];
        k.any_ok[r] = any_ok[r];
        k.any_weight[r] = any_weight[r];
        k.ungated[r] = weight_of(has_ungated[r]);
        k.near[r] = jumper_of(near[r]);
    }
}

// The cut of every branch, with the options that lead to it.
pub fn choose(
    n: usize,
    wires: &[u8],
    lo: &[u64],
    hi: &[u64],
    host: &[usize],
    cut_any: &[bool],
    any_ok: &[bool],
    any_weight: &[u64],
    has_ungated: &[bool],
    near: &[u64],
    limit: u64,
    cut_high: &mut [bool],
)
    requires choice_lengths { ChoiceLengths n lo.now hi.now host.now cut_any.now any_ok.now any_weight.now has_ungated.now near.now }
    requires n_in_bounds { (n ≤ length cut_high.old) × (n ≤ most_nodes) }
    requires choosable { Choosable n wires.now lo.now hi.now host.now any_weight.now }
    ensures { (any_mode : List Bool) × ((r : ℕ) → r < n → Chooses wires.now lo.now hi.now host.now cut_any.now any_ok.now any_weight.now has_ungated.now near.now limit any_mode cut_high.new r) }
{
    let c = clusters_of::<MOST_NODES>(n, lo, hi, host);
    let mut k = Counts::<MOST_NODES>::new();
    put_counts(n, cut_any, any_ok, any_weight, has_ungated, near, &mut k);
    crate::choose(wires, &c, &k, limit, cut_high);
}
