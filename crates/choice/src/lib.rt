// The pass up: the option that each cluster takes, and the branches cut at their highest cuttable point.
// `cut_high` is an array beside those of the passes before: this pass alone writes it, while those are read; in one struct with them, the contract would have to say that they stay, no plainer.
// Of the wires their section is read: any that holds them will do, and a `Net` would ask more of callers.
#![tactic(auto)]

pub mod by_slices;

ghost use Rattle.std.specs.Prelude.{◌≡◌, Bool, false, not, ◌&&◌, ◌||◌, cond, List, ℕ, ◌+◌, ◌*◌, ◌<◌, ◌≤◌, length, get_or, leb, ltb};
ghost use Rattle.net.specs.Layout.{wire_bytes};
ghost use Rattle.net.specs.Limits.{length_bound, weight_bound};
ghost use Rattle.clusters.specs.Positions.{positions};
ghost use Rattle.clusters.specs.Stretch.{stretch_weight};
ghost use Rattle.counting.specs.Optional.{flags};
ghost use Rattle.choice.specs.Choose.{Chooses, Choosable};

use clusters::stretch::stretch_weight;
use clusters::work::{Clusters, Cuttable};
use counting::work::Counts;

// Branch r is cut at its highest cuttable point: its host takes the any-option, which cuts it, or the ungated one, and it can add nothing without a gate.
fn is_cut_high<const N: usize>(k: &Counts<N>, r: usize, host_any: bool) -> bool
    requires { r < N }
    ensures { result ≡ cond host_any (get_or k.now.cut_any r false) (not (get_or (flags k.now.ungated) r false)) }
{
    if host_any {
        k.cut_any[r]
    } else {
        k.ungated[r].is_none()
    }
}

// The any-option of cluster r is within the limit with all of branch r's wire from its lowest to its highest cuttable point.
fn fits_whole<const N: usize>(
    wires: &[u8],
    r: usize,
    ends: Cuttable,
    k: &Counts<N>,
    limit: u64,
) -> bool
    requires r_nonzero { (0 < r) × (r < N) × (wire_bytes * r ≤ length wires.now) }
    requires lo_le_hi { (ends.lo ≤ ends.hi) × (ends.hi < length_bound) × (get_or k.now.any_weight r 0 < weight_bound) }
    ensures { result ≡ (get_or k.now.any_ok r false && leb (get_or k.now.any_weight r 0 + stretch_weight wires.now r ends.lo ends.hi) limit) }
{
    let (lo, hi) = (u64::from(ends.lo), u64::from(ends.hi));
    k.any_ok[r] && k.any_weight[r] + stretch_weight(wires, r, lo, hi) <= limit
}

// Branch r has a jumper of its own.
fn stops<const N: usize>(k: &Counts<N>, r: usize) -> bool
    requires { r < N }
    ensures { result ≡ ltb 0 (get_or (positions k.now.near) r 0) }
{
    k.near[r].is_some()
}

// A branch's cluster takes the any-option: the branch has a jumper of its own; or its host takes it, or the branch is cut, and all of its wire fits.
fn takes_any(stops: bool, host_any: bool, here: bool, fits: bool) -> bool
    ensures { result ≡ (stops || ((host_any || here) && fits)) }
{
    stops || (host_any || here) && fits
}

// The cut of every branch, hosts before their branches, with the options that lead to it.
pub fn choose<const N: usize>(
    wires: &[u8],
    c: &Clusters<N>,
    k: &Counts<N>,
    limit: u64,
    cut_high: &mut [bool],
)
    requires cut_high_in_bounds { c.now.n ≤ length cut_high.old }
    requires choosable { Choosable wires.now c.now k.now }
    ensures { (any_mode : List Bool) × ((r : ℕ) → r < c.now.n → Chooses wires.now c.now k.now limit any_mode cut_high.new r) }
{
    let mut any_mode = [false; N];
    for r in 0..c.n {
        if let Some(ends) = c.cuttable[r] {
            let host_any = any_mode[c.host[r]];
            let here = is_cut_high(k, r, host_any);
            let fits = fits_whole(wires, r, ends, k, limit);
            cut_high[r] = here;
            any_mode[r] = takes_any(stops(k, r), host_any, here, fits);
        } else {
            cut_high[r] = false;
            any_mode[r] = k.any_ok[r];
        }
    }
}
