// Closing a cluster in the pass down: the fewest points below it, and the weight that they leave.
// A cluster has two options. The any-option cuts the heaviest branches until the weight is within the limit; it is not there if the fixed weight alone is over the limit.
// The ungated option cuts every branch that cannot come without a gate, and may then weigh anything; it is not there if the cluster has a gate.
// `c`, `b` and `r`, with `HungAbove` of them, go from function to function: tried as one struct with a ghost field and these as methods; it proved, and repair of a chain of 256 nodes without obstacles took 1.3 of the time.
// `ungated` and `cut_any` are lent apart from the rest of Counts, one read while the other is written: lent whole, the contract would have to say what stays, no plainer.
ghost use Rattle.std.specs.Prelude.{◌≡◌, ◌+◌, ◌<◌, ◌≤◌, ◌^◌, get_or};
ghost use Rattle.std.specs.Option.{IfSome};
ghost use Rattle.clusters.specs.Positions.{los};
ghost use Rattle.counting.specs.Optional.{flags, weights};
ghost use Rattle.counting.specs.Close.{hung, HungAbove, NoneCut, branch_sum, flagged_sum, clear_count, heavier_than, HeaviestBranch, Cutting, Room, cluster_at, any_ok, any_weight, Compared, Closes};

use crate::work::Branches;
use clusters::work::Clusters;

// How many branches an option cuts, and the weight that it leaves.
#[derive(Clone, Copy)]
struct Choice {
    cuts: u64,
    weight: u64,
}

// Branch j hangs on cluster r.
fn hangs<const N: usize>(c: &Clusters<N>, r: usize, j: usize) -> bool
    requires { j < N }
    ensures { result ≡ hung (los c.now.cuttable) c.now.host r j }
{
    c.host[j] == r && c.cuttable[j].is_some()
}

// What the branches of a cluster add up to: the points below them; the least weight that they add; the weight of those that can come without a gate, and how many the others are.
#[derive(Clone, Copy)]
struct Sums {
    count: u64,
    lightest: u64,
    ungated: u64,
    gated: u64,
}

// Sums over the branches of cluster r, in one look through the nodes.
fn sum_branches<const N: usize>(
    c: &Clusters<N>,
    b: &Branches<N>,
    ungated: &[Option<u64>; N],
    r: usize,
) -> Sums
    requires count_bound { (branch_sum c.now.n (los c.now.cuttable) c.now.host r b.now.count < 2 ^ 64) × (branch_sum c.now.n (los c.now.cuttable) c.now.host r b.now.lightest < 2 ^ 64) × (flagged_sum c.now.n (los c.now.cuttable) c.now.host r (flags ungated.now) (weights ungated.now) < 2 ^ 64) }
    requires r_lt_n { (r < c.now.n) × HungAbove (los c.now.cuttable) c.now.host r }
    ensures { (result.count ≡ branch_sum c.now.n (los c.now.cuttable) c.now.host r b.now.count)
        × (result.lightest ≡ branch_sum c.now.n (los c.now.cuttable) c.now.host r b.now.lightest)
        × (result.ungated ≡ flagged_sum c.now.n (los c.now.cuttable) c.now.host r (flags ungated.now) (weights ungated.now))
        × (result.gated ≡ clear_count c.now.n (los c.now.cuttable) c.now.host r (flags ungated.now))
        × (result.gated ≤ c.now.n) }
{
    let mut count = 0;
    let mut lightest = 0;
    let mut free = 0;
    let mut gated = 0;
    for j in r + 1..c.n {
        if hangs(c, r, j) {
            count += b.count[j];
            lightest += b.lightest[j];
            match ungated[j] {
                Some(weight) => free += weight,
                None => gated += 1,
            }
        }
    }
    Sums {
        count,
        lightest,
        ungated: free,
        gated,
    }
}

// Branch j of cluster r is not cut yet and heavier than weight.
fn heavier<const N: usize>(
    c: &Clusters<N>,
    b: &Branches<N>,
    cut_any: &[bool; N],
    r: usize,
    weight: u64,
    j: usize,
) -> bool
    requires { j < N }
    ensures { result ≡ heavier_than (los c.now.cuttable) c.now.host b.now.lightest cut_any.now r weight j }
{
    hangs(c, r, j) && !cut_any[j] && weight < b.lightest[j]
}

// The heaviest branch of cluster r that is not cut yet, if one weighs more than 0.
fn heaviest<const N: usize>(
    c: &Clusters<N>,
    b: &Branches<N>,
    cut_any: &[bool; N],
    r: usize,
) -> Option<usize>
    requires r_lt_n { (r < c.now.n) × HungAbove (los c.now.cuttable) c.now.host r }
    ensures heaviest { HeaviestBranch c.now.n (los c.now.cuttable) c.now.host b.now.lightest cut_any.now r result }
    ensures inside { IfSome result (λ j. j < c.now.n) }
{
    let mut at = None;
    // the weight of none is 0, which the test needs too: an Option of both would be opened at each branch, and by filter and max_by_key both closures would need clauses longer than this loop, no plainer
    let mut weight = 0;
    for j in r + 1..c.n {
        if heavier(c, b, cut_any, r, weight, j) {
            at = Some(j);
            weight = b.lightest[j];
        }
    }
    at
}

// The any-option of cluster r: cuts the heaviest branches, one after another, until its weight is within the limit.
fn cut_heaviest<const N: usize>(
    c: &Clusters<N>,
    b: &Branches<N>,
    cut_any: &mut [bool; N],
    r: usize,
    branches: u64,
    limit: u64,
) -> Choice
    requires fixed_le_limit { (get_or c.now.fixed r 0 ≤ limit) × (get_or c.now.fixed r 0 + branch_sum c.now.n (los c.now.cuttable) c.now.host r b.now.lightest < 2 ^ 64) × (branches ≡ branch_sum c.now.n (los c.now.cuttable) c.now.host r b.now.lightest) }
    requires none_cut { NoneCut c.now.n (los c.now.cuttable) c.now.host cut_any.old r }
    requires r_lt_n { (r < c.now.n) × HungAbove (los c.now.cuttable) c.now.host r }
    ensures { Cutting c.now.n (los c.now.cuttable) c.now.host b.now.lightest cut_any.old cut_any.new r (get_or c.now.fixed r 0) limit result.cuts result.weight
        × (result.weight ≤ limit) }
{
    let mut left = c.fixed[r] + branches;
    let mut cuts = 0;
    // until the weight is within the limit: no index
    while limit < left {
        // more than the fixed weight is left, so a branch with weight is not cut yet
        let Some(at) = heaviest(c, b, cut_any, r) else {
            unreachable!()
        };
        cut_any[at] = true;
        left -= b.lightest[at];
        cuts += 1;
    }
    Choice { cuts, weight: left }
}

// Which options reach the fewest points, and the weight that each leaves.
#[derive(Clone, Copy)]
pub enum Options {
    Any(u64),
    Ungated(u64),
    Either { any: u64, ungated: u64 },
}

impl Options {
    pub fn has_any(self) -> bool
        ensures { result ≡ any_ok self }
    {
        !matches!(self, Options::Ungated(_))
    }

    // The weight that the any-option leaves, or the other one where it alone is there.
    pub fn any_weight(self) -> u64
        ensures { result ≡ any_weight self }
    {
        match self {
            Options::Any(weight) | Options::Ungated(weight) => weight,
            Options::Either { any, .. } => any,
        }
    }
}

// What closing a cluster finds: the fewest points below it, and which options reach that number.
#[derive(Clone, Copy)]
pub struct Closing {
    pub fewest: u64,
    pub options: Options,
}

// The options compared by how many branches they cut, where the any-option is there; below is the number of points below the branches.
fn compare(below: u64, any: Choice, ungated: Choice, gates: u64) -> Closing
    requires { (below + any.cuts < 2 ^ 64) × (below + ungated.cuts < 2 ^ 64) }
    ensures { Compared below any.cuts any.weight ungated.cuts ungated.weight gates result }
{
    if 0 < gates || any.cuts < ungated.cuts {
        return Closing {
            fewest: below + any.cuts,
            options: Options::Any(any.weight),
        };
    }
    if ungated.cuts < any.cuts {
        return Closing {
            fewest: below + ungated.cuts,
            options: Options::Ungated(ungated.weight),
        };
    }
    Closing {
        fewest: below + any.cuts,
        options: Options::Either {
            any: any.weight,
            ungated: ungated.weight,
        },
    }
}

// Closes cluster r, whose branches are all done and which is not hopeless.
pub fn close<const N: usize>(
    c: &Clusters<N>,
    b: &Branches<N>,
    ungated: &[Option<u64>; N],
    cut_any: &mut [bool; N],
    r: usize,
    limit: u64,
) -> Closing
    requires room { Room c.now.n (los c.now.cuttable) c.now.host b.now.count b.now.lightest (flags ungated.now) (weights ungated.now) (cluster_at c.now.fixed c.now.gates r) }
    requires none_cut { NoneCut c.now.n (los c.now.cuttable) c.now.host cut_any.old r }
    requires r_lt_n { (r < c.now.n) × HungAbove (los c.now.cuttable) c.now.host r }
    requires fixed_le_limit { 0 < get_or c.now.gates r 0 → get_or c.now.fixed r 0 ≤ limit }
    ensures { Closes c.now.n (los c.now.cuttable) c.now.host b.now.count b.now.lightest (flags ungated.now) (weights ungated.now) cut_any.old cut_any.new (cluster_at c.now.fixed c.now.gates r) limit result }
{
    let sums = sum_branches(c, b, ungated, r);
    let bare = Choice {
        cuts: sums.gated,
        weight: c.fixed[r] + sums.ungated,
    };
    if limit < c.fixed[r] {
        return Closing {
            fewest: sums.count + bare.cuts,
            options: Options::Ungated(bare.weight),
        };
    }
    let any = cut_heaviest(c, b, cut_any, r, sums.lightest, limit);
    compare(sums.count, any, bare, c.gates[r])
}
