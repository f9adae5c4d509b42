// The work arrays of the pass down, with an entry for each of at most N nodes.

ghost use Rattle.std.specs.Prelude.{◌≡◌, false, replicate};

use clusters::work::Jumper;

// What the pass down finds. One array of structs would take 48 bytes a node in place of 42, and repair would then need more stack than include/antenna.h states.
#[derive(Drop)]
pub struct Counts<const N: usize> {
    // branches that the any-option of their host cuts
    pub cut_any: [bool; N],
    // for each cluster, whether the any-option reaches the fewest points, and the weight that it leaves, or the other one where that alone does:
    // an entry of Options takes 24 bytes, and the call would then need more stack than include/antenna.h states
    pub any_ok: [bool; N],
    pub any_weight: [u64; N],
    // the least weight that a branch adds to its host without a gate, if that can be had
    pub ungated: [Option<u64>; N],
    // a branch's own jumper, if it has one
    pub near: [Option<Jumper>; N],
    // for each cluster, the fewest points below it
    pub fewest: [u64; N],
}

impl<const N: usize> Counts<N> {
    // Arrays before the pass down: no branch is marked.
    pub fn new() -> Self
        ensures { result.cut_any ≡ replicate N false }
    {
        Counts {
            cut_any: [false; N],
            any_ok: [false; N],
            any_weight: [0; N],
            ungated: [None; N],
            near: [None; N],
            fewest: [0; N],
        }
    }
}

// What else climbing finds of branches, as far as closing their hosts reads it. Two arrays: `lightest` is read alone wherever branches are compared, and each clause on either would have to take it out of an array of structs first, no plainer.
#[derive(Drop)]
pub struct Branches<const N: usize> {
    // the fewest points below and on a branch's wire
    pub count: [u64; N],
    // the least weight that a branch adds to its host
    pub lightest: [u64; N],
}
