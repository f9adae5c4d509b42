// The work arrays that the first passes of repair fill.
ghost use Rattle.std.specs.Prelude.{◌≡◌, ◌<◌, ◌≤◌, None, replicate};

// The lowest and the highest position of a wire that may be cut.
#[derive(Clone, Copy)]
pub struct Cuttable {
    pub lo: u32,
    pub hi: u32,
    ghost positive: { 0 < lo },
}

// A jumper of a wire, by its position.
#[derive(Clone, Copy)]
pub struct Jumper {
    pub position: u32,
    ghost positive: { 0 < position },
}

// What the first passes find of a net with at most N nodes. Each pass writes one of these arrays while it reads others: in one array of structs each contract would have to say that the other fields stay, no plainer.
#[derive(Drop)]
pub struct Clusters<const N: usize> {
    // the number of nodes: an entry for each node below it
    pub n: usize,
    ghost few: { n ≤ N },
    // for each wire, where it may be cut, if it may
    pub cuttable: [Option<Cuttable>; N],
    // the lowest node of each node's cluster
    pub root: [usize; N],
    // the root of the cluster that a branch hangs on, 0 for a node that is no branch: an Option takes 16 bytes in place of 8, and repair would need more stack than include/antenna.h states
    pub host: [usize; N],
    // the lowest node of each node's uncut component
    pub component: [usize; N],
    // whether the component with that lowest node has a source
    pub sourced: [bool; N],
    // for each root, the weight that no cut takes away and the gates that a piece may harm: sums, so 0 elsewhere, the sum of nothing
    pub fixed: [u64; N],
    pub gates: [u64; N],
}

impl<const N: usize> Clusters<N> {
    // Arrays for a net, before the first passes: of no node, and with no wire that may be cut.
    pub fn new() -> Self
        ensures n { result.n ≡ 0 }
        ensures cuttable { result.cuttable ≡ replicate N None }
    {
        Clusters {
            n: 0,
            cuttable: [None; N],
            root: [0; N],
            host: [0; N],
            component: [0; N],
            sourced: [false; N],
            fixed: [0; N],
            gates: [0; N],
        }
    }
}
