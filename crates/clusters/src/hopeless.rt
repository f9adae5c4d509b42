// The test for 15: a cluster is hopeless if it has a gate that a piece may harm, and fixed weight over the limit. It needs what the first passes left, and nothing else.
// `hopeless` is an array beside those of the first passes, which only this test writes: in one struct with them the contract would have to say that they stay, no plainer. `Falling`: see `marks`.
ghost use Rattle.std.specs.Prelude.{◌≡◌, false, ℕ, ◌<◌, ◌≤◌, length, get_or};
ghost use Rattle.clusters.specs.FirstPasses.{Falling};
ghost use Rattle.clusters.specs.Hopeless.{hopeless_at, any_hopeless, hopeless_in};

use crate::marks::mark_components;
use crate::work::Clusters;

// Marks the components that have a hopeless cluster, each at its lowest node, and answers whether there is one.
pub fn find_hopeless<const N: usize>(c: &Clusters<N>, limit: u64, hopeless: &mut [bool]) -> bool
    requires falling { Falling c.now.n c.now.component }
    requires hopeless_in_bounds { c.now.n ≤ length hopeless.old }
    ensures { (result ≡ any_hopeless c.now.n c.now.fixed c.now.gates limit)
        × ((k : ℕ) → k < c.now.n → get_or hopeless.new k false ≡ hopeless_in c.now.n c.now.component c.now.fixed c.now.gates limit k) }
{
    mark_components(
        c.n,
        &c.component,
        // cluster r is hopeless; one without such a gate may weigh anything
        |r| -> bool
            requires { r < N }
            ensures { result ≡ hopeless_at c.entry.now.fixed c.entry.now.gates limit r }
        { 0 < c.gates[r] && limit < c.fixed[r] },
        hopeless,
    )
}
