// The weight of a wire from one position to another.
// `wire_bytes * i ≤ length wires`: any section that holds wire i will do, and a `Net` would ask more of callers.
ghost use Rattle.std.specs.Prelude.{◌≡◌, ◌*◌, ◌<◌, ◌≤◌, length};
ghost use Rattle.net.specs.Layout.{wire_bytes};
ghost use Rattle.net.specs.Limits.{length_bound, factor_bound, wire_weight_bound};
ghost use Rattle.net.specs.Net.{wire_factor};
ghost use Rattle.clusters.specs.Stretch.{stretch_weight};

use net::fields::wire_at;

// A wire's factor, as a weight.
pub fn weight_of_step(wires: &[u8], i: usize) -> u64
    requires { (0 < i) × (wire_bytes * i ≤ length wires.now) }
    ensures { (result ≡ wire_factor wires.now i) × (result < factor_bound) }
{
    u64::from(wire_at(wires, i).factor)
}

// The weight of a wire from one position to another.
pub fn stretch_weight(wires: &[u8], i: usize, from: u64, to: u64) -> u64
    requires i_nonzero { (0 < i) × (wire_bytes * i ≤ length wires.now) }
    requires from_le_to { (from ≤ to) × (to < length_bound) }
    ensures { (result ≡ stretch_weight wires.now i from to) × (result < wire_weight_bound) }
{
    weight_of_step(wires, i) * (to - from)
}
