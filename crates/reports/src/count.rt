// The number of records: nodes less present wires, and one for each jumper.
ghost use Rattle.std.specs.Prelude.{◌≡◌, ◌&&◌, ◌*◌, ◌+◌, ◌≤◌, length, ltb, leb};
ghost use Rattle.laws.specs.Sum.{χ, sum};
ghost use Rattle.net.specs.Layout.{wire_bytes, most_nodes};
ghost use Rattle.net.specs.Limits.{length_bound};
ghost use Rattle.net.specs.Net.{wire_layer};
ghost use Rattle.reports.specs.Promise.{piece_count};
ghost use Rattle.records.specs.NetWithJumpers.{AtNet};

use lists::entries::entry_count;
use net::fields::{is_present, node_count};
use records::NetWithJumpers;

// The wires that the stage has, of those below n.
fn present_count(stage: u8, wires: &[u8], n: usize) -> usize
    requires { wire_bytes * n ≤ length wires.now + wire_bytes }
    ensures { (result ≡ sum n (λ i. χ (ltb 0 i && leb (wire_layer wires.now i) stage) 1)) × (result ≤ n) }
{
    // not by filter and count, from which the compiler makes a branch for each wire: a report of 32 nodes took 1.1 of the time so
    let mut count = 0;
    for i in 0..n {
        if is_present(stage, wires, i) {
            count += 1;
        }
    }
    count
}

// The number of pieces.
pub fn piece_count(net: NetWithJumpers) -> usize
    ensures { AtNet net.entry (λ s. result ≡ piece_count s net.entry.jumpers.now) × (result ≤ most_nodes * (length_bound + 1)) }
{
    let n = node_count(net.nodes);
    n - present_count(net.stage, net.wires, n) + entry_count(net.jumpers)
}
