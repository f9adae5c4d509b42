// The pass over all nodes and wires by rising number.
ghost use Rattle.std.specs.Prelude.{◌≡◌, ◌≤◌, length};
ghost use Rattle.laws.specs.Lists.{over};
ghost use Rattle.net.specs.Net.{node_count};
ghost use Rattle.pieces.specs.JumperList.{set_of};
ghost use Rattle.pieces.specs.Report.{report_of};
ghost use Rattle.records.specs.NetWithJumpers.{AtNet, RecordsFit};

use crate::NetWithJumpers;
use crate::wire::take_wire;
use lists::wire::entries_end;
use net::fields::node_count;
use net::layout::MOST_NODES;

// Nets of up to so many nodes have a shorter array.
const FEW_NODES: usize = 16;

// Takes wire after wire; for each node the place of its piece's record is kept. `wire` says why `places` and the buffer are parameters of their own.
fn take_wires(net: NetWithJumpers, limit: u32, places: &mut [usize], out: &mut [u8])
    requires nodes_in_bounds { node_count net.nodes.now ≤ length places.old }
    requires records_fit { RecordsFit net limit out.old }
    ensures { AtNet net.entry (λ s. out.new ≡ over (report_of s limit (set_of net.entry.jumpers.now)) out.old) }
{
    let mut at = 0;
    let mut e = 0;
    for i in 0..node_count(net.nodes) {
        let end = entries_end(net.jumpers, i, e);
        at = take_wire(net, limit, i, e..end, places, out, at);
        e = end;
    }
}

// The records of all pieces, once 16 has been tried.
pub fn write_records(net: NetWithJumpers, limit: u32, out: &mut [u8])
    requires { RecordsFit net limit out.old }
    ensures { AtNet net.entry (λ s. out.new ≡ over (report_of s limit (set_of net.entry.jumpers.now)) out.old) }
{
    // for few nodes a short array: clearing the 2,048 bytes of the other took a third of a report of one node
    if node_count(net.nodes) <= FEW_NODES {
        let mut places = [0usize; FEW_NODES];
        take_wires(net, limit, &mut places, out);
    } else {
        let mut places = [0usize; MOST_NODES];
        take_wires(net, limit, &mut places, out);
    }
}
