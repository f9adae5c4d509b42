// Refusals 12 to 14 on a whole list, row after row: a row is the entries of one wire, whose length and line are found once.
ghost use Rattle.std.specs.Prelude.{◌≡◌, ℕ, ◌<◌, MatchResult};
ghost use Rattle.net.specs.Refusal.{refusal, first_of};
ghost use Rattle.net.specs.Numbers.{checked, number_of, place_of};
ghost use Rattle.net.specs.AcceptedNet.{stage_of_net_under};
ghost use Rattle.points.specs.Lines.{Reaches};
ghost use Rattle.pieces.specs.JumperList.{entry_count, entry_refusal, list_refusal};
ghost use Rattle.lists.specs.EntriesChecked.{position_refusal, AcceptedTo};

use crate::entries::{entry_count, entry_position, entry_wire};
use net::Net;
use net::fields::{is_present, node_count};
use net::layout::ENTRY_BYTES;
use net::refusal::Refusal;
use points::{Line, is_barred, length_of};

// Position t of a wire of the stage, above 0, by the wire's line and its length: 13, 14. Net, clearance and place are those of the call, line and length those of
// the row: a struct of either would be made for this call alone.
fn position_refusal(
    net: Net,
    clearance: u16,
    line: Line,
    length: u32,
    t: u32,
    place: usize,
) -> Result<(), Refusal>
    requires { (0 < t) × ((s : ℕ) → s < length → Reaches line s) }
    ensures { checked result ≡ position_refusal net.entry.version clearance net.entry.obstacles.now line length t place }
{
    if length <= t {
        return Err(Refusal::JumperOutside(place));
    }
    if is_barred(net.version, clearance, net.obstacles, line, t) {
        return Err(Refusal::JumperBarred(place));
    }
    Ok(())
}

// Where the row ends whose first entry is e, which stands after the one before; or the first refusal up to there. 13 on the wire is met on its first entry; then
// each entry in order: 12, then 13 and 14 on its point.
fn row_end(net: Net, stage: u8, clearance: u16, list: &[u8], e: usize) -> Result<usize, Refusal>
    requires { (e < entry_count list.now) × AcceptedTo (stage_of_net_under net stage clearance) list.now e }
    ensures { MatchResult result (λ end. (e < end) × AcceptedTo (stage_of_net_under net.entry stage clearance) list.now end)
        (λ r. refusal (number_of r) (place_of r) ≡ first_of (entry_count list.now) (entry_refusal (stage_of_net_under net.entry stage clearance) list.now)) }
{
    let i = entry_wire(list, e);
    if node_count(net.nodes) <= i || !is_present(stage, net.wires, i) {
        return Err(Refusal::JumperOutside(e));
    }
    let length = length_of(net.nodes, net.wires, i);
    let line = Line::of_wire(net.nodes, net.wires, i);
    let count = entry_count(list);
    // the next entry stands behind this position: at first the node's, 0, then that of the entry before
    let mut before = 0;
    for d in e..count {
        let wire = entry_wire(list, d);
        if wire < i {
            return Err(Refusal::ListOrder(d));
        }
        if i < wire {
            return Ok(d);
        }
        let t = entry_position(list, d);
        if t <= before {
            return Err(if before == 0 {
                Refusal::JumperOutside(d)
            } else {
                Refusal::ListOrder(d)
            });
        }
        position_refusal(net, clearance, line, length, t, d)?;
        before = t;
    }
    Ok(count)
}

// 12 on the length of a list, then each entry in order. Where a row ends is known once it is checked: hence `while`. Not put into its callers, where the compiler
// does not align its loops.
#[inline(never)]
pub fn list_refusal(net: Net, stage: u8, clearance: u16, list: &[u8]) -> Result<(), Refusal>
    ensures { checked result ≡ list_refusal (stage_of_net_under net.entry stage clearance) list.now }
{
    if list.len() % ENTRY_BYTES != 0 {
        return Err(Refusal::ListOrder(0));
    }
    let mut e = 0;
    while e < entry_count(list) {
        e = row_end(net, stage, clearance, list, e)?;
    }
    Ok(())
}
