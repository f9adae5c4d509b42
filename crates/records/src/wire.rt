// One node with its wire: what it adds to the records of the nodes and wires below it.
// `places` holds for each node where the record of its piece stands, `at` is where the records end: no heap, fixed memory. The two as one struct behind a `&mut`
// were tried and proved, and a report of 2 nodes then took 1.16 of the time; with `limit` and `out` in it too, a struct that holds `&mut out` did not prove. So what
// writes takes six parameters or more, each from another source. A layer from 1 to 16 is a clause: a type for it would be made at each read of a wire, no plainer. `RecordsFit ..` is about a buffer and `i < most_nodes` about an index, not about one value.
ghost use Rattle.std.specs.Prelude.{◌≡◌, ℕ, ◌+◌, ◌-◌, ◌*◌, ◌^◌, ◌<◌, ◌≤◌, length, get_or, set, drop, ltb};
ghost use Rattle.laws.specs.Sum.{χ};
ghost use Rattle.laws.specs.Place.{place};
ghost use Rattle.net.specs.Layout.{record_bytes, most_nodes, most_layers};
ghost use Rattle.net.specs.Limits.{length_bound, wire_weight_bound};
ghost use Rattle.net.specs.Net.{node_count, wire_parent};
ghost use Rattle.pieces.specs.Legal.{entry_position};
ghost use Rattle.pieces.specs.JumperList.{entry_count};
ghost use Rattle.lists.specs.EntriesOfWire.{OfWire};
ghost use Rattle.records.specs.Record.{fields, stretches_fields};
ghost use Rattle.records.specs.NetWithJumpers.{HeldAtNet, RecordsFit};
ghost use Rattle.records.specs.Wire.{WireReady, EntriesReady, joined_wire, parted_wire};

use crate::NetWithJumpers;
use crate::record::{Record, join_record};
use lists::entries::entry_position;
use net::fields::{Wire, is_present, node_at, wire_at};
use net::layout::RECORD_BYTES;
use points::length_of;
use std::ops::Range;

// The weight of so many steps of a wire.
fn weight_of(steps: u32, factor: u8) -> u64
    ensures { (result ≡ steps * factor) × (steps < length_bound → result < wire_weight_bound) }
{
    u64::from(steps) * u64::from(factor)
}

// The mask of a layer.
fn mask_of(layer: u8) -> u16
    requires { (1 ≤ layer) × (layer ≤ most_layers) }
    ensures { result ≡ 2 ^ (layer - 1) }
{
    1u16 << (layer - 1)
}

// The layers of so many steps of a layer.
fn layers_of(steps: u32, layer: u8) -> u16
    requires { (1 ≤ layer) × (layer ≤ most_layers) }
    ensures { result ≡ χ (ltb 0 steps) (2 ^ (layer - 1)) }
{
    if steps == 0 {
        return 0;
    }
    mask_of(layer)
}

// Node i begins a piece, whose record comes behind the others.
fn start_piece(i: usize, piece: Record, places: &mut [usize], out: &mut [u8], at: usize) -> usize
    requires { (i < length places.old) × (at + record_bytes ≤ length out.old) }
    ensures { (result ≡ at + record_bytes) × (places.new ≡ set places.old i at)
        × (out.new ≡ place at (fields piece.number piece.position piece.weight piece.flags piece.layers) out.old) }
{
    places[i] = at;
    piece.write(&mut out[at..]);
    at + RECORD_BYTES
}

// The records of the stretches between some entries of wire i. Its number as a byte is proved to fit, where `try_from` would add a branch that gives up.
fn write_stretches(
    jumpers: &[u8],
    i: usize,
    entries: Range<usize>,
    wire: Wire,
    out: &mut [u8],
    at: usize,
) -> usize
    requires i_lt_most_nodes { (i < most_nodes) × (entries.start ≤ entries.end) × (entries.end ≤ entry_count jumpers.now) × (1 ≤ wire.layer) × (wire.layer ≤ most_layers) }
    requires by_index { (d : ℕ) → entries.start ≤ d → d + 1 < entries.end → entry_position jumpers.now d ≤ entry_position jumpers.now (d + 1) }
    requires room { at + record_bytes * (entries.end - entries.start - 1) ≤ length out.old }
    ensures { (result ≡ at + record_bytes * (entries.end - entries.start - 1))
        × (out.new ≡ place at (stretches_fields jumpers.now i wire.factor wire.layer entries.start (entries.end - entries.start - 1)) out.old) }
{
    let mut next = at;
    for d in entries.start + 1..entries.end {
        let from = entry_position(jumpers, d - 1);
        let stretch = Record {
            number: i as u8,
            position: from,
            weight: weight_of(entry_position(jumpers, d) - from, wire.factor),
            flags: 0,
            layers: mask_of(wire.layer),
        };
        stretch.write(&mut out[next..]);
        next += RECORD_BYTES;
    }
    next
}

// A wire without a jumper: its steps and node i are in its parent's piece.
fn join_wire(net: NetWithJumpers, limit: u32, i: usize, places: &mut [usize], out: &mut [u8])
    requires { WireReady net.nodes.now net.wires.now i places.old out.old }
    ensures { (places.new ≡ set places.old i (get_or places.old (wire_parent net.entry.wires.now i) 0))
        × (out.new ≡ joined_wire limit net.entry.nodes.now net.entry.wires.now i places.old out.old) }
{
    let wire = wire_at(net.wires, i);
    let above = places[wire.parent];
    let len = length_of(net.nodes, net.wires, i);
    places[i] = above;
    join_record(
        &mut out[above..],
        limit,
        weight_of(len, wire.factor),
        node_at(net.nodes, i).flags,
        layers_of(len, wire.layer),
    );
}

// A wire with jumpers, which are those entries: the steps above the last are in its parent's piece, those below the first in node i's; the stretches lie between.
fn part_wire(
    net: NetWithJumpers,
    limit: u32,
    i: usize,
    entries: Range<usize>,
    places: &mut [usize],
    out: &mut [u8],
    at: usize,
) -> usize
    requires wire_ready { WireReady net.nodes.now net.wires.now i places.old out.old }
    requires entries_ready { EntriesReady net.nodes.now net.wires.now net.jumpers.now i entries.start entries.end }
    requires room { at + record_bytes * (entries.end - entries.start) ≤ length out.old }
    ensures { (result ≡ at + record_bytes * (entries.end - entries.start)) × (places.new ≡ set places.old i at)
        × (out.new ≡ parted_wire limit net.entry.nodes.now net.entry.wires.now net.entry.jumpers.now i entries.start entries.end places.old at out.old) }
{
    let wire = wire_at(net.wires, i);
    let above = places[wire.parent];
    let mask = mask_of(wire.layer);
    let first = entry_position(net.jumpers, entries.start);
    let last = entry_position(net.jumpers, entries.end - 1);
    let end_weight = weight_of(length_of(net.nodes, net.wires, i) - last, wire.factor);
    join_record(&mut out[above..], limit, end_weight, 0, mask);
    let flags = node_at(net.nodes, i).flags;
    let own = Record::of_piece(limit, i, weight_of(first, wire.factor), flags, mask);
    let behind = start_piece(i, own, places, out, at);
    write_stretches(net.jumpers, i, entries, wire, out, behind)
}

// Node i with its wire, whose entries in the list are those: the buffer, which begins with the records of the nodes below i, then begins with those of the
// nodes up to i; where they end.
pub(crate) fn take_wire(
    net: NetWithJumpers,
    limit: u32,
    i: usize,
    entries: Range<usize>,
    places: &mut [usize],
    out: &mut [u8],
    at: usize,
) -> usize
    requires i_bound { (i < node_count net.nodes.now) × OfWire net.jumpers.now (entry_count net.jumpers.now) i entries.start entries.end }
    requires nodes_in_bounds { node_count net.nodes.now ≤ length places.old }
    requires records_fit { RecordsFit net limit out.old }
    requires held_below { HeldAtNet net limit i places.old at out.old }
    ensures { HeldAtNet net.entry limit (i + 1) places.new result out.new
        × (drop result out.new ≡ drop result out.old) }
{
    if !is_present(net.stage, net.wires, i) {
        let own = Record::of_piece(limit, i, 0, node_at(net.nodes, i).flags, 0);
        return start_piece(i, own, places, out, at);
    }
    if entries.is_empty() {
        join_wire(net, limit, i, places, out);
        return at;
    }
    part_wire(net, limit, i, entries, places, out, at)
}
