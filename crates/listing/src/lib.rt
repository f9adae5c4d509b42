// The jumper list of the chosen points.
// `cuttable`, `near` and `cut_high` are three arrays of three passes before, read here as they stand, as far as n, the nodes of the net; one array of structs would have to be made of them. No heap, fixed memory.
// The three `as`: std has no From of usize or u32 to the narrower types, and try_from would add a branch that gives up, where the numbers are proved to fit.
#![tactic(auto)]

ghost use Rattle.std.specs.Prelude.{◌≡◌, ◌*◌, ◌<◌, ◌≤◌, is_some, length, get_or, unwrap_or};
ghost use Rattle.laws.specs.Lists.{over};
ghost use Rattle.net.specs.Layout.{entry_bytes};
ghost use Rattle.net.specs.Limits.{length_bound};
ghost use Rattle.clusters.specs.Positions.{his, position_of, positions};
ghost use Rattle.listing.specs.Listing.{entry, wire_entries, wire_count, list_of, count_of, Writable};

use clusters::work::{Cuttable, Jumper};
use net::layout::ENTRY_BYTES;

// An entry at the start of the buffer's remainder.
fn write_entry(wire: u8, position: u16, rest: &mut [u8])
    requires { entry_bytes ≤ length rest.old }
    ensures { rest.new ≡ over (entry wire position) rest.old }
{
    rest[0] = wire;
    rest[1..ENTRY_BYTES].copy_from_slice(&position.to_le_bytes());
}

// Writes the entries of one wire, of its own jumper and of the highest point where it is cut there, at the start of the buffer's remainder, and answers how many.
fn write_wire_entries(wire: u8, near: Option<Jumper>, high: Option<u32>, rest: &mut [u8]) -> usize
    requires { (position_of near < length_bound) × (unwrap_or high 0 < length_bound) × (entry_bytes * wire_count (position_of near) (is_some high) ≤ length rest.old) }
    ensures { (result ≡ wire_count (position_of near) (is_some high)) × (rest.new ≡ over (wire_entries wire (position_of near) (unwrap_or high 0) (is_some high)) rest.old) }
{
    let mut written = 0;
    if let Some(jumper) = near {
        write_entry(wire, jumper.position as u16, rest);
        written += 1;
    }
    if let Some(position) = high {
        write_entry(wire, position as u16, &mut rest[ENTRY_BYTES * written..]);
        written += 1;
    }
    written
}

// The highest position of wire r that may be cut, 0 where there is none: of such a wire too an entry is written if cut_high says so, as the contract promises.
fn highest(cuttable: &[Option<Cuttable>], r: usize) -> u32
    requires { r < length cuttable.now }
    ensures { result ≡ get_or (his cuttable.now) r 0 }
{
    cuttable[r].map_or(0, |ends| ends.hi)
}

// Writes the list at the start of out, and answers how many entries it has.
pub fn write_list(
    n: usize,
    cuttable: &[Option<Cuttable>],
    near: &[Option<Jumper>],
    cut_high: &[bool],
    out: &mut [u8],
) -> usize
    requires writable { Writable n (his cuttable.now) (positions near.now) cut_high.now }
    requires cut_high_in_bounds { entry_bytes * count_of n (positions near.now) cut_high.now ≤ length out.old }
    ensures { (result ≡ count_of n (positions near.now) cut_high.now)
        × (out.new ≡ over (list_of n (his cuttable.now) (positions near.now) cut_high.now) out.old) }
{
    let mut count = 0;
    for r in 0..n {
        let rest = &mut out[ENTRY_BYTES * count..];
        let high = cut_high[r].then_some(highest(cuttable, r));
        count += write_wire_entries(r as u8, near[r], high, rest);
    }
    count
}
