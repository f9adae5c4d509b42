// The writer: three sections written as one net file of a version.
// The sections stay parameters: C hands them over one by one, and write_file takes any that fit, where a Net would ask more.
ghost use Rattle.std.specs.Prelude.{◌≡◌, ◌++◌, ◌+◌, ◌<◌, ◌≤◌, length};
ghost use Rattle.laws.specs.Bytes.{bytes16, bytes32};
ghost use Rattle.laws.specs.Lists.{over};
ghost use Rattle.net.specs.Layout.{head_bytes};
ghost use Rattle.net.specs.File.{head_of, file_of, file_bytes};
ghost use Rattle.net.specs.Writing.{pairs_of};
ghost use Rattle.net.specs.Numbers.{answered};
ghost use Rattle.net.specs.Refusal.{write_answer, write_buffer};

use crate::layout::{HEAD_BYTES, LENGTH_AT, PAIR_BYTES, PAIR_COUNT, PAIR_COUNT_AT, PAIRS_AT};
use crate::read::net_refusal;
use crate::refusal::Refusal;
use crate::sections::is_version;

// The file at the start of out and the number of its bytes, or the first of 2, 4 to 11, 20 and 16, with out as it was.
pub fn write(
    version: u32,
    nodes: &[u8],
    wires: &[u8],
    obstacles: &[u8],
    out: &mut [u8],
) -> Result<usize, Refusal>
    ensures { (answered result ≡ write_answer version nodes.now wires.now obstacles.now (length out.old)) × (out.new ≡ write_buffer version nodes.now wires.now obstacles.now out.old) }
{
    if !is_version(version) {
        return Err(Refusal::Head);
    }
    // fits, as is_version says, and try_from would add a branch that gives up
    let file_version = version as u16;
    net_refusal(file_version, nodes, wires, obstacles)?;
    let needed = HEAD_BYTES + nodes.len() + wires.len() + obstacles.len();
    if out.len() < needed {
        return Err(Refusal::LentBuffer(needed));
    }
    write_file(file_version, nodes, wires, obstacles, out);
    Ok(needed)
}

// Head, nodes, wires and obstacles, one behind the other.
pub fn write_file(version: u16, nodes: &[u8], wires: &[u8], obstacles: &[u8], out: &mut [u8])
    requires { file_bytes nodes.now wires.now obstacles.now ≤ length out.old }
    ensures { out.new ≡ over (file_of version nodes.now wires.now obstacles.now) out.old }
{
    let wires_at = HEAD_BYTES + nodes.len();
    write_head(version, nodes.len(), wires.len(), obstacles.len(), out);
    copy(nodes, &mut out[HEAD_BYTES..]);
    copy_two(wires, obstacles, &mut out[wires_at..]);
}

// Version, pair count and the three pairs.
fn write_head(version: u16, nodes: usize, wires: usize, obstacles: usize, out: &mut [u8])
    requires { (head_bytes ≤ length out.old) × (head_bytes + nodes + wires < 18446744073709551616) }
    ensures { out.new ≡ over (head_of version nodes wires obstacles) out.old }
{
    copy(&version.to_le_bytes(), out);
    copy(&PAIR_COUNT.to_le_bytes(), &mut out[PAIR_COUNT_AT..]);
    put_pairs(nodes, wires, obstacles, &mut out[PAIRS_AT..]);
}

// The pairs of nodes, wires and obstacles: each section begins where the one before it ends.
fn put_pairs(nodes: usize, wires: usize, obstacles: usize, out: &mut [u8])
    requires { (24 ≤ length out.old) × (head_bytes + nodes + wires < 18446744073709551616) }
    ensures { out.new ≡ over (pairs_of nodes wires obstacles) out.old }
{
    let wires_at = HEAD_BYTES + nodes;
    let third = PAIR_BYTES + PAIR_BYTES;
    put_pair(HEAD_BYTES, nodes, out);
    put_pair(wires_at, wires, &mut out[PAIR_BYTES..]);
    put_pair(wires_at + wires, obstacles, &mut out[third..]);
}

// An offset and, behind it, a length.
fn put_pair(offset: usize, extent: usize, out: &mut [u8])
    requires { 8 ≤ length out.old }
    ensures { out.new ≡ over (bytes32 offset ++ bytes32 extent) out.old }
{
    put32(offset, out);
    put32(extent, &mut out[LENGTH_AT..]);
}

// All of source, byte after byte: `copy_from_slice` of any length calls `memmove`, which C would then have to bring beside `memcpy` and `memset`.
fn copy(source: &[u8], out: &mut [u8])
    requires { length source.now ≤ length out.old }
    ensures { out.new ≡ over source.now out.old }
{
    for i in 0..source.len() {
        out[i] = source[i];
    }
}

// All of first, then all of second.
fn copy_two(first: &[u8], second: &[u8], out: &mut [u8])
    requires { length first.now + length second.now ≤ length out.old }
    ensures { out.new ≡ over (first.now ++ second.now) out.old }
{
    let at = first.len();
    copy(first, out);
    copy(second, &mut out[at..]);
}

// The low 32 bits of a number: masked, it fits, and try_from would add a branch that gives up.
fn put32(number: usize, out: &mut [u8])
    requires { 4 ≤ length out.old }
    ensures { out.new ≡ over (bytes32 number) out.old }
{
    out[..4].copy_from_slice(&((number & 0xffff_ffff) as u32).to_le_bytes());
}
