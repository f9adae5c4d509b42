// What the two programs share: the parts of their input, and the lines they print.
#![tactic(auto)]

ghost use Rattle.std.specs.Prelude.{◌≡◌, ℕ, ◌+◌, ◌*◌, ◌/◌, ◌<◌, ◌≤◌, List, length, take, drop, IfOk, IfSome, OnOk};
ghost use Rattle.std.specs.Io.KnownBytes.{Appends};
ghost use Rattle.laws.specs.Gather.{gather};
ghost use Rattle.net.specs.Layout.{entry_bytes, record_bytes};
ghost use Rattle.console.specs.Input.{input_stage, input_limit, input_file};
ghost use Rattle.console.specs.Lines.{refusal_line, entry_line, list_lines, record_line, record_lines};

use net::fields::{u16_at, u32_at};
use net::layout::{ENTRY_BYTES, RECORD_BYTES};
use std::io;
use std::io::{Read, Write};

// Bytes before the net file: stage and limit.
const LEAD_BYTES: usize = 5;

// Reads until `input` is full or no byte is left, and answers how many bytes it read to its front.
pub fn read_input<R: Read>(from: &mut R, input: &mut [u8]) -> io::Result<usize>
    ensures bound { IfOk result (λ n. n ≤ length input.new) }
    ensures bytes { IfSome (R.remaining from.old) (λ xs. IfOk result (λ n. take n input.new ≡ take (length input.old) xs)) }
{
    let mut got = 0;
    // by as much as each read gives: no range has it
    while got < input.len() {
        let n = from.read(&mut input[got..])?;
        if n == 0 {
            break;
        }
        got += n;
    }
    Ok(got)
}

// The stage; 0 for an input of under five bytes, a stage that the call refuses. An Option would have 0 put for None by both programs.
pub fn stage_of(input: &[u8]) -> u32
    ensures { result ≡ input_stage input.now }
{
    if input.len() < LEAD_BYTES {
        return 0;
    }
    u32::from(input[0])
}

// The limit; 0 for an input of under five bytes, like the stage.
pub fn limit_of(input: &[u8]) -> u32
    ensures { result ≡ input_limit input.now }
{
    if input.len() < LEAD_BYTES {
        return 0;
    }
    u32_at(input, 1)
}

pub fn file_of(input: &[u8]) -> &[u8]
    ensures { result.now ≡ input_file input.now }
{
    input.get(LEAD_BYTES..).unwrap_or(&[])
}

// A refusal: `refused`, number and place, with one space between. Any number and place, where a Refusal would ask more of who prints one.
pub fn print_refusal<W: Write>(to: &mut W, number: u32, place: u64) -> io::Result<()>
    ensures { OnOk result (Appends (W.contents to.old) (W.contents to.new) (refusal_line number place)) }
{
    writeln!(to, "refused {number} {place}")
}

// The wire and the position of an entry.
fn print_entry<W: Write>(to: &mut W, entry: &[u8]) -> io::Result<()>
    requires { entry_bytes ≤ length entry.now }
    ensures { OnOk result (Appends (W.contents to.old) (W.contents to.new) (entry_line entry.now 0)) }
{
    writeln!(to, "{} {}", entry[0], u16_at(entry, 1))
}

// The seven fields of a piece record, with one space between them.
fn print_record<W: Write>(to: &mut W, bytes: &[u8]) -> io::Result<()>
    requires { record_bytes ≤ length bytes.now }
    ensures { OnOk result (Appends (W.contents to.old) (W.contents to.new) (record_line bytes.now 0)) }
{
    writeln!(
        to,
        "{} {} {} {} {} {} {}",
        bytes[0],
        u16_at(bytes, 1),
        u32_at(bytes, 3),
        bytes[7],
        u16_at(bytes, 8),
        bytes[10],
        bytes[11]
    )
}

// A line for each whole chunk of so many bytes.
fn print_lines<W: Write, F: Fn(&mut W, &[u8]) -> io::Result<()>>(
    to: &mut W,
    bytes: &[u8],
    size: usize,
    print: F,
) -> io::Result<()>
    requires some { 0 < size }
    requires takes { (t : _) (chunk : _) → length chunk.now ≡ size → F.pre print t chunk }
    ensures { (line : List ℕ → List ℕ) →
        ((t : _) (chunk : _) (r : _) (u : _) → F.post print t chunk r u → OnOk r (Appends (W.contents t.now) (W.contents u.now) (line chunk.now))) →
        OnOk result (Appends (W.contents to.old) (W.contents to.new) (gather (length bytes.now / size) (λ k. line (take size (drop (size * k) bytes.now))))) }
{
    for chunk in bytes.chunks_exact(size) {
        print(to, chunk)?;
    }
    Ok(())
}

// A jumper list: a line `wire position` for each entry.
pub fn print_list<W: Write>(to: &mut W, list: &[u8]) -> io::Result<()>
    ensures { OnOk result (Appends (W.contents to.old) (W.contents to.new) (list_lines list.now)) }
{
    print_lines(to, list, ENTRY_BYTES, |to, entry| print_entry(to, entry))
}

// Piece records, one a line.
pub fn print_records<W: Write>(to: &mut W, records: &[u8]) -> io::Result<()>
    ensures { OnOk result (Appends (W.contents to.old) (W.contents to.new) (record_lines records.now)) }
{
    print_lines(
        to,
        records,
        RECORD_BYTES,
        |to, record| print_record(to, record),
    )
}
