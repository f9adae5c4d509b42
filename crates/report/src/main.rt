// Reads stage, limit and a net file from standard input and prints the piece records of the uncut stage, one a line.
#![tactic(auto)]

ghost use Rattle.std.specs.Prelude.{◌*◌, ◌≤◌, length, take, IfOk, IfSome, OnOk};
ghost use Rattle.std.specs.Io.KnownBytes.{Appends};
ghost use Rattle.net.specs.Layout.{record_bytes};
ghost use Rattle.net.specs.Numbers.{answered};
ghost use Rattle.report.specs.Printed.{most_input, answer_lines, printed};

use net::layout::{MOST_NODES, RECORD_BYTES};
use net::refusal::Refusal;
use std::io;
use std::io::{Read, Write};

// The records; or the refusal.
fn print_answer<W: Write>(to: &mut W, answer: Result<usize, Refusal>, out: &[u8]) -> io::Result<()>
    requires { IfOk answer (λ n. record_bytes * n ≤ length out.now) }
    ensures { OnOk result (Appends (W.contents to.old) (W.contents to.new) (answer_lines (answered answer) out.now)) }
{
    match answer {
        Ok(count) => console::print_records(to, &out[..RECORD_BYTES * count]),
        Err(refusal) => console::print_refusal(to, refusal.number(), refusal.place()),
    }
}

// Reads at most 8,192 bytes, and prints the answer to them. `run` of repair reads alike: one for both would take call and printing as closures with their contracts, no plainer.
fn run<R: Read, W: Write>(from: &mut R, to: &mut W) -> io::Result<()>
    ensures { OnOk result (IfSome (R.remaining from.old) (λ xs. Appends (W.contents to.old) (W.contents to.new) (printed (take most_input xs)))) }
{
    let mut input = [0u8; 8192];
    let n = console::read_input(from, &mut input)?;
    let text = &input[..n];
    let stage = console::stage_of(text);
    let limit = console::limit_of(text);
    let file = console::file_of(text);
    let mut out = [0u8; RECORD_BYTES * MOST_NODES];
    let answer = antenna::antenna_report(stage, limit, 0, file, &[], &mut out);
    print_answer(to, answer, &out)
}

fn main(rt: HostRuntime) -> io::Result<()> {
    let mut to = rt.stdout();
    run(&mut rt.stdin(), &mut to)?;
    to.flush()
}
