// Reads stage, limit and a net file from standard input, repairs the net and prints the jumpers.
#![tactic(auto)]

ghost use Rattle.std.specs.Prelude.{ℕ, ◌*◌, ◌≤◌, List, length, take, IfOk, IfSome, OnOk};
ghost use Rattle.std.specs.Io.KnownBytes.{Appends};
ghost use Rattle.net.specs.Layout.{entry_bytes};
ghost use Rattle.net.specs.Numbers.{answered};
ghost use Rattle.repair.specs.Printed.{most_input, answer_lines, Printed};

use net::layout::ENTRY_BYTES;
use net::refusal::Refusal;
use std::io;
use std::io::{Read, Write};

// `jumpers` and the count, then the list; or the refusal.
fn print_answer<W: Write>(to: &mut W, answer: Result<usize, Refusal>, out: &[u8]) -> io::Result<()>
    requires { IfOk answer (λ n. entry_bytes * n ≤ length out.now) }
    ensures { OnOk result (Appends (W.contents to.old) (W.contents to.new) (answer_lines (answered answer) out.now)) }
{
    match answer {
        Ok(count) => {
            writeln!(to, "jumpers {count}")?;
            console::print_list(to, &out[..ENTRY_BYTES * count])
        }
        Err(refusal) => console::print_refusal(to, refusal.number(), refusal.place()),
    }
}

// Reads at most 8,192 bytes, and prints the answer to them. `run` of report reads alike: one for both would take call and printing as closures with their contracts, no plainer.
fn run<R: Read, W: Write>(from: &mut R, to: &mut W) -> io::Result<()>
    ensures { OnOk result (IfSome (R.remaining from.old) (λ xs. (lines : List ℕ) × Printed (take most_input xs) lines × Appends (W.contents to.old) (W.contents to.new) lines)) }
{
    let mut input = [0u8; 8192];
    let n = console::read_input(from, &mut input)?;
    let text = &input[..n];
    let stage = console::stage_of(text);
    let limit = console::limit_of(text);
    let file = console::file_of(text);
    let mut out = [0u8; 65535];
    let answer = antenna::antenna_repair(stage, limit, 0, file, &mut out);
    print_answer(to, answer, &out)
}

fn main(rt: HostRuntime) -> io::Result<()> {
    let mut to = rt.stdout();
    run(&mut rt.stdin(), &mut to)?;
    to.flush()
}
