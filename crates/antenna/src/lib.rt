// The public calls of the desk. Each takes any input and carries the whole promise of the call behind it.
#![tactic(auto)]

ghost use Rattle.std.specs.Prelude.{◌≡◌, length};
ghost use Rattle.repairs.specs.Promise.{Repaired};
ghost use Rattle.net.specs.Numbers.{answered};
ghost use Rattle.net.specs.Refusal.{read_answer, write_answer, write_buffer};
ghost use Rattle.reports.specs.Promise.{report_answer, report_buffer};
ghost use Rattle.def.specs.Promise.{def_answer, def_buffer};
ghost use Rattle.def.specs.Written.{written};

use def::Written;
use net::refusal::Refusal;

// Reads a net file alone: 2 to 11 and 20, or the number of nodes.
pub fn antenna_read(file: &[u8]) -> Result<usize, Refusal>
    ensures { answered result ≡ read_answer file.now }
{
    net::read::read(file)
}

// Writes the net file of a version and three sections: 2, 4 to 11 and 20, 16, or the number of bytes written.
pub fn antenna_write(
    version: u32,
    nodes: &[u8],
    wires: &[u8],
    obstacles: &[u8],
    out: &mut [u8],
) -> Result<usize, Refusal>
    ensures { (answered result ≡ write_answer version nodes.now wires.now obstacles.now (length out.old)) × (out.new ≡ write_buffer version nodes.now wires.now obstacles.now out.old) }
{
    net::write::write(version, nodes, wires, obstacles, out)
}

// Reports every piece of a net at a stage with jumpers in place, whose points 14 judges under a clearance: 1, 2 to 11 and 20, 12 to 14, 16, or the number of records.
pub fn antenna_report(
    stage: u32,
    limit: u32,
    clearance: u16,
    file: &[u8],
    jumpers: &[u8],
    out: &mut [u8],
) -> Result<usize, Refusal>
    ensures { (answered result ≡ report_answer stage clearance file.now jumpers.now (length out.old)) × (out.new ≡ report_buffer stage limit clearance file.now jumpers.now out.old) }
{
    reports::report::report(stage, limit, clearance, file, jumpers, out)
}

// Finds a smallest legal jumper set of a net at a stage under a limit and a clearance: 1, 2 to 11 and 20, 15, 16, or the number of jumpers written.
pub fn antenna_repair(
    stage: u32,
    limit: u32,
    clearance: u16,
    file: &[u8],
    out: &mut [u8],
) -> Result<usize, Refusal>
    ensures { Repaired stage limit clearance file.now out.old out.new (answered result) }
{
    repairs::repair(stage, limit, clearance, file, out)
}

// Reads one net's routing from DEF text, from a place on, and writes its net file: 17 or 18, 19, 4 to 11, 16, or the place after `;` and the number of bytes written.
pub fn antenna_def(
    text: &[u8],
    place: usize,
    pins: &[u8],
    obstacles: &[u8],
    out: &mut [u8],
) -> Result<Written, Refusal>
    ensures { (written result ≡ def_answer text.now place pins.now obstacles.now (length out.old)) × (out.new ≡ def_buffer text.now place pins.now obstacles.now out.old) }
{
    def::def(text, place, pins, obstacles, out)
}
