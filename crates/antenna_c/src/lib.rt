// The public calls of the desk as C exports, each with the clauses of the call behind it: the C interface has each call a second time, with an Answer of the result.
#![tactic(auto)]

ghost use Rattle.std.specs.Prelude.{◌≡◌, length};
ghost use Rattle.repairs.specs.Promise.{Repaired};
ghost use Rattle.net.specs.Refusal.{read_answer, write_answer, write_buffer};
ghost use Rattle.reports.specs.Promise.{report_answer, report_buffer};
ghost use Rattle.def.specs.Promise.{def_answer, def_buffer};

use net::Answer;

// Reads a net file alone: 2 to 11 and 20, or the number of nodes.
#[unsafe(no_mangle)]
pub extern "C" fn antenna_read(file: &[u8]) -> Answer
    ensures { result ≡ read_answer file.now }
{
    antenna::antenna_read(file).into()
}

// Writes the net file of a version and three sections: 2, 4 to 11 and 20, 16, or the number of bytes written.
#[unsafe(no_mangle)]
pub extern "C" fn antenna_write(
    version: u32,
    nodes: &[u8],
    wires: &[u8],
    obstacles: &[u8],
    out: &mut [u8],
) -> Answer
    ensures { (result ≡ write_answer version nodes.now wires.now obstacles.now (length out.old)) × (out.new ≡ write_buffer version nodes.now wires.now obstacles.now out.old) }
{
    antenna::antenna_write(version, nodes, wires, obstacles, out).into()
}

// Reports every piece of a net at a stage with jumpers in place, whose points 14 judges under a clearance: 1, 2 to 11 and 20, 12 to 14, 16, or the number of records.
#[unsafe(no_mangle)]
pub extern "C" fn antenna_report(
    stage: u32,
    limit: u32,
    clearance: u16,
    file: &[u8],
    jumpers: &[u8],
    out: &mut [u8],
) -> Answer
    ensures { (result ≡ report_answer stage clearance file.now jumpers.now (length out.old)) × (out.new ≡ report_buffer stage limit clearance file.now jumpers.now out.old) }
{
    antenna::antenna_report(stage, limit, clearance, file, jumpers, out).into()
}

// Finds a smallest legal jumper set of a net at a stage under a limit and a clearance: 1, 2 to 11 and 20, 15, 16, or the number of jumpers written.
#[unsafe(no_mangle)]
pub extern "C" fn antenna_repair(
    stage: u32,
    limit: u32,
    clearance: u16,
    file: &[u8],
    out: &mut [u8],
) -> Answer
    ensures { Repaired stage limit clearance file.now out.old out.new result }
{
    antenna::antenna_repair(stage, limit, clearance, file, out).into()
}

// Reads one net's routing from DEF text, from a place on, and writes its net file: 17 or 18, 19, 4 to 11, 16, or the place after `;` and the number of bytes written.
#[unsafe(no_mangle)]
pub extern "C" fn antenna_def(
    text: &[u8],
    place: usize,
    pins: &[u8],
    obstacles: &[u8],
    out: &mut [u8],
) -> Answer
    ensures { (result ≡ def_answer text.now place pins.now obstacles.now (length out.old)) × (out.new ≡ def_buffer text.now place pins.now obstacles.now out.old) }
{
    match antenna::antenna_def(text, place, pins, obstacles, out) {
        Ok(file) => Answer {
            // the C interface: 0 is done, and the place is that after `;`. `as`: std has no From of usize to u64
            number: 0,
            place: file.end as u64,
            count: file.bytes as u64,
        },
        Err(refusal) => Err(refusal).into(),
    }
}
