// The report on a net file at a stage.
ghost use Rattle.std.specs.Prelude.{◌≡◌, length};
ghost use Rattle.net.specs.Numbers.{answered};
ghost use Rattle.reports.specs.Promise.{report_answer, report_buffer};

use crate::count::piece_count;
use lists::check::list_refusal;
use net::call::accepted_net;
use net::layout::RECORD_BYTES;
use net::refusal::Refusal;
use records::NetWithJumpers;
use records::pass::write_records;

// The records at the start of the lent buffer and their number, or the first refusal met. What is tried, in order: 1, 2 to 11 and 20, 12 to 14, 16; then the
// records are written in one pass. The stage as a byte is proved to fit, where `try_from` would add a branch that gives up.
pub fn report(
    stage: u32,
    limit: u32,
    clearance: u16,
    file: &[u8],
    jumpers: &[u8],
    out: &mut [u8],
) -> Result<usize, Refusal>
    ensures { (answered result ≡ report_answer stage clearance file.now jumpers.now (length out.old))
        × (out.new ≡ report_buffer stage limit clearance file.now jumpers.now out.old) }
{
    let net = accepted_net(stage, file)?;
    let k = stage as u8;
    list_refusal(net, k, clearance, jumpers)?;
    let with_jumpers = NetWithJumpers {
        stage: k,
        nodes: net.nodes,
        wires: net.wires,
        jumpers,
    };
    let records = piece_count(with_jumpers);
    let needed = RECORD_BYTES * records;
    if out.len() < needed {
        return Err(Refusal::LentBuffer(needed));
    }
    write_records(with_jumpers, limit, out);
    Ok(records)
}
