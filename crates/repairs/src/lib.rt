// Repair: what the call tries in order, and the passes behind it.
// The two `as`: std has no From of u64 to usize, nor of u32 to u8, and try_from would add a branch that gives up, where stage and points are proved to fit.
#![tactic(auto)]

ghost use Rattle.std.specs.Prelude.{◌≡◌};
ghost use Rattle.laws.specs.Numbers.{Bytes};
ghost use Rattle.net.specs.Layout.{newest};
ghost use Rattle.net.specs.Refusal.{none, net_refusal};
ghost use Rattle.net.specs.NoClearance.{stage_of};
ghost use Rattle.net.specs.AcceptedNet.{stage_of_net, stage_of_net_under};
ghost use Rattle.net.specs.Numbers.{answered};
ghost use Rattle.repairs.specs.Promise.{Judged, Repaired};

use choice::choose;
use clusters::first_passes::first_passes;
use clusters::hopeless::find_hopeless;
use clusters::work::Clusters;
use counting::count::count_pass;
use counting::work::Counts;
use listing::write_list;
use net::Net;
use net::call::accepted_net;
use net::layout::{ENTRY_BYTES, MOST_NODES, NEWEST_VERSION};
use net::refusal::Refusal;
use obstacles::{PREPARED_BYTES, is_prepared, prepare};

// Repair on a net file at a stage under a clearance: 1, 2 to 11 and 20; then, on the net that is accepted, 15, 16, or the list.
pub fn repair(
    stage: u32,
    limit: u32,
    clearance: u16,
    file: &[u8],
    out: &mut [u8],
) -> Result<usize, Refusal>
    ensures { Repaired stage limit clearance file.now out.old out.new (answered result) }
{
    let net = accepted_net(stage, file)?;
    repair_under(net, stage as u8, u64::from(limit), clearance, out)
}

// Repair on a net of any version under a clearance: the passes see its obstacles grown, in the form of the newest version. No room is cleared for a net
// without obstacles, nor for one of that version without a clearance.
fn repair_under(
    net: Net,
    stage: u8,
    limit: u64,
    clearance: u16,
    out: &mut [u8],
) -> Result<usize, Refusal>
    requires { Bytes net.nodes.now × Bytes net.obstacles.now }
    ensures { Judged (stage_of_net_under net.entry stage clearance) limit out.old out.new (answered result) }
{
    if is_prepared(net.version, clearance, net.obstacles) {
        return repair_prepared(net, net.obstacles, stage, limit, out);
    }
    let mut room = [0; PREPARED_BYTES];
    let end = prepare(net.version, clearance, net.obstacles, &mut room);
    repair_prepared(net, &room[..end], stage, limit, out)
}

// Repair on a net in the newest version: its nodes and wires, with its obstacles in that form.
fn repair_prepared(
    net: Net,
    obstacles: &[u8],
    stage: u8,
    limit: u64,
    out: &mut [u8],
) -> Result<usize, Refusal>
    requires { net_refusal newest net.nodes.now net.wires.now obstacles.now ≡ none }
    ensures { Judged (stage_of newest net.entry.nodes.now net.entry.wires.now obstacles.now stage) limit out.old out.new (answered result) }
{
    let newest = Net {
        version: NEWEST_VERSION,
        nodes: net.nodes,
        wires: net.wires,
        obstacles,
    };
    repair_net(newest, stage, limit, out)
}

// Repair on a net of the newest version: 15 where a cluster is hopeless, 16 where the fewest points need more bytes than lent, or the list of the points chosen.
pub fn repair_net(net: Net, stage: u8, limit: u64, out: &mut [u8]) -> Result<usize, Refusal>
    requires { net.version ≡ newest }
    ensures { Judged (stage_of_net net.entry stage) limit out.old out.new (answered result) }
{
    let mut clusters = Clusters::<MOST_NODES>::new();
    first_passes(net.nodes, net.wires, net.obstacles, stage, &mut clusters);
    let mut hopeless = [false; MOST_NODES];
    if find_hopeless(&clusters, limit, &mut hopeless) {
        return Err(Refusal::NoLegalSet);
    }
    let mut counts = Counts::<MOST_NODES>::new();
    let points = count_pass(
        net.nodes,
        net.wires,
        net.obstacles,
        &clusters,
        limit,
        &mut counts,
    ) as usize;
    let needed = ENTRY_BYTES * points;
    if out.len() < needed {
        return Err(Refusal::LentBuffer(needed));
    }
    let mut cut_high = [false; MOST_NODES];
    choose(net.wires, &clusters, &counts, limit, &mut cut_high);
    write_list(clusters.n, &clusters.cuttable, &counts.near, &cut_high, out);
    Ok(points)
}
