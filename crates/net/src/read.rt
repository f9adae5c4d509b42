// The reader: the first refusal met in a net file, or in three sections.
// The sections come one by one, from a file or from C, and are a Net only when they are accepted: so the functions before that take each.
ghost use Rattle.std.specs.Prelude.{◌≡◌, ℕ, ◌+◌, ◌-◌, ◌*◌, ◌<◌, ◌≤◌, length, IfOk};
ghost use Rattle.net.specs.Layout.{wire_bytes};
ghost use Rattle.net.specs.Net.{node_count, node_flags, obstacle_count};
ghost use Rattle.net.specs.Numbers.{checked, answered};
ghost use Rattle.net.specs.AcceptedNet.{IsNetOf};
ghost use Rattle.net.specs.Refusal.{read_answer, read_refusal, net_refusal, first_of, sections_refusal, node_refusal, wire_refusal, obstacle_refusal};

use crate::Net;
use crate::fields::{node_at, node_count, obstacle_at, obstacle_bytes, obstacle_count, wire_at};
use crate::layout::{MOST_FLAGS, MOST_LAYERS, MOST_NODES, MOST_OBSTACLES, NODE_BYTES, WIRE_BYTES};
use crate::refusal::Refusal;
use crate::sections::{Section, head_and_pairs_refusal, stretch, version};

// Accepted with the count of its nodes, or the first of 2 to 11 and 20 that the file meets.
pub fn read(file: &[u8]) -> Result<usize, Refusal>
    ensures { answered result ≡ read_answer file.now }
{
    let net = net_of(file)?;
    Ok(node_count(net.nodes))
}

// The net of a file, or the first of 2 to 11 and 20.
pub fn net_of(file: &[u8]) -> Result<Net<'_>, Refusal>
    ensures verdict { checked result ≡ read_refusal file.now }
    ensures net { IfOk result (IsNetOf file.now) }
{
    head_and_pairs_refusal(file)?;
    let version = version(file);
    let nodes = stretch(file, Section::Nodes);
    let wires = stretch(file, Section::Wires);
    let obstacles = stretch(file, Section::Obstacles);
    net_refusal(version, nodes, wires, obstacles)?;
    Ok(Net {
        version,
        nodes,
        wires,
        obstacles,
    })
}

// 4 to 11 and 20 on three sections: the sections, then each node, each wire from wire 1 on, each obstacle.
pub fn net_refusal(
    version: u16,
    nodes: &[u8],
    wires: &[u8],
    obstacles: &[u8],
) -> Result<(), Refusal>
    ensures { checked result ≡ net_refusal version nodes.now wires.now obstacles.now }
{
    sections_refusal(version, nodes, wires, obstacles)?;
    nodes_refusal(nodes)?;
    wires_refusal(nodes, wires)?;
    obstacles_refusal(version, obstacles)
}

// Sections: 4, 5, 6.
fn sections_refusal(
    version: u16,
    nodes: &[u8],
    wires: &[u8],
    obstacles: &[u8],
) -> Result<(), Refusal>
    ensures { checked result ≡ sections_refusal version nodes.now wires.now obstacles.now }
{
    let count = node_count(nodes);
    if nodes.len() % NODE_BYTES != 0 || count == 0 || MOST_NODES < count {
        return Err(Refusal::NodeSection);
    }
    if wires.len() != WIRE_BYTES * (count - 1) {
        return Err(Refusal::WireSection);
    }
    let obstacles_count = obstacle_count(version, obstacles);
    if obstacles.len() != obstacle_bytes(version) * obstacles_count
        || MOST_OBSTACLES < obstacles_count
    {
        return Err(Refusal::ObstacleSection);
    }
    Ok(())
}

// The flags of all nodes, joined: no less than those of each.
fn joined_flags(nodes: &[u8]) -> u8
    ensures { (i : ℕ) → i < node_count nodes.now → node_flags nodes.now i ≤ result }
{
    let mut flags = 0;
    for i in 0..node_count(nodes) {
        flags |= node_at(nodes, i).flags;
    }
    flags
}

// Each node: 7. It, wires_refusal and obstacles_refusal are a loop over one test each: one function over a closure would be no shorter in its calls, and take a contract besides.
fn nodes_refusal(nodes: &[u8]) -> Result<(), Refusal>
    ensures { checked result ≡ first_of (node_count nodes.now) (λ i. node_refusal nodes.now i) }
{
    // one test tells that no node is refused, without a branch for each
    if joined_flags(nodes) <= MOST_FLAGS {
        return Ok(());
    }
    for i in 0..node_count(nodes) {
        if MOST_FLAGS < node_at(nodes, i).flags {
            return Err(Refusal::NodeFlags(i));
        }
    }
    Ok(())
}

// Wire i: 8, 9, 10.
fn wire_refusal(nodes: &[u8], wires: &[u8], i: usize) -> Result<(), Refusal>
    requires { (0 < i) × (i < node_count nodes.now) × (wire_bytes * i ≤ length wires.now) }
    ensures { checked result ≡ wire_refusal nodes.now wires.now i }
{
    let wire = wire_at(wires, i);
    if i <= wire.parent {
        return Err(Refusal::WireParent(i));
    }
    if wire.layer == 0 || MOST_LAYERS < wire.layer || wire.factor == 0 {
        return Err(Refusal::WireLayerOrFactor(i));
    }
    let node = node_at(nodes, i);
    let parent = node_at(nodes, wire.parent);
    if node.x != parent.x && node.y != parent.y {
        return Err(Refusal::WireOblique(i));
    }
    Ok(())
}

// Each wire, from wire 1 on.
fn wires_refusal(nodes: &[u8], wires: &[u8]) -> Result<(), Refusal>
    requires { length wires.now ≡ wire_bytes * (node_count nodes.now - 1) }
    ensures { checked result ≡ first_of (node_count nodes.now - 1) (λ i. wire_refusal nodes.now wires.now (i + 1)) }
{
    for i in 1..node_count(nodes) {
        wire_refusal(nodes, wires, i)?;
    }
    Ok(())
}

// Obstacle k: 11, 20.
fn obstacle_refusal(version: u16, obstacles: &[u8], k: usize) -> Result<(), Refusal>
    requires { k < obstacle_count version obstacles.now }
    ensures { checked result ≡ obstacle_refusal version obstacles.now k }
{
    let obstacle = obstacle_at(version, obstacles, k);
    if obstacle.x2 < obstacle.x1 || obstacle.y2 < obstacle.y1 {
        return Err(Refusal::ObstacleCorners(k));
    }
    if obstacle.layer == 0 || MOST_LAYERS < obstacle.layer {
        return Err(Refusal::ObstacleLayer(k));
    }
    Ok(())
}

// Each obstacle.
fn obstacles_refusal(version: u16, obstacles: &[u8]) -> Result<(), Refusal>
    ensures { checked result ≡ first_of (obstacle_count version obstacles.now) (λ k. obstacle_refusal version obstacles.now k) }
{
    for k in 0..obstacle_count(version, obstacles) {
        obstacle_refusal(version, obstacles, k)?;
    }
    Ok(())
}
