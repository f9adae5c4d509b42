// Obstacles of every version in one form, that of the newest version, grown by the clearance of the call: what every pass of repair behind the refusals sees.
#![tactic(auto)]

ghost use Rattle.std.specs.Prelude.{◌≡◌, ◌&&◌, ◌||◌, ◌*◌, ◌<◌, ◌≤◌, length, eqb};
ghost use Rattle.laws.specs.Lists.{over};
ghost use Rattle.net.specs.Layout.{newest, obstacle_bytes};
ghost use Rattle.net.specs.Net.{obstacle_count};
ghost use Rattle.obstacles.specs.Prepared.{grown, obstacle_record, prepared};

use net::fields::{Obstacle, obstacle_at, obstacle_count};
use net::layout::{MOST_OBSTACLES, NEWEST_VERSION, OBSTACLE_BYTES};

// The most bytes that obstacles take in that form.
pub const PREPARED_BYTES: usize = OBSTACLE_BYTES * MOST_OBSTACLES;

// They have that form as they are: their version is the newest and the clearance 0, or there are none.
pub fn is_prepared(version: u16, clearance: u16, obstacles: &[u8]) -> bool
    ensures { result ≡ ((eqb version newest && eqb clearance 0) || eqb (length obstacles.now) 0) }
{
    (version == NEWEST_VERSION && clearance == 0) || obstacles.is_empty()
}

// Writes the obstacles of a version at the start of out, grown by a clearance, in the form of the newest version; the bytes that they take there.
pub fn prepare(version: u16, clearance: u16, obstacles: &[u8], out: &mut [u8]) -> usize
    requires { obstacle_bytes newest * obstacle_count version obstacles.now ≤ length out.old }
    ensures { (result ≡ obstacle_bytes newest * obstacle_count version obstacles.now) × (out.new ≡ over (prepared version clearance obstacles.now) out.old) }
{
    let count = obstacle_count(version, obstacles);
    for k in 0..count {
        let obstacle = grown(obstacle_at(version, obstacles, k), clearance);
        write_obstacle(obstacle, &mut out[OBSTACLE_BYTES * k..]);
    }
    OBSTACLE_BYTES * count
}

// The obstacle with each side moved out by a clearance, as far as coordinates go: it holds the points that lie so near the obstacle.
fn grown(o: Obstacle, clearance: u16) -> Obstacle
    ensures { result ≡ grown o clearance }
{
    Obstacle {
        x1: o.x1.saturating_sub(clearance),
        y1: o.y1.saturating_sub(clearance),
        x2: o.x2.saturating_add(clearance),
        y2: o.y2.saturating_add(clearance),
        layer: o.layer,
    }
}

// The obstacle in the form of the newest version.
fn write_obstacle(o: Obstacle, out: &mut [u8])
    requires { obstacle_bytes newest ≤ length out.old }
    ensures { out.new ≡ over (obstacle_record o) out.old }
{
    out[..2].copy_from_slice(&o.x1.to_le_bytes());
    out[2..4].copy_from_slice(&o.y1.to_le_bytes());
    out[4..6].copy_from_slice(&o.x2.to_le_bytes());
    out[6..8].copy_from_slice(&o.y2.to_le_bytes());
    out[8] = o.layer;
}
