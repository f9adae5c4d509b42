// The points of a wire, and the obstacles that bar them. The search sees obstacles already grown by the clearance, in the form of the newest version.
// Of a wire the public functions take the sections and its number, and require that it is checked: a `Net`, whose obstacles are right too, would ask more of
// their callers. `is_barred` takes the wire's line, which serves all its points, and answers for every version, which the C interface gives as a number.
// `k < obstacle_count ..` bounds a read in place, and `Reaches line t` is about a position, not about the line.
#![tactic(auto)]

ghost use Rattle.std.specs.Prelude.{◌≡◌, ◌&&◌, ◌<◌, ◌≤◌, false, leb, MatchOption};
ghost use Rattle.net.specs.Layout.{newest};
ghost use Rattle.net.specs.Limits.{length_bound};
ghost use Rattle.net.specs.Net.{wire_length, obstacle_count, near, barred};
ghost use Rattle.points.specs.Cuttable.{Checked, Highest, Lowest};
ghost use Rattle.points.specs.Lines.{Reaches, covers, barred_at, BarredBy};

mod line;

pub use crate::line::Line;
use crate::line::Point;
use net::fields::{
    Obstacle, node_at, obstacle_at, obstacle_bytes, obstacle_count, u16_at, wire_at,
};
use net::layout::NEWEST_VERSION;

// The length of wire i.
pub fn length_of(nodes: &[u8], wires: &[u8], i: usize) -> u32
    requires { Checked nodes.now wires.now i }
    ensures { (result ≡ wire_length nodes.now wires.now i) × (result < length_bound) }
{
    let from = node_at(nodes, i);
    let to = node_at(nodes, wire_at(wires, i).parent);
    u32::from(from.x.abs_diff(to.x)) + u32::from(from.y.abs_diff(to.y))
}

// Position t of a line is barred under a clearance, by obstacles of any version.
pub fn is_barred(version: u16, clearance: u16, obstacles: &[u8], line: Line, t: u32) -> bool
    requires { Reaches line t }
    ensures { result ≡ barred_at version clearance obstacles.now line t }
{
    if obstacles.is_empty() {
        return false;
    }
    let p = line.at(t);
    for k in 0..obstacle_count(version, obstacles) {
        if is_near(version, clearance, obstacles, k, p)
            && line.layer <= obstacle_at(version, obstacles, k).layer
        {
            return true;
        }
    }
    false
}

// The point p lies at most a clearance outside obstacle k in x, and at most that far outside in y. One coordinate is read after another, since most obstacles are
// passed at their first; `bars` has the whole obstacle, which the searches need where it bars. Tried as one, to the time before the design pass: by whole
// obstacles a report of 8,000 jumpers under 256 obstacles took 1.52, and takes 1.01 so; by coordinates repair of a chain of 256 nodes without obstacles took 1.27,
// and takes 0.98 so. Of a point x + c and y + c are kept, and not x and y too: at clearance 0 a report of 20,000 jumpers on 256 nodes takes 1.05 of the time
// before the clearance came, and took 1.11 with the sums of the definition.
fn is_near(version: u16, clearance: u16, obstacles: &[u8], k: usize, p: Point) -> bool
    requires { k < obstacle_count version obstacles.now }
    ensures { result ≡ near version clearance obstacles.now k p.x p.y }
{
    let at = obstacle_bytes(version) * k;
    let clearance = u32::from(clearance);
    let (x, y) = (u32::from(p.x) + clearance, u32::from(p.y) + clearance);
    u32::from(u16_at(obstacles, at)) <= x
        && x <= u32::from(u16_at(obstacles, at + 4)) + 2 * clearance
        && u32::from(u16_at(obstacles, at + 2)) <= y
        && y <= u32::from(u16_at(obstacles, at + 6)) + 2 * clearance
}

// The highest position of wire i from 1 to x that is not barred.
pub fn highest_cuttable(
    nodes: &[u8],
    wires: &[u8],
    obstacles: &[u8],
    i: usize,
    x: u32,
) -> Option<u32>
    requires { Checked nodes.now wires.now i × (x ≤ wire_length nodes.now wires.now i) }
    ensures { Highest (barred newest 0 nodes.now wires.now obstacles.now i) x result }
{
    highest_free(obstacles, Line::of_wire(nodes, wires, i), x)
}

// The lowest position of wire i from x on and below its length that is not barred.
pub fn lowest_cuttable(
    nodes: &[u8],
    wires: &[u8],
    obstacles: &[u8],
    i: usize,
    x: u32,
) -> Option<u32>
    requires { Checked nodes.now wires.now i × (0 < x) }
    ensures { Lowest (barred newest 0 nodes.now wires.now obstacles.now i) x (wire_length nodes.now wires.now i) result }
{
    let end = length_of(nodes, wires, i);
    lowest_free(obstacles, Line::of_wire(nodes, wires, i), x, end)
}

// The search down a line. An obstacle that bars a position is left behind in one step, where a `for` would try its positions one by one.
fn highest_free(obstacles: &[u8], line: Line, last: u32) -> Option<u32>
    requires { Reaches line last }
    ensures { Highest (barred_at newest 0 obstacles.now line) last result }
{
    let mut t = last;
    while 0 < t {
        match first_barring(obstacles, line, t) {
            Some(obstacle) => t = line.last_below(obstacle),
            None => return Some(t),
        }
    }
    None
}

// The search up, by steps like those down, for positions below `end`; with a direction as a parameter both searches would take each comparison twice.
fn lowest_free(obstacles: &[u8], line: Line, first: u32, end: u32) -> Option<u32>
    requires { Reaches line end × (0 < first) }
    ensures { Lowest (barred_at newest 0 obstacles.now line) first end result }
{
    let mut t = first;
    while t < end {
        match first_barring(obstacles, line, t) {
            Some(obstacle) => t = line.first_above(obstacle, end),
            None => return Some(t),
        }
    }
    None
}

// The first obstacle that bars position t of a line.
fn first_barring(obstacles: &[u8], line: Line, t: u32) -> Option<Obstacle>
    requires { Reaches line t }
    ensures { MatchOption result (barred_at newest 0 obstacles.now line t ≡ false) (BarredBy obstacles.now line t) }
{
    let p = line.at(t);
    for k in 0..obstacle_count(NEWEST_VERSION, obstacles) {
        let obstacle = obstacle_at(NEWEST_VERSION, obstacles, k);
        if bars(obstacle, line.layer, p) {
            return Some(obstacle);
        }
    }
    None
}

// The obstacle bars the point p to a wire of a layer: it holds it, and the layer is at most its own.
fn bars(o: Obstacle, layer: u8, p: Point) -> bool
    ensures { result ≡ (covers o p && leb layer o.layer) }
{
    holds(o, p) && layer <= o.layer
}

// The obstacle holds the point p, its border included.
fn holds(o: Obstacle, p: Point) -> bool
    ensures { result ≡ covers o p }
{
    (o.x1..=o.x2).contains(&p.x) && (o.y1..=o.y2).contains(&p.y)
}
