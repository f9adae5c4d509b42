// The line of a wire: how its points go on from its node.
ghost use Rattle.std.specs.Prelude.{◌≡◌, ℕ, ◌≤◌};
ghost use Rattle.net.specs.Net.{wire_length};
ghost use Rattle.points.specs.Cuttable.{Checked, LastBelow, FirstAbove};
ghost use Rattle.points.specs.Geometry.{heading, stepped, last_below, first_above, Reach};
ghost use Rattle.points.specs.Lines.{line_of, Reaches, point_on, covers};

use net::fields::{Obstacle, node_at, wire_at};
use std::cmp::Ordering;

// A point of the grid.
#[derive(Clone, Copy, Debug, PartialEq, Eq)]
pub(crate) struct Point {
    pub(crate) x: u16,
    pub(crate) y: u16,
}

// A line on one axis: the coordinate where it begins, and its direction, a step of −1, 0 or 1, the form that document 01 names.
#[derive(Clone, Copy, Debug, PartialEq, Eq)]
pub(crate) struct Axis {
    pub(crate) from: u16,
    pub(crate) step: i32,
}

// The line of a wire in its layer.
#[derive(Clone, Copy, Debug, PartialEq, Eq)]
pub struct Line {
    pub(crate) layer: u8,
    pub(crate) x: Axis,
    pub(crate) y: Axis,
}

impl Axis {
    pub(crate) fn toward(from: u16, to: u16) -> Axis
        ensures { result ≡ record { from = from; step = heading from to } }
    {
        let difference = i32::from(to) - i32::from(from);
        Axis {
            from,
            step: difference.signum(),
        }
    }

    // The coordinate t steps on. std has no `From` from u32 to i32 or back to u16; both casts are proved to fit, `try_from` would add a branch that gives up.
    pub(crate) fn at(self, t: u32) -> u16
        requires { Reach self.from self.step t }
        ensures { result ≡ stepped self.from self.step t }
    {
        (i32::from(self.from) + self.step * t as i32) as u16
    }

    // The last position below those whose coordinate is one of low to high. They are two of an obstacle's four numbers; a struct of them would be made for one call.
    pub(crate) fn last_below(self, low: u16, high: u16) -> u32
        ensures { result ≡ last_below self.from self.step low high }
    {
        let past = match self.step.cmp(&0) {
            Ordering::Greater => low.saturating_sub(self.from),
            Ordering::Equal => 0,
            Ordering::Less => self.from.saturating_sub(high),
        };
        u32::from(past.saturating_sub(1))
    }

    // The first position above them, `end` where every coordinate is one of them.
    pub(crate) fn first_above(self, low: u16, high: u16, end: u32) -> u32
        ensures { result ≡ first_above self.from self.step low high end }
    {
        let last = match self.step.cmp(&0) {
            Ordering::Greater => high.saturating_sub(self.from),
            Ordering::Equal => return end,
            Ordering::Less => self.from.saturating_sub(low),
        };
        u32::from(last) + 1
    }
}

impl Line {
    // The line of wire i.
    pub fn of_wire(nodes: &[u8], wires: &[u8], i: usize) -> Line
        requires { Checked nodes.now wires.now i }
        ensures line { result ≡ line_of nodes.now wires.now i }
        ensures reaches { (t : ℕ) → t ≤ wire_length nodes.now wires.now i → Reaches result t }
    {
        let wire = wire_at(wires, i);
        let from = node_at(nodes, i);
        let to = node_at(nodes, wire.parent);
        Line {
            layer: wire.layer,
            x: Axis::toward(from.x, to.x),
            y: Axis::toward(from.y, to.y),
        }
    }

    // The point at position t.
    pub(crate) fn at(self, t: u32) -> Point
        requires { Reaches self t }
        ensures { result ≡ point_on self t }
    {
        Point {
            x: self.x.at(t),
            y: self.y.at(t),
        }
    }

    // The last position below the stretch that an obstacle holds.
    pub(crate) fn last_below(self, o: Obstacle) -> u32
        ensures { LastBelow (λ t. covers o (point_on self t)) result }
    {
        self.x
            .last_below(o.x1, o.x2)
            .max(self.y.last_below(o.y1, o.y2))
    }

    // The first position above it, `end` where the obstacle holds them all.
    pub(crate) fn first_above(self, o: Obstacle, end: u32) -> u32
        requires { Reaches self end }
        ensures { FirstAbove (λ t. covers o (point_on self t)) end result }
    {
        self.x
            .first_above(o.x1, o.x2, end)
            .min(self.y.first_above(o.y1, o.y2, end))
    }
}
