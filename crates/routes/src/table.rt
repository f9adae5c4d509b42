// The table of the first nodes: nodes found in it, and a point placed among them.
ghost use Rattle.std.specs.Prelude.{◌≡◌, true, ℕ, ◌+◌, ◌*◌, ◌≤◌, cond, take, length, IsSomeAnd};
ghost use Rattle.net.specs.Layout.{most_nodes};
ghost use Rattle.routes.specs.Nodes.{stands_at, known, known_at, number_on, lowest_at};
ghost use Rattle.routes.specs.Table.{placed};

use crate::{Node, Placed, Route};
use paths::Point;

impl Node {
    // The node stands at x, y, which come from a point or from a pin. Both are compared at once: one after the other, def of 76 nodes took 1.28 of the time before the design pass, and takes 0.97 so.
    #[tactic(auto, unfolding(crate::specs::Nodes::stands_at))]
    fn stands_at(&self, x: u16, y: u16) -> bool
        ensures { result ≡ stands_at x y self.now }
    {
        point_number(self.x, self.y) == point_number(x, y)
    }
}

// x and y as one number.
fn point_number(x: u16, y: u16) -> u32
    ensures { result ≡ x + 65536 * y }
{
    u32::from(x) + 65536 * u32::from(y)
}

impl Route {
    // Its nodes, where the table has them all.
    pub fn found(&self) -> Option<&[Node]>
        ensures none { self.now.count ≡ None → result ≡ None }
        ensures some { (n : ℕ) → self.now.count ≡ Some n → n ≤ most_nodes → IsSomeAnd result (λ x. (x.now ≡ take n self.now.nodes) × (length x.now ≡ n)) }
    {
        self.nodes.get(..self.count?)
    }
}

// A point among the nodes found so far; None where 18 refuses it.
pub fn place_point(nodes: &[Node], last: usize, p: Point) -> Option<Placed>
    ensures { result ≡ placed nodes.now last p }
{
    let on = node_on(nodes, p.x, p.y, p.layer);
    if p.first {
        return place_first(nodes, on, p);
    }
    match on {
        Some(_) => None,
        None => Some(Placed::New {
            parent: last,
            wire: p.layer,
        }),
    }
}

// A path's first point among the nodes found so far; `on` is its number on the path's layer.
fn place_first(nodes: &[Node], on: Option<usize>, p: Point) -> Option<Placed>
    requires { (p.first ≡ true) × (on ≡ cond (known nodes.now p.x p.y p.layer) (Some (number_on nodes.now p.x p.y p.layer)) None) }
    ensures { (last : ℕ) → result ≡ placed nodes.now last p }
{
    let Some(via) = node_at(nodes, p.x, p.y) else {
        // node 0 hangs on none; its parent is no part of a net file, whose wires begin at 1
        if nodes.is_empty() {
            return Some(Placed::New {
                parent: 0,
                wire: p.layer,
            });
        }
        return None;
    };
    match on {
        Some(node) => Some(Placed::Known(node)),
        None => Some(Placed::New {
            parent: via,
            wire: p.layer.max(nodes[via].layer),
        }),
    }
}

// The number of the node at x, y on a layer: of a point, or of a pin, of which no struct is made for one call.
pub fn node_on(nodes: &[Node], x: u16, y: u16, layer: u8) -> Option<usize>
    ensures { result ≡ cond (known nodes.now x y layer) (Some (number_on nodes.now x y layer)) None }
{
    nodes
        .iter()
        .position(|n| n.stands_at(x, y) && n.layer == layer)
}

// The lowest number of a node at x, y.
fn node_at(nodes: &[Node], x: u16, y: u16) -> Option<usize>
    ensures { result ≡ cond (known_at nodes.now x y) (Some (lowest_at nodes.now x y)) None }
{
    nodes.iter().position(|n| n.stands_at(x, y))
}
