// The route read point by point: 17, 18 and its nodes. Functions on the text and a place in it: document 01 names the form.
ghost use Rattle.std.specs.Prelude.{◌≡◌, cond, List, ◌∷◌, is_some, is_none, length};
ghost use Rattle.paths.specs.Again.{first_read};
ghost use Rattle.paths.specs.Form.{points_of};
ghost use Rattle.routes.specs.Reached.{Reached, Took};
ghost use Rattle.routes.specs.Table.{RouteRead};

use crate::table::place_point;
use crate::{Found, Node, Placed, Route};
use net::layout::MOST_NODES;
use net::refusal::Refusal;
use paths::{Point, Read, begin, first_read, next_point, start_of};

// Reads the route from a place on.
pub fn read_route(text: &[u8], place: usize) -> Result<Route, Refusal>
    ensures { RouteRead text.now place result }
{
    let mut nodes = [Node::default(); MOST_NODES];
    // no node is the last yet, and none is asked for: the first point is a path's first, which hangs on no node before it
    let mut found = Some(Found { count: 0, last: 0 });
    let mut points = 0;
    let mut read = begin(text, start_of(text, place)).map_err(|w| Refusal::RouteForm(w.0))?;
    // until the text ends or leaves the form: no index
    loop {
        match read {
            Read::End(end) => {
                return Ok(Route {
                    end,
                    points,
                    count: found.map(|f| f.count),
                    nodes,
                });
            }
            Read::Whole(p, next) => {
                found = take_point(text, place, points, &mut nodes, found, p)?;
                points += 1;
                read = next_point(text, next, p).map_err(|w| Refusal::RouteForm(w.0))?;
            }
        }
    }
}

// Takes one point: judged by 18, and its node put into the table where it is new and there is room.
fn take_point(
    text: &[u8],
    place: usize,
    points: usize,
    nodes: &mut [Node],
    found: Option<Found>,
    p: Point,
) -> Result<Option<Found>, Refusal>
    requires { (length nodes.old ≡ 256) × ((rest : List Point) × Reached (points_of text.now place) (p ∷ rest) points found nodes.old) }
    ensures { (rest : List Point) → Reached (points_of text.now place) (p ∷ rest) points found nodes.old → Took (points_of text.now place) rest points p result nodes.new }
{
    let refused = Refusal::RoutePoint(p.at);
    let Some(f) = found else {
        if is_refused(text, place, points, p) {
            return Err(refused);
        }
        return Ok(None);
    };
    let count = f.count;
    match place_point(&nodes[..count], f.last, p).ok_or(refused)? {
        Placed::Known(node) => Ok(Some(Found { count, last: node })),
        Placed::New { parent, wire } => {
            if count == MOST_NODES {
                return Ok(None);
            }
            nodes[count] = Node {
                x: p.x,
                y: p.y,
                layer: p.layer,
                // below 256, as is proved; try_from would add a branch that gives up
                parent: parent as u8,
                wire,
            };
            Ok(Some(Found {
                count: count + 1,
                last: count,
            }))
        }
    }
}

// 18 on a point past the table, by reading the text again.
fn is_refused(text: &[u8], place: usize, points: usize, p: Point) -> bool
    ensures { result ≡ cond p.first (is_none (first_read text.now place points p.x p.y 0 255)) (is_some (first_read text.now place points p.x p.y p.layer p.layer)) }
{
    if p.first {
        return first_read(text, place, points, p.x, p.y, 0, 255).is_none();
    }
    first_read(text, place, points, p.x, p.y, p.layer, p.layer).is_some()
}
