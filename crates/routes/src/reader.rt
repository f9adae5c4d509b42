// The reader: the text and its place in it. Its methods are thin, as document 01 names the form; the work is done on the slice and the place.
ghost use Rattle.std.specs.Prelude.{◌≡◌};
ghost use Rattle.paths.specs.Again.{first_read};
ghost use Rattle.routes.specs.Table.{RouteRead};

use crate::Route;
use crate::reading::read_route;
use net::refusal::Refusal;
use paths::first_read;

#[derive(Clone, Copy)]
pub struct Reader<'a> {
    pub text: &'a [u8],
    pub place: usize,
}

impl<'a> Reader<'a> {
    // The route from the reader's place on.
    pub fn route(self) -> Result<Route, Refusal>
        ensures { RouteRead self.entry.text.now self.entry.place result }
    {
        read_route(self.text, self.place)
    }

    // Reads again from the reader's place on: which of the first `points` points is the first at x, y on the layer. They are a pin's, of which no struct is made for one call.
    pub fn again(self, points: usize, x: u16, y: u16, layer: u8) -> Option<usize>
        ensures { result ≡ first_read self.entry.text.now self.entry.place points x y layer layer }
    {
        first_read(self.text, self.place, points, x, y, layer, layer)
    }
}
