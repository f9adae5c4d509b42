// The points of a net's routing in a DEF text, read one after another, and read again.
// Each function takes the text and a place in it: document 01 names the form, functions on slice and index below a thin reader (routes).
#![tactic(auto)]

ghost use Rattle.std.specs.Prelude.{◌≡◌, ◌≤◌, true, false, length, MatchResult};
ghost use Rattle.words.specs.Words.{word_from, same};
ghost use Rattle.paths.specs.Form.{word_at, after, coordinate, point_from, path_from, behind, beginning, start};
ghost use Rattle.paths.specs.Again.{stands_within, first_read};

use words::{Word, word_from};

// A point of a path: the byte of its `(`, the path's layer, whether it is the path's first, and its coordinates. No enum of first and later points: both have all values, and are read alike.
#[derive(Clone, Copy)]
pub struct Point {
    pub at: usize,
    pub layer: u8,
    pub first: bool,
    pub x: u16,
    pub y: u16,
}

// What stands at a place: the end with the place after `;`, or a whole point with the place after its `)`.
#[derive(Clone, Copy)]
pub enum Read {
    End(usize),
    Whole(Point, usize),
}

// The text leaves the form: the first byte of the word that does, or the text's length where it ends early.
#[derive(Clone, Copy, Debug, PartialEq, Eq)]
pub struct Wrong(pub usize);

// A place past the text counts as its end.
#[tactic(auto, unfolding(crate::specs::Form::start))]
pub fn start_of(text: &[u8], place: usize) -> usize
    ensures { (result ≡ start text.now place) × (result ≤ length text.now) }
{
    place.min(text.len())
}

// `+ ROUTED` and the first path's first point. It, next_point and point_from are put into their callers, so that a point is not copied: as calls, they made def of 2 nodes take 1.13 of the time before the design pass.
#[inline(always)]
#[tactic(auto, unfolding(crate::specs::Form::beginning))]
pub fn begin(text: &[u8], place: usize) -> Result<Read, Wrong>
    ensures { result ≡ beginning text.now place }
{
    let sign = word_spelled(text, place, b"+")?;
    let routed = word_spelled(text, sign.next, b"ROUTED")?;
    path_from(text, routed.next)
}

// What stands behind a point.
#[inline(always)]
#[tactic(auto, unfolding(crate::specs::Form::behind))]
pub fn next_point(text: &[u8], place: usize, p: Point) -> Result<Read, Wrong>
    ensures { result ≡ behind text.now place p }
{
    if !p.first {
        let word = word_from(text, place);
        if word.spells(b";") {
            return Ok(Read::End(word.next));
        }
        if word.spells(b"NEW") {
            return path_from(text, word.next);
        }
    }
    point_from(text, place, p.layer, Some(p))
}

// A path's layer and its first point.
#[tactic(auto, unfolding(crate::specs::Form::path_from))]
fn path_from(text: &[u8], place: usize) -> Result<Read, Wrong>
    ensures { result ≡ path_from text.now place }
{
    let word = word_from(text, place);
    let layer = word.layer().ok_or(Wrong(word.at))?;
    point_from(text, word.next, layer, None)
}

// A point `( x y )`: the path's first, or behind another.
#[inline(always)]
#[tactic(auto, unfolding(crate::specs::Form::point_from))]
fn point_from(text: &[u8], place: usize, layer: u8, before: Option<Point>) -> Result<Read, Wrong>
    ensures { result ≡ point_from text.now place layer before }
{
    let open = word_spelled(text, place, b"(")?;
    let x_word = word_from(text, open.next);
    let x = coordinate_of(x_word, before.map(|p| p.x)).ok_or(Wrong(x_word.at))?;
    let y_word = word_from(text, x_word.next);
    let y = coordinate_of(y_word, before.map(|p| p.y)).ok_or(Wrong(y_word.at))?;
    let close = word_spelled(text, y_word.next, b")")?;
    let point = Point {
        at: open.at,
        layer,
        first: before.is_none(),
        x,
        y,
    };
    Ok(Read::Whole(point, close.next))
}

// A coordinate: a number, or `*` for that of the point before.
#[tactic(auto, unfolding(crate::specs::Form::coordinate))]
fn coordinate_of(word: Word, before: Option<u16>) -> Option<u16>
    ensures { result ≡ coordinate before word.entry.bytes.now }
{
    if word.spells(b"*") {
        return before;
    }
    word.number()
}

// The first word from a place on, which has to have these bytes.
fn word_spelled<'a>(text: &'a [u8], place: usize, bytes: &[u8]) -> Result<Word<'a>, Wrong>
    ensures { MatchResult result (λ w. (same (word_at text.now place) bytes.now ≡ true) × (w.at ≡ (word_from text.now place).at) × (w.next ≡ after text.now place)) (λ e. (same (word_at text.now place) bytes.now ≡ false) × (e.0 ≡ (word_from text.now place).at)) }
{
    let word = word_from(text, place);
    if !word.spells(bytes) {
        return Err(Wrong(word.at));
    }
    Ok(word)
}

// Reads the text again: which of its first `points` points is the first that stands at x, y in a path of a layer from low to high. x, y, low and high are no struct: each call takes them from a point, a pin or constants.
pub fn first_read(
    text: &[u8],
    place: usize,
    points: usize,
    x: u16,
    y: u16,
    low: u8,
    high: u8,
) -> Option<usize>
    ensures { result ≡ first_read text.now place points x y low high }
{
    let mut read = begin(text, start_of(text, place)).ok()?;
    for k in 0..points {
        let Read::Whole(p, next) = read else {
            return None;
        };
        if stands(p, x, y, low, high) {
            return Some(k);
        }
        read = next_point(text, next, p).ok()?;
    }
    None
}

// The point stands at x, y in a path of a layer from low to high.
#[tactic(auto, unfolding(crate::specs::Again::stands_within))]
fn stands(p: Point, x: u16, y: u16, low: u8, high: u8) -> bool
    ensures { result ≡ stands_within x y low high p }
{
    p.x == x && p.y == y && low <= p.layer && p.layer <= high
}
