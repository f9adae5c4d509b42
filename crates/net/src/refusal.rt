// The refusals of documents 01 and 02, each with its number and its place; what a call answers to C is made of them.
ghost use Rattle.std.specs.Prelude.{◌≡◌};
ghost use Rattle.net.specs.Numbers.{number_of, place_of, answered};

use crate::Answer;

// No Display: the programs print number and place, and a text would have no reader.
// Where a record is to blame, its number stands inside; for LentBuffer it is the number of bytes needed, for RouteForm and RoutePoint a place in the text.
#[derive(Clone, Copy, Debug, PartialEq, Eq)]
pub enum Refusal {
    StageOutside,
    Head,
    Pairs,
    NodeSection,
    WireSection,
    ObstacleSection,
    NodeFlags(usize),
    WireParent(usize),
    WireLayerOrFactor(usize),
    WireOblique(usize),
    ObstacleCorners(usize),
    ListOrder(usize),
    JumperOutside(usize),
    JumperBarred(usize),
    NoLegalSet,
    LentBuffer(usize),
    RouteForm(usize),
    RoutePoint(usize),
    Pin(usize),
    ObstacleLayer(usize),
}

impl Refusal {
    // 1 to 20, as the documents number them.
    pub fn number(self) -> u32
        ensures { result ≡ number_of self }
    {
        match self {
            Refusal::StageOutside => 1,
            Refusal::Head => 2,
            Refusal::Pairs => 3,
            Refusal::NodeSection => 4,
            Refusal::WireSection => 5,
            Refusal::ObstacleSection => 6,
            Refusal::NodeFlags(_) => 7,
            Refusal::WireParent(_) => 8,
            Refusal::WireLayerOrFactor(_) => 9,
            Refusal::WireOblique(_) => 10,
            Refusal::ObstacleCorners(_) => 11,
            Refusal::ListOrder(_) => 12,
            Refusal::JumperOutside(_) => 13,
            Refusal::JumperBarred(_) => 14,
            Refusal::NoLegalSet => 15,
            Refusal::LentBuffer(_) => 16,
            Refusal::RouteForm(_) => 17,
            Refusal::RoutePoint(_) => 18,
            Refusal::Pin(_) => 19,
            Refusal::ObstacleLayer(_) => 20,
        }
    }

    // The record, the bytes needed or the place in the text; else 0. `as`: std has no From of usize to u64, and try_from would add a branch that gives up.
    pub fn place(self) -> u64
        ensures { result ≡ place_of self }
    {
        match self {
            Refusal::NodeFlags(i)
            | Refusal::WireParent(i)
            | Refusal::WireLayerOrFactor(i)
            | Refusal::WireOblique(i)
            | Refusal::ObstacleCorners(i)
            | Refusal::ListOrder(i)
            | Refusal::JumperOutside(i)
            | Refusal::JumperBarred(i)
            | Refusal::LentBuffer(i)
            | Refusal::RouteForm(i)
            | Refusal::RoutePoint(i)
            | Refusal::Pin(i)
            | Refusal::ObstacleLayer(i) => i as u64,
            Refusal::StageOutside
            | Refusal::Head
            | Refusal::Pairs
            | Refusal::NodeSection
            | Refusal::WireSection
            | Refusal::ObstacleSection
            | Refusal::NoLegalSet => 0,
        }
    }
}

impl From<Result<usize, Refusal>> for Answer {
    ghost from_gives = { λ r a. a ≡ answered r };

    fn from(r: Result<usize, Refusal>) -> Answer {
        match r {
            Ok(count) => Answer {
                // the C interface: 0 is done
                number: 0,
                place: 0,
                // std has no From of usize to u64
                count: count as u64,
            },
            Err(refusal) => Answer {
                number: refusal.number(),
                place: refusal.place(),
                count: 0,
            },
        }
    }
}
