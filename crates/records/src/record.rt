// The bytes of one piece record. What `as` makes a byte is proved to fit; `try_from` would add a branch that gives up. `record_bytes ≤ length ..` bounds a write.
// `flags < 4` says that the flags are those of nodes: a type for them would be made at each read of a node and undone at each write, no plainer.
ghost use Rattle.std.specs.Prelude.{◌≡◌, ◌++◌, ◌<◌, ◌≤◌, length, drop};
ghost use Rattle.laws.specs.Place.{place};
ghost use Rattle.net.specs.Layout.{record_bytes, most_nodes};
ghost use Rattle.net.specs.Limits.{wire_weight_bound};
ghost use Rattle.records.specs.Record.{lowest_of, weight_part, head_part, layers_part, fields, with_harm, NodeRecord, joined};

use net::fields::{is_gate, is_source, u16_at, u32_at};

// A piece record before it is written.
#[derive(Clone, Copy)]
pub struct Record {
    pub number: u8,
    pub position: u32,
    pub weight: u64,
    pub flags: u8,
    pub layers: u16,
}

impl Record {
    // Of the piece whose lowest node is node i.
    pub fn of_piece(limit: u32, i: usize, weight: u64, flags: u8, layers: u16) -> Record
        requires { (i < most_nodes) × (flags < 4) }
        ensures { (result.number ≡ i) × (result.position ≡ 0) × (result.weight ≡ weight) × (result.flags ≡ with_harm limit weight flags) × (result.layers ≡ layers) }
    {
        Record {
            number: i as u8,
            position: 0,
            weight,
            flags: with_harm(limit, weight, flags),
            layers,
        }
    }

    // Fills the first twelve bytes of the buffer's remainder.
    pub fn write(self, rest: &mut [u8])
        requires { record_bytes ≤ length rest.old }
        ensures { rest.new ≡ fields self.number self.position self.weight self.flags self.layers ++ drop record_bytes rest.old }
    {
        write_head(rest, self.number, self.position, self.weight, self.flags);
        write_layers(rest, self.layers);
    }
}

// Number, position, weight and flags of the record that begins the remainder, put together first so that they take one store, as do its layers.
fn write_head(rest: &mut [u8], number: u8, position: u32, weight: u64, flags: u8)
    requires { record_bytes ≤ length rest.old }
    ensures { rest.new ≡ place 0 (head_part number position weight flags) rest.old }
{
    let mut head = [number, 0, 0, 0, 0, 0, 0, flags];
    head[1..3].copy_from_slice(&position.to_le_bytes()[..2]);
    head[3..7].copy_from_slice(&weight.to_le_bytes()[..4]);
    rest[..8].copy_from_slice(&head);
}

// Its weight and flags.
fn write_weight(rest: &mut [u8], weight: u64, flags: u8)
    requires { record_bytes ≤ length rest.old }
    ensures { rest.new ≡ place 3 (weight_part weight flags) rest.old }
{
    rest[3..7].copy_from_slice(&weight.to_le_bytes()[..4]);
    rest[7] = flags;
}

// Its layers, how many they are, and the lowest.
fn write_layers(rest: &mut [u8], layers: u16)
    requires { record_bytes ≤ length rest.old }
    ensures { rest.new ≡ place 8 (layers_part layers) rest.old }
{
    let mut tail = [0, 0, layers.count_ones() as u8, lowest_layer(layers)];
    tail[..2].copy_from_slice(&layers.to_le_bytes());
    rest[8..12].copy_from_slice(&tail);
}

// The lowest layer of a mask, or 0 where it is empty, as the byte of a record has it.
fn lowest_layer(layers: u16) -> u8
    ensures { result ≡ lowest_of layers }
{
    if layers == 0 {
        return 0;
    }
    layers.trailing_zeros() as u8 + 1
}

// Bit 2 where a piece is harmful: it has a gate, no source, and weighs more than the limit.
fn with_harm(limit: u32, weight: u64, flags: u8) -> u8
    requires { flags < 4 }
    ensures { result ≡ with_harm limit weight flags }
{
    if is_gate(flags) && !is_source(flags) && u64::from(limit) < weight {
        return flags | 4;
    }
    flags
}

// Joins a weight, a node's flags and layers to the piece with nodes whose record begins the remainder. Layers that the record has already are left as they stand.
pub(crate) fn join_record(rest: &mut [u8], limit: u32, weight: u64, flags: u8, layers: u16)
    requires { (record_bytes ≤ length rest.old) × NodeRecord rest.old × (weight < wire_weight_bound) × (flags < 4) }
    ensures { rest.new ≡ joined limit weight flags layers rest.old ++ drop record_bytes rest.old }
{
    let heavy = u64::from(u32_at(rest, 3)) + weight;
    let flagged = with_harm(limit, heavy, rest[7] & 3 | flags);
    let before = u16_at(rest, 8);
    let layered = before | layers;
    write_weight(rest, heavy, flagged);
    if layered != before {
        write_layers(rest, layered);
    }
}
