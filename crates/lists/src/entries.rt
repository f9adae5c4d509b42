// The entries of a jumper list, read in place.
ghost use Rattle.std.specs.Prelude.{◌≡◌, ◌<◌};
ghost use Rattle.pieces.specs.Legal.{entry_wire, entry_position};
ghost use Rattle.pieces.specs.JumperList.{entry_count};

use net::fields::u16_at;
use net::layout::ENTRY_BYTES;

pub fn entry_count(list: &[u8]) -> usize
    ensures { result ≡ entry_count list.now }
{
    list.len() / ENTRY_BYTES
}

pub fn entry_wire(list: &[u8], e: usize) -> usize
    requires { e < entry_count list.now }
    ensures { result ≡ entry_wire list.now e }
{
    usize::from(list[ENTRY_BYTES * e])
}

pub fn entry_position(list: &[u8], e: usize) -> u32
    requires { e < entry_count list.now }
    ensures { result ≡ entry_position list.now e }
{
    u32::from(u16_at(list, ENTRY_BYTES * e + 1))
}
