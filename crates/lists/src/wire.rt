// The entries of one wire in an accepted list, found by doubling steps. The library's searches take a slice of items, where the entries are three bytes each in a slice of bytes.
ghost use Rattle.std.specs.Prelude.{◌≡◌, true, false, ℕ, ◌+◌, ◌*◌, ◌/◌, ◌<◌, ◌≤◌};
ghost use Rattle.pieces.specs.Legal.{entry_wire};
ghost use Rattle.pieces.specs.JumperList.{entry_count};

use crate::entries::{entry_count, entry_wire};

// There is an entry e, and it is one of wire i.
fn is_of_wire(jumpers: &[u8], i: usize, e: usize) -> bool
    ensures { (result ≡ true → (e < entry_count jumpers.now) × (entry_wire jumpers.now e ≡ i))
        × (result ≡ false → e < entry_count jumpers.now → entry_wire jumpers.now e ≡ i → ⊥) }
{
    e < entry_count(jumpers) && entry_wire(jumpers, e) == i
}

// A step from entry e, which is one of wire i, that leads to none of wire i, found by doubling: half of it leads to one.
fn doubled_step(jumpers: &[u8], i: usize, e: usize) -> usize
    requires { (e < entry_count jumpers.now) × (entry_wire jumpers.now e ≡ i) }
    ensures { (1 ≤ result) × (e + result ≤ 2 * entry_count jumpers.now)
        × (e + result / 2 < entry_count jumpers.now) × (entry_wire jumpers.now (e + result / 2) ≡ i)
        × (e + result < entry_count jumpers.now → entry_wire jumpers.now (e + result) ≡ i → ⊥) }
{
    let mut step = 1;
    // the step doubles: no range has it
    while is_of_wire(jumpers, i, e + step) {
        step = 2 * step;
    }
    step
}

// Where the entries of wire i that begin at entry e end, by steps that double and then halve: from e on they come before those of other wires.
pub fn entries_end(jumpers: &[u8], i: usize, e: usize) -> usize
    requires e_bound { e ≤ entry_count jumpers.now }
    requires by_index { (d f : ℕ) → e ≤ d → d ≤ f → f < entry_count jumpers.now → entry_wire jumpers.now f ≡ i → entry_wire jumpers.now d ≡ i }
    ensures { (e ≤ result) × (result ≤ entry_count jumpers.now)
        × ((d : ℕ) → e ≤ d → d < result → entry_wire jumpers.now d ≡ i)
        × (result < entry_count jumpers.now → entry_wire jumpers.now result ≡ i → ⊥) }
{
    if !is_of_wire(jumpers, i, e) {
        return e;
    }
    let mut step = doubled_step(jumpers, i, e);
    let mut end = e + step / 2 + 1;
    step = (step - 1) / 2;
    // the step halves
    while 0 < step {
        step = step / 2;
        if is_of_wire(jumpers, i, end + step) {
            end += step + 1;
        }
    }
    end
}
