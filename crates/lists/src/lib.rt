// Jumper lists: their entries, 12 to 14 on a list, the entries of a wire.
#![tactic(auto)]

// `requires { e < entry_count .. }` bounds a read in place.
pub mod check;
pub mod entries;
pub mod wire;
