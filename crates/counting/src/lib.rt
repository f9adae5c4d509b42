// The pass down of repair: the fewest points, and the weight that they leave.
#![tactic(auto)]

pub mod by_slices;
mod climb;
mod close;
pub mod count;
pub mod work;
