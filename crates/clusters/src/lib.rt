// The first passes of repair: the points of each wire that may be cut, the clusters that no cut parts, and whether one of them is hopeless.
#![tactic(auto)]

pub mod by_slices;
pub mod cuttable;
pub mod first_passes;
pub mod gates;
pub mod hopeless;
mod marks;
pub mod roots;
pub mod stretch;
pub mod weights;
pub mod work;
