// The piece report: what the call tries in order, then the records of all pieces of an accepted net with an accepted jumper list.
#![tactic(auto)]

pub mod count;
pub mod report;
