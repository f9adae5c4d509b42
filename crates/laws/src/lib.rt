// Mathematics alone: see specs/.
#![tactic(auto)]
