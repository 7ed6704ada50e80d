// Whole numbers for every crate above: definitions and laws over the integers. There is nothing to run here.
#![tactic(auto)]
