// The handover board: which valves and temporary calibrations were opened and are not yet closed, in a lent table of 32 places.
#![tactic(auto)]

pub mod entries;
pub mod listing;
pub mod numbers;
pub mod orders;
pub mod survey;
pub mod table;
