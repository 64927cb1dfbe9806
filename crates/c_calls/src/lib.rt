// What C hands over behind a head, sized and written: 20 for a number whose flag is off, 11 for a QoS that is none, then as the writer of the kind.
#![tactic(auto)]

pub mod first;
pub mod size;
pub mod write;
