// Strings of the codec, after the helpers of v5/mod.rs: what stands at an index or a place of a slice.
#![tactic(auto)]

pub mod string;
