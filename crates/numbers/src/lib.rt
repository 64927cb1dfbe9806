// Numbers of a fixed width, after the helpers of v5/mod.rs, read at an index of a slice.
#![tactic(auto)]

pub mod fixed;
