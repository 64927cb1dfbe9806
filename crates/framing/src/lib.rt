// The frame, after `FixedHeader`, `parse_fixed_header` and `check` of v5/mod.rs: what a stream's first bytes say before its fields are read.
#![tactic(auto)]

pub mod check;
pub mod header;
