// Numbers of a fixed width as they are written, after the helpers of v5/mod.rs, put at an index of an output. A put has no refusal, for
// callers that have tested. `specs` says what a leaf writes that tests for itself, a length or a string.
#![tactic(auto)]

pub mod fixed;
