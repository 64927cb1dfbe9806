// What C and Rust call to walk: the user properties of a frame one after another, from a position that the caller keeps. The layout of every
// array that is filled is in bindings/c/ecchjulmina.h.
#![tactic(auto)]

pub mod next;
