// What C and Rust call to read: a packet, parts, items and names as exported functions over numbers and slices. The layout of every array
// that is filled is in bindings/c/ecchjulmina.h.
#![tactic(auto)]

pub mod item;
pub mod name;
pub mod next;
pub mod read;
