// The properties of a packet, after the loops of `read` in subscribe.rs, puback.rs and their like: one block reader for every row; that
// of a Publish is in `publish`.
#![tactic(auto)]

pub mod block;
pub mod row_block;
