// The head of a packet to write, from the numbers that C hands over. bindings/c/ecchjulmina.h has the words.
#![tactic(auto)]

pub mod absent;
pub mod ack_by;
pub mod publish_by;
pub mod reply_by;
pub mod subscribe_by;
pub mod unsubscribe_by;
