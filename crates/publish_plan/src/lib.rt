// What is found of a Publish before a byte is put, touching nothing (01, writing order): what belongs together, R and L, and the tests in
// order.
#![tactic(auto)]

pub mod belong;
pub mod head;
pub mod sizes;
pub mod test;
