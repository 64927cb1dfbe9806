// What the numbers that C hands over stand for: flags, limits, kinds, and ends. bindings/c/ecchjulmina.h has the words.
#![tactic(auto)]

pub mod kind;
pub mod number;
pub mod up_to;
