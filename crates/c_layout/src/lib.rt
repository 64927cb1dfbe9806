// What C is handed: numbers stored into its arrays, a refusal's values, and the answer to a size or a write (bindings/c/ecchjulmina.h).
#![tactic(auto)]

pub mod answer;
pub mod store;
pub mod value;
