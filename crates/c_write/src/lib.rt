// What C and Rust call to write: each kind's size, and its bytes, as exported functions over numbers and slices. What is stored of an answer
// is in bindings/c/ecchjulmina.h. The functions of a kind stand side by side, each with its list of parameters, since C calls them so; what they
// share is one function over the kind (put_ack, put_reply).
#![tactic(auto)]

pub mod put_ack;
pub mod put_ping;
pub mod put_publish;
pub mod put_reply;
pub mod put_subscribe;
pub mod put_unsubscribe;
