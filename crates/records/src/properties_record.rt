// The properties of every packet but a Publish, after the property structs of puback.rs, subscribe.rs and their like: one struct for all
// places. What the row of a place does not have is absent there.
use crate::span::Span;

#[derive(Clone, Copy)]
pub struct Properties {
    pub reason_string: Option<Span>,
    pub id: Option<u32>,
    // where the properties stand: the user properties are read there
    pub block: Span,
}
