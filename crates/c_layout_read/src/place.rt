// The numbers of a record by name.
use records::span::{Bounds, Span};

// A number that may be absent: 0 and 0, or 1 and the number.
#[derive(Clone, Copy)]
pub struct Number {
    pub on: u64,
    pub value: u64,
}

// A place that may be absent: 0, 0 and 0, or 1 and the place.
#[derive(Clone, Copy)]
pub struct Text {
    pub on: u64,
    pub start: u64,
    pub len: u64,
}

// The numbers of every kind and of a refusal.
#[derive(Clone, Copy)]
pub struct Head {
    pub taken: u64,
    pub first: u64,
    pub second: u64,
    pub kind: u64,
    pub pkid: u64,
    pub dup: u64,
    pub qos: u64,
    pub retain: u64,
    pub reason: u64,
    pub topic: Span,
    pub payload: Span,
    pub filters: Span,
    pub reasons: Span,
    pub topics: Span,
    pub properties: Bounds,
}

// The properties of every kind.
#[derive(Clone, Copy)]
pub struct Block {
    pub place: Text,
    pub format: Number,
    pub expiry: Number,
    pub alias: Number,
    pub response: Text,
    pub correlation: Text,
    pub content: Text,
    pub reason: Text,
    pub subscription: Number,
}
