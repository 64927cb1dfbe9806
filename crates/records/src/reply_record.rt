// A SubAck or UnsubAck as read, after suback.rs and unsuback.rs.
use crate::properties_record::Properties;
use crate::span::Span;

#[derive(Clone, Copy)]
pub enum ReplyKind {
    SubAck,
    UnsubAck,
}

#[derive(Clone, Copy)]
pub struct Reply {
    pub pkid: u16,
    // where the reasons stand, a byte each
    pub reasons: Span,
    pub properties: Option<Properties>,
}
