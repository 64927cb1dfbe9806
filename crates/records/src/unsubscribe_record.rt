// An Unsubscribe as read, after unsubscribe.rs.
use crate::properties_record::Properties;
use crate::span::Span;

#[derive(Clone, Copy)]
pub struct Unsubscribe {
    pub pkid: u16,
    // where the topics stand
    pub topics: Span,
    pub properties: Option<Properties>,
}
