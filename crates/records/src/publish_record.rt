// A Publish as read, after publish.rs.
use crate::qos::QoS;
use crate::span::Span;

#[derive(Clone, Copy)]
pub struct Publish {
    pub dup: bool,
    pub qos: QoS,
    pub retain: bool,
    pub topic: Span,
    // 0 where QoS is 0
    pub pkid: u16,
    pub payload: Span,
    pub properties: Option<PublishProperties>,
}

#[derive(Clone, Copy)]
pub struct PublishProperties {
    pub payload_format_indicator: Option<u8>,
    pub message_expiry_interval: Option<u32>,
    pub topic_alias: Option<u16>,
    pub response_topic: Option<Span>,
    pub correlation_data: Option<Span>,
    pub content_type: Option<Span>,
    // where the properties stand: the user properties and the subscription identifiers are read there
    pub block: Span,
}
