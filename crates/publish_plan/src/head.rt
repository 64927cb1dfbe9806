// What is handed over of a Publish by value, after `Publish` and `PublishProperties` of publish.rs; strings and lists are lent beside it.
use records::qos::QoS;

#[derive(Clone, Copy)]
pub struct PublishHead {
    pub dup: bool,
    pub qos: QoS,
    pub retain: bool,
    pub pkid: u16,
    // whether a property set is present; then what of it is
    pub block: bool,
    pub payload_format_indicator: Option<u8>,
    pub message_expiry_interval: Option<u32>,
    pub topic_alias: Option<u16>,
    pub response_topic: bool,
    pub correlation_data: bool,
    pub content_type: bool,
}
