// A Subscribe as read, and one filter, after subscribe.rs.
use crate::error::Error;
use crate::properties_record::Properties;
use crate::qos::QoS;
use crate::span::Span;

#[derive(Clone, Copy)]
pub struct Subscribe {
    pub pkid: u16,
    // where the filters stand
    pub filters: Span,
    pub properties: Option<Properties>,
}

#[derive(Clone, Copy)]
pub enum RetainForwardRule {
    OnEverySubscribe,
    OnNewSubscribe,
    Never,
}

#[derive(Clone, Copy)]
pub struct Filter {
    pub path: Span,
    pub qos: QoS,
    pub nolocal: bool,
    pub preserve_retain: bool,
    pub retain_forward_rule: RetainForwardRule,
}
