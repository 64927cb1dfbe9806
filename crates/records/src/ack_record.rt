// The four publish acknowledgements as read, after puback.rs, pubrec.rs, pubrel.rs and pubcomp.rs, which share one layout.

use crate::properties_record::Properties;

#[derive(Clone, Copy)]
pub enum AckKind {
    PubAck,
    PubRec,
    PubRel,
    PubComp,
}

#[derive(Clone, Copy)]
pub struct Ack {
    pub pkid: u16,
    // one of the reasons of its kind
    pub reason: u8,
    pub properties: Option<Properties>,
}
