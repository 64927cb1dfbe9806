// What the codec hands over and hands back: quality of service, refusals, records as read, answers. It follows mqttbytes/mod.rs and the
// structs of puback.rs, subscribe.rs and publish.rs; strings and lists are places in the lent stream.
#![tactic(auto)]

pub mod ack_record;
pub mod answer;
pub mod error;
pub mod packet_record;
pub mod properties_record;
pub mod publish_record;
pub mod qos;
pub mod reply_record;
pub mod span;
pub mod subscribe_record;
pub mod unsubscribe_record;
pub mod values;
