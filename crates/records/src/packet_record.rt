// The packets that are carried, as `Packet` of v5/mod.rs; the kinds that share a layout share a case.
use crate::ack_record::{Ack, AckKind};
use crate::publish_record::Publish;
use crate::reply_record::{Reply, ReplyKind};
use crate::subscribe_record::Subscribe;
use crate::unsubscribe_record::Unsubscribe;

#[derive(Clone, Copy)]
pub enum Packet {
    Publish(Publish),
    Ack(AckKind, Ack),
    Subscribe(Subscribe),
    Reply(ReplyKind, Reply),
    Unsubscribe(Unsubscribe),
    PingReq,
    PingResp,
}
