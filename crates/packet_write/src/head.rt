// What is handed over of a packet by value, one case for each layout that is carried, and one for each ping; strings and lists are lent beside it.
use ack_write::AckHead;
use publish_plan::head::PublishHead;
use reply_write::ReplyHead;
use subscribe_write::SubscribeHead;
use unsubscribe_write::UnsubscribeHead;

#[derive(Clone, Copy)]
pub enum PacketHead {
    Publish(PublishHead),
    Ack(AckHead),
    Subscribe(SubscribeHead),
    Reply(ReplyHead),
    Unsubscribe(UnsubscribeHead),
    PingReq,
    PingResp,
}
