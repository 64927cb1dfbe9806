// Writing a Publish, for the benchmark in oracle/, as a function that Rust calls.
#![tactic(auto)]

ghost use Rattle.std.specs.Prelude.{◌≡◌, []};
ghost use Rattle.packet_write.specs.Parts.{parts};
ghost use Rattle.speed_writing.specs.Count.{qos_for, bench_head, Counted};

use packet_write::head::PacketHead;
use packet_write::write;
use publish_plan::head::PublishHead;
use records::qos::QoS;

fn qos(pkid: u16) -> QoS
    ensures { result ≡ qos_for pkid }
{
    if pkid == 0 {
        return QoS::AtMostOnce;
    }
    QoS::AtLeastOnce
}

// A Publish with user properties alone, of QoS 0 where its identifier is 0, else of QoS 1.
fn head(pkid: u16) -> PublishHead
    ensures { result ≡ bench_head pkid }
{
    PublishHead {
        dup: false,
        qos: qos(pkid),
        retain: false,
        pkid,
        block: true,
        payload_format_indicator: None,
        message_expiry_interval: None,
        topic_alias: None,
        response_topic: false,
        correlation_data: false,
        content_type: false,
    }
}

// The size of the Publish, or 0 where the write is refused.
#[unsafe(no_mangle)]
pub extern "C" fn speed_writing_publish(
    pkid: u16,
    topic: &[u8],
    user: &[u8],
    user_lengths: &[usize],
    payload: &[u8],
    out: &mut [u8],
) -> usize
    ensures { Counted pkid (parts topic.now [] [] user.now user_lengths.now [] [] payload.now [] [] [] []) out.old out.new result }
{
    let written = write(
        PacketHead::Publish(head(pkid)),
        topic,
        b"",
        b"",
        user,
        user_lengths,
        &[],
        b"",
        payload,
        b"",
        b"",
        &[],
        b"",
        None,
        &mut *out,
    );
    match written {
        Ok(n) => n,
        Err(_) => 0,
    }
}
