// Reading frame after frame, for the benchmark in oracle/, as a function that Rust calls.
#![tactic(auto)]

ghost use Rattle.std.specs.Prelude.{◌≡◌};
ghost use Rattle.records.specs.Said.{told_packet};
ghost use Rattle.speed_reading.specs.Sum.{weight_of, frames_sum};

use packet;
use records::packet_record::Packet;
use std::num;

// The lengths of topic and payload of a Publish, added; 0 for any other packet.
fn weight(p: Packet) -> u64
    ensures { result ≡ weight_of (told_packet p) }
{
    match p {
        Packet::Publish(m) => num::wrapping_add_u64(m.topic.len as u64, m.payload.len as u64),
        Packet::Ack(_, _) => 0,
        Packet::Subscribe(_) => 0,
        Packet::Reply(_, _) => 0,
        Packet::Unsubscribe(_) => 0,
        Packet::PingReq => 0,
        Packet::PingResp => 0,
    }
}

// Of the frames of a stream, up to its end or the first refusal: the bytes taken, and what each packet weighs, added modulo 2^64.
#[unsafe(no_mangle)]
pub extern "C" fn speed_reading_sum(stream: &[u8]) -> u64
    ensures { result ≡ frames_sum stream.now }
{
    let mut sum: u64 = 0;
    // a cursor: each frame takes what it takes
    let mut at: usize = 0;
    while at < stream.len() {
        match packet::read(&stream[at..], None) {
            Ok((p, _, taken)) => {
                sum = num::wrapping_add_u64(sum, weight(p));
                sum = num::wrapping_add_u64(sum, taken as u64);
                at = at + taken;
            }
            Err((_, _)) => return sum,
        }
    }
    sum
}
