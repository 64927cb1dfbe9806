// What `desk` does by topic: the aliases of a stream are learnt, and `--topic FILTER` shows the Publish frames that match it alone.
#![tactic(auto)]

ghost use Rattle.std.specs.Prelude.{◌≡◌};
ghost use Rattle.records.specs.AsNumbers.{told_span};
ghost use Rattle.alias.specs.Alias.{in_force};
ghost use Rattle.alias.specs.AliasAnswer.{alias_in};
ghost use Rattle.desk_topic.specs.Shown.{learnt_from, matches_in, shows};

use alias::Placed;
use records::packet_record::Packet;
use records::publish_record::Publish;
use wire::string;

// A Publish is learnt; a packet of another kind says nothing of an alias.
pub fn learn(table: &mut [u8], stream: &[u8], p: Packet)
    ensures { table.new ≡ learnt_from table.old stream.now p }
{
    match p {
        Packet::Publish(m) => {
            let _ = alias::learn(&mut *table, stream, m);
        }
        Packet::Ack(_, _) => {}
        Packet::Subscribe(_) => {}
        Packet::Reply(_, _) => {}
        Packet::Unsubscribe(_) => {}
        Packet::PingReq => {}
        Packet::PingResp => {}
    }
}

// Does the topic in force match the filter? One that is refused has none.
fn matches_force(filter: &[u8], stream: &[u8], table: &[u8], m: Publish) -> bool
    ensures { result ≡ matches_in filter.now stream.now table.now (in_force stream.now table.now (told_span m.topic) (alias_in m)) }
{
    match alias::place_in_force(stream, table, m) {
        Ok(Placed::InPacket(p)) => topics::matches(string::part(stream, p), filter),
        Ok(Placed::InTable(p)) => topics::matches(string::part(table, p), filter),
        Err(_) => false,
    }
}

// Is a packet shown? Every one is, if there is no filter; else a Publish that is not refused and whose topic in force matches.
pub fn is_shown(filter: &[u8], stream: &[u8], table: &[u8], p: Packet) -> bool
    ensures { result ≡ shows filter.now stream.now table.now p }
{
    if filter.len() == 0 {
        return true;
    }
    match p {
        Packet::Publish(m) => matches_force(filter, stream, table, m),
        Packet::Ack(_, _) => false,
        Packet::Subscribe(_) => false,
        Packet::Reply(_, _) => false,
        Packet::Unsubscribe(_) => false,
        Packet::PingReq => false,
        Packet::PingResp => false,
    }
}
