// The user properties of a frame, one after another: a walker that holds the frame. `make` and `next` are thin; `begin_at` and `step_at` do
// the work.
#![tactic(auto)]

ghost use Rattle.std.proofs.Math.Option.{none, some};
ghost use Rattle.std.specs.Prelude.{◌≡◌};
ghost use Rattle.records.specs.AsNumbers.{told_span};
ghost use Rattle.records.specs.Said.{told_packet};
ghost use Rattle.records.specs.Answered.{told_user};
ghost use Rattle.tables.specs.Property.{table_row};
ghost use Rattle.walker.specs.Walk.{Next, Goes, UserOf, Begins, Spread, place_in, block_in, Moves};

use packet;
use property_value;
use property_value::Value;
use records::packet_record::Packet;
use records::properties_record::Properties;
use records::publish_record::PublishProperties;
use records::span::Span;
use tables::property::PropertyRow;
use wire::string;

// The next user property, and where the walk stands after it.
#[derive(Clone, Copy)]
pub struct Step {
    pub item: Option<(Span, Span)>,
    pub at: usize,
}

// Where a walk begins and ends, and which row says what may stand there.
#[derive(Clone, Copy)]
pub struct Block {
    pub at: usize,
    pub end: usize,
    pub which: PropertyRow,
}

#[derive(Drop)]
pub struct Walker<'a> {
    pub frame: &'a [u8],
    pub at: usize,
    pub end: usize,
    pub which: PropertyRow,
}

// A value as a user property.
fn user_item(v: Value) -> Option<(Span, Span)>
    ensures { UserOf v result }
{
    match v {
        Value::Pair(key, value) => Some((key, value)),
        _ => None,
    }
}

// The next user property from `at` on.
fn step_in(s: &[u8], at: usize, which: PropertyRow) -> Step
    ensures { Next (table_row which) s.now at (told_user result.item) result.at }
{
    let mut i = at;
    while let Ok((k, v, next)) = property_value::read_property(which, s, i) {
        if k == 38 {
            let item = user_item(v);
            return Step { item, at: next };
        }
        i = next;
    }
    Step { item: None, at: i }
}

// The next user property from an index on, in the bytes before `end`, and the index after it.
pub fn step_at(s: &[u8], at: usize, end: usize, which: PropertyRow) -> Step
    ensures { Goes which s.now end at result.item result.at }
{
    step_in(string::part(s, Span { start: 0, len: end }), at, which)
}

// The walk over the block at a place.
fn over(which: PropertyRow, s: &[u8], p: Span) -> Block
    ensures { Spread s.now (some (table_row which, told_span p)) result.at result.end result.which }
{
    if string::within(s, p) {
        return Block {
            at: p.start,
            end: p.start + p.len,
            which,
        };
    }
    Block {
        at: 0,
        end: 0,
        which,
    }
}

// A walk over nothing.
fn nowhere(s: &[u8]) -> Block
    ensures { Spread s.now none result.at result.end result.which }
{
    let which = PropertyRow::Publish;
    let end: usize = 0;
    Block { at: 0, end, which }
}

// The walk over a block that may be absent.
fn of_block(which: PropertyRow, s: &[u8], block: Option<Span>) -> Block
    ensures { Spread s.now (place_in which block) result.at result.end result.which }
{
    match block {
        None => nowhere(s),
        Some(p) => over(which, s, p),
    }
}

// The walk over the user properties of a record that was read in s.
fn of_packet(s: &[u8], p: Packet) -> Block
    ensures { Spread s.now (block_in (told_packet p)) result.at result.end result.which }
{
    match p {
        Packet::Publish(m) => of_block(PropertyRow::Publish, s, m.properties.map(|ps| ps.block)),
        Packet::Ack(_, m) => of_block(PropertyRow::Ack, s, m.properties.map(|ps| ps.block)),
        Packet::Subscribe(m) => of_block(
            PropertyRow::Subscribe,
            s,
            m.properties.map(|ps| ps.block),
        ),
        Packet::Reply(_, m) => of_block(PropertyRow::Ack, s, m.properties.map(|ps| ps.block)),
        Packet::Unsubscribe(m) => of_block(
            PropertyRow::Unsubscribe,
            s,
            m.properties.map(|ps| ps.block),
        ),
        Packet::PingReq | Packet::PingResp => nowhere(s),
    }
}

// Where the walk over the user properties of the frame at the start of s, read with no limit, begins and ends, and its row.
pub fn begin_at(s: &[u8]) -> Block
    ensures { Begins s.now result.at result.end result.which }
{
    match packet::read(s, None) {
        Err(_) => nowhere(s),
        Ok((p, _, _)) => of_packet(s, p),
    }
}

// A walker over the user properties of the frame at the start of `frame`, read with no limit; over none if the reader refuses it.
pub fn make<'a>(frame: &'a [u8]) -> Walker<'a>
    ensures { (result.frame ≡ frame.entry) × Begins frame.now result.at result.end result.which }
{
    let b = begin_at(frame);
    Walker {
        frame,
        at: b.at,
        end: b.end,
        which: b.which,
    }
}

// The next user property, and the walker behind it; or None when there is none left.
pub fn next<'s, 'a>(w: &'s mut Walker<'a>) -> Option<(Span, Span)>
    ensures { Moves w.old result w.new }
{
    let t = step_at(w.frame, w.at, w.end, w.which);
    w.at = t.at;
    t.item
}
