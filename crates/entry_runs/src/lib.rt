// The n-th reason of a SubAck or UnsubAck, and the n-th topic of an Unsubscribe, after suback.rs, unsuback.rs and unsubscribe.rs: as the
// n-th filter of a run is found.
#![tactic(auto)]

ghost use Rattle.std.specs.Prelude.{◌≡◌, length, drop};
ghost use Rattle.grammar.specs.Tables.{reasons_of};
ghost use Rattle.reading.specs.Read.{reason_of, text_of};
ghost use Rattle.reading.specs.Place.{as_places};
ghost use Rattle.records.specs.AsNumbers.{told_reply_kind};
ghost use Rattle.records.specs.Answered.{told_reason_item, told_topic_item};
ghost use Rattle.positions.specs.Nth.{nth_run};
ghost use Rattle.entry_runs.specs.EntryRun.{kept_of, NthReason, NthTopic};

use records::reply_record::ReplyKind;
use records::span::Span;
use tables::reason::is_reply_reason;
use wire::string;

// The entry if its turn is n, else what was there.
fn choose<T: Copy>(item: Option<T>, entry: T, turn: usize, n: usize) -> Option<T>
    ensures { result ≡ kept_of item entry turn n }
{
    if turn == n { Some(entry) } else { item }
}

// The n-th reason of the run from `at` to the end; a fault after it refuses too.
fn nth_reason(kind: ReplyKind, s: &[u8], at: usize, n: usize) -> Option<u8>
    ensures { told_reason_item result ≡ nth_run (reason_of (reasons_of (told_reply_kind kind))) n (drop at s.now) }
{
    let mut item = None;
    for i in at..s.len() {
        let reason = s[i];
        if !is_reply_reason(kind, reason) {
            return None;
        }
        item = choose(item, reason, i - at, n);
    }
    item
}

// The n-th reason of the run at a place, n from 0, in a frame of this kind, or 21; any bytes, any place.
pub fn reason(kind: ReplyKind, s: &[u8], p: Span, n: usize) -> Option<u8>
    ensures { NthReason s.now p kind n result }
{
    if string::within(s, p) {
        return nth_reason(kind, &s[..p.start + p.len], p.start, n);
    }
    None
}

// The n-th topic of the run from `at` to the end; a fault after it refuses too.
// A cursor: it steps by what was read. Beside nth_reason: one for both would be handed the reader, its laws and its telling, and be no plainer.
fn nth_topic(s: &[u8], at: usize, n: usize) -> Option<Span>
    ensures { told_topic_item result ≡ nth_run (text_of as_places (length s.now)) n (drop at s.now) }
{
    let mut item = None;
    let mut turn: usize = 0;
    let mut i = at;
    while i < s.len() {
        let Ok((topic, next)) = string::read_mqtt_string(s, i) else {
            return None;
        };
        item = choose(item, topic, turn, n);
        turn += 1;
        i = next;
    }
    item
}

// The n-th topic of the run at a place, n from 0, or 21; any bytes, any place.
pub fn topic(s: &[u8], p: Span, n: usize) -> Option<Span>
    ensures { NthTopic s.now p n result }
{
    if string::within(s, p) {
        return nth_topic(&s[..p.start + p.len], p.start, n);
    }
    None
}
