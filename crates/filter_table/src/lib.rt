// A Subscribe's filters in a table that the caller lends. `put_entries` and `fill_filters` are thin; `entry_at` and `plan_of` do the work.
#![tactic(auto)]

ghost use Rattle.std.specs.Prelude.{◌≡◌, ◌≤◌, length};
ghost use Rattle.records.specs.AsNumbers.{told_span};
ghost use Rattle.records.specs.Said.{told_filter};
ghost use Rattle.filter_table.specs.Table.{entry_of, EntryIs, CountIs, RunIs, RunPlanIs, Planned, unfilled, fill_from, Fills};

use filters::read_filter;
use packet;
use qos_numbers::{bit, qos_number, rule_number};
use records::error::Error;
use records::packet_record::Packet;
use records::span::Span;
use records::subscribe_record::Filter;
use wire::string;

// A filter: where its text stands, and its options with bits 6 and 7 clear.
#[derive(Clone, Copy)]
pub struct FilterEntry {
    pub start: usize,
    pub len: usize,
    pub options: u8,
}

// Why no entry was filled.
#[derive(Clone, Copy)]
pub enum FilterTableError {
    // 37: how many places are needed
    FilterTableFull(usize),
    // 38: the frame is another packet
    NotSubscribe,
    // the reader's refusal
    Refused(Error),
}

// An entry, and the index after it.
#[derive(Clone, Copy)]
pub struct NextEntry {
    pub entry: FilterEntry,
    pub next: usize,
}

// The answer, how many entries are filled or why none is, and where the entries are read that are filled in.
#[derive(Clone, Copy)]
pub struct Plan {
    pub answer: Result<usize, FilterTableError>,
    pub at: usize,
    pub end: usize,
    pub count: usize,
    // how many bytes the reader took
    pub taken: usize,
}

// A filter as an entry.
// No From: the edit wrong_bit names it, and From is no plainer.
fn to_entry(f: Filter) -> FilterEntry
    ensures { result ≡ entry_of (told_filter f) }
{
    let path = f.path;
    let qos = f.qos;
    let rule = f.retain_forward_rule;
    let low = qos_number(qos);
    let high = rule_number(rule);
    let no_local = bit(f.nolocal);
    let preserve = bit(f.preserve_retain);
    let options = low + 4 * no_local + 8 * preserve + 16 * high;
    FilterEntry {
        start: path.start,
        len: path.len,
        options,
    }
}

// The entry at an index of the bytes before `end`, and the index after it; zeros and the index itself where none stands.
pub fn entry_at(s: &[u8], at: usize, end: usize) -> NextEntry
    ensures { EntryIs s.now at end result.entry result.next }
{
    match read_filter(string::part(s, Span { start: 0, len: end }), at) {
        Err(_) => {
            let entry = FilterEntry {
                start: 0,
                len: 0,
                options: 0,
            };
            NextEntry { entry, next: at }
        }
        Ok((f, next)) => {
            let entry = to_entry(f);
            NextEntry { entry, next }
        }
    }
}

// How many filters stand from an index to the end.
fn count_in(s: &[u8], at: usize) -> usize
    ensures { CountIs s.now at result }
{
    let mut n: usize = 0;
    let mut i = at;
    while let Ok((_, next)) = read_filter(s, i) {
        n += 1;
        i = next;
    }
    n
}

// How many filters stand at a place.
fn count_at(s: &[u8], p: Span) -> usize
    ensures { RunIs s.now (told_span p) result }
{
    if string::within(s, p) {
        return count_in(&s[..p.start + p.len], p.start);
    }
    0
}

// The plan that fills nothing in.
fn unfilled(why: FilterTableError, taken: usize) -> Plan
    ensures { result ≡ unfilled (Err why) taken }
{
    Plan {
        answer: Err(why),
        at: 0,
        end: 0,
        count: 0,
        taken,
    }
}

// The plan for a run of filters at a place.
fn plan_run(s: &[u8], p: Span, places: usize, taken: usize) -> Plan
    ensures { RunPlanIs s.now (told_span p) places taken result }
{
    let count = count_at(s, p);
    if string::within(s, p) && count <= places {
        return Plan {
            answer: Ok(count),
            at: p.start,
            end: p.start + p.len,
            count,
            taken,
        };
    }
    unfilled(FilterTableError::FilterTableFull(count), taken)
}

// The plan for the frame at the start of s, read with no limit, and a table of so many places.
pub fn plan_of(s: &[u8], places: usize) -> Plan
    ensures { Planned s.now places result }
{
    match packet::read(s, None) {
        Err((e, taken)) => unfilled(FilterTableError::Refused(e), taken),
        Ok((p, _, taken)) => match p {
            Packet::Subscribe(m) => plan_run(s, m.filters, places, taken),
            _ => unfilled(FilterTableError::NotSubscribe, taken),
        },
    }
}

// The first n entries of the table are read from index `at` on.
fn put_entries(s: &[u8], at: usize, end: usize, n: usize, table: &mut [FilterEntry])
    requires { n ≤ length table.old }
    ensures { table.new ≡ fill_from s.now end n at 0 table.old }
{
    let mut j = at;
    for place in &mut table[..n] {
        let e = entry_at(s, j, end);
        *place = e.entry;
        j = e.next;
    }
}

// The filters of the Subscribe at the start of `frame`, read with no limit, in order: how many; or the reader's refusal, NotSubscribe (38) or
// FilterTableFull (37) with the number needed, and the table as it was.
pub fn fill_filters(frame: &[u8], table: &mut [FilterEntry]) -> Result<usize, FilterTableError>
    ensures { Fills frame.now table.old result table.new }
{
    let p = plan_of(frame, table.len());
    put_entries(frame, p.at, p.end, p.count, table);
    p.answer
}
