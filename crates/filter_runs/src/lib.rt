// Filters, after `Subscribe::read` of subscribe.rs: a run of them to the end of the slice, and the n-th of a run.
#![tactic(auto)]

ghost use Rattle.std.specs.Prelude.{◌≡◌, length, drop};
ghost use Rattle.records.specs.Answered.{told_filter_item};
ghost use Rattle.reading.specs.Read.{filter_of};
ghost use Rattle.reading.specs.Place.{as_places};
ghost use Rattle.positions.specs.Nth.{chosen, nth_run};
ghost use Rattle.records.specs.Said.{told_filter};
ghost use Rattle.filter_runs.specs.FilterRun.{told_got_filters, place_fit, Broken, NthFilter};

use filters::{pass_filter, read_filter};
use records::error::Error;
use records::span::Span;
use records::subscribe_record::Filter;
use wire::string;

// The refusal of the filter at `at`, which is not whole.
fn broken(s: &[u8], at: usize) -> Result<Span, Error>
    ensures { Broken s.now at result }
{
    read_filter(s, at)?;
    Err(Error::MalformedPacket)
}

// One filter or more, to the end; 13 if there is none, or the first refusal.
pub fn read_filters(s: &[u8], at: usize) -> Result<Span, Error>
    ensures { told_got_filters result ≡ place_fit (length s.now) (drop at s.now) }
{
    if s.len() <= at {
        return Err(Error::EmptySubscription);
    }
    let mut i = at;
    while i < s.len() {
        let next = pass_filter(s, i);
        if next == i {
            return broken(s, i);
        }
        i = next;
    }
    let len = s.len() - at;
    Ok(Span { start: at, len })
}

// The filter f if its turn is n, else what was there.
fn choose(item: Option<Filter>, f: Filter, turn: usize, n: usize) -> Option<Filter>
    ensures { told_filter_item result ≡ chosen (told_filter_item item) (told_filter f) turn n }
{
    if turn == n { Some(f) } else { item }
}

// The n-th filter of the run from `at` to the end; a fault after it refuses too.
fn nth(s: &[u8], at: usize, n: usize) -> Option<Filter>
    ensures { told_filter_item result ≡ nth_run (filter_of as_places (length s.now)) n (drop at s.now) }
{
    let mut item = None;
    let mut turn: usize = 0;
    let mut i = at;
    while i < s.len() {
        let Ok((f, next)) = read_filter(s, i) else {
            return None;
        };
        item = choose(item, f, turn, n);
        turn = turn + 1;
        i = next;
    }
    item
}

// The n-th filter of the run at a place, n from 0, or 21; any bytes, any place.
pub fn filter(s: &[u8], p: Span, n: usize) -> Option<Filter>
    ensures { NthFilter s.now p n result }
{
    if string::within(s, p) {
        let start = p.start;
        let len = p.len;
        let end = start + len;
        return nth(&s[..end], start, n);
    }
    None
}
