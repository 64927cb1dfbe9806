// The n-th user property and the n-th subscription identifier of a block: what stands in place of the lists of publish.rs, subscribe.rs and
// puback.rs. The whole block is read, so that a fault behind the item is seen.
#![tactic(auto)]

ghost use Rattle.std.specs.Prelude.{◌≡◌, not};
ghost use Rattle.grammar.specs.Tables.{is_list};
ghost use Rattle.records.specs.AsNumbers.{told_span};
ghost use Rattle.tables.specs.Property.{table_row};
ghost use Rattle.items.specs.Nth.{SeekOn, SeekIn, NthRead, NthUser, NthIdentifier};

use property_value::Value;
use records::span::Span;
use tables::property::PropertyRow;
use wire::string;

// The search for a value: how many are to be passed before it, or the value.
#[derive(Clone, Copy)]
enum Seek {
    Left(usize),
    At(Value),
}

// The search for values of property id, after property k with value v.
fn seek_on(seek: Seek, id: u8, k: u8, v: Value) -> Seek
    ensures { SeekOn seek id k v result }
{
    if k != id {
        return seek;
    }
    match seek {
        Seek::Left(n) => {
            if n == 0 {
                return Seek::At(v);
            }
            Seek::Left(n - 1)
        }
        Seek::At(_) => seek,
    }
}

// Whether property k is single-valued in a row (02, P9).
fn is_single(row: PropertyRow, k: u8) -> bool
    ensures { result ≡ not (is_list (table_row row) k) }
{
    if k == 38 {
        return false;
    }
    if k == 11 {
        return match row {
            PropertyRow::Publish => false,
            PropertyRow::Subscribe => true,
            PropertyRow::Ack => true,
            PropertyRow::Unsubscribe => true,
        };
    }
    true
}

// The n-th value of property id among the properties that fill s from start on, none of them doubled. What was met is kept by the identifier,
// so that one pass sees the item, a fault behind it, and a property that comes again.
fn seek_in(row: PropertyRow, id: u8, s: &[u8], start: usize, n: usize) -> Seek
    ensures { SeekIn (table_row row) id s.now start n result }
{
    let mut seek = Seek::Left(n);
    let mut met = [false; 256];
    let mut at = start;
    while at < s.len() {
        let first = s[at] as usize;
        if met[first] {
            return Seek::Left(n);
        }
        match property_value::read_property(row, s, at) {
            Err(_) => {
                return Seek::Left(n);
            }
            Ok((k, v, next)) => {
                met[first] = is_single(row, k);
                seek = seek_on(seek, id, k, v);
                at = next;
            }
        }
    }
    seek
}

// The n-th value of property id in the block at a place.
fn nth_value(row: PropertyRow, id: u8, s: &[u8], p: Span, n: usize) -> Seek
    ensures { NthRead (table_row row) id s.now (told_span p) n result }
{
    if string::within(s, p) {
        let start = p.start;
        let len = p.len;
        let end = start + len;
        return seek_in(row, id, &s[..end], start, n);
    }
    Seek::Left(n)
}

// The n-th user property of the block at a place, n from 0, or 21.
pub fn user_property(row: PropertyRow, s: &[u8], p: Span, n: usize) -> Option<(Span, Span)>
    ensures { NthUser (table_row row) s.now p n result }
{
    match nth_value(row, 38, s, p, n) {
        Seek::Left(_) => None,
        Seek::At(v) => {
            if let Value::Pair(key, value) = v {
                return Some((key, value));
            }
            None
        }
    }
}

// The n-th subscription identifier of a Publish, n from 0, or 21.
pub fn subscription_identifier(s: &[u8], p: Span, n: usize) -> Option<u32>
    ensures { NthIdentifier s.now p n result }
{
    match nth_value(PropertyRow::Publish, 11, s, p, n) {
        Seek::Left(_) => None,
        Seek::At(v) => {
            if let Value::Number(id) = v {
                return Some(id);
            }
            None
        }
    }
}
