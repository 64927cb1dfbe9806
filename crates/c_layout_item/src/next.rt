// What is returned and stored of the property, filter or topic at an index: with it the index after it, at which the next one begins.
ghost use Rattle.std.specs.Prelude.{◌≡◌};
ghost use Rattle.std.proofs.lemmas.List.Edits.{sets};
ghost use Rattle.reading.specs.Reader.{got};
ghost use Rattle.records.specs.AsNumbers.{told_error, told_span};
ghost use Rattle.records.specs.Said.{told_filter};
ghost use Rattle.property_value.specs.OneProperty.{told_value, told_property};
ghost use Rattle.filters.specs.FilterRead.{told_got_filter};
ghost use Rattle.c_layout.specs.Value.{fit_number, answered_number};
ghost use Rattle.c_layout_item.specs.Next.{bad_numbers, property_row, property_numbers, next_filter_numbers, next_topic_numbers, found_numbers};
ghost use Rattle.wire.specs.StringRead.{told_part};

use c_layout::answer::answered_number;
use c_layout::store::store;
use c_layout::value::first_value;
use property_value::Value;
use qos_numbers::{bit, qos_number, rule_number};
use records::error::Error;
use records::span::Span;
use records::subscribe_record::Filter;
use refusal_numbers::values;

// The refusal's value.
fn bad_numbers(e: Error) -> [u64; 7]
    ensures { result ≡ bad_numbers (told_error e) }
{
    [first_value(values(e)), 0, 0, 0, 0, 0, 0]
}

fn value_numbers(next: usize, k: u8, v: Value) -> [u64; 7]
    ensures { result ≡ property_row next k (told_value v) }
{
    let next = next as u64;
    let k = k as u64;
    match v {
        Value::U8(n) => [next, k, n as u64, 0, 0, 0, 0],
        Value::U16(n) => [next, k, n as u64, 0, 0, 0, 0],
        Value::U32(n) => [next, k, n as u64, 0, 0, 0, 0],
        Value::Number(n) => [next, k, n as u64, 0, 0, 0, 0],
        Value::Text(p) => [next, k, 0, p.start as u64, p.len as u64, 0, 0],
        Value::Bytes(p) => [next, k, 0, p.start as u64, p.len as u64, 0, 0],
        Value::Pair(p, q) => [
            next,
            k,
            0,
            p.start as u64,
            p.len as u64,
            q.start as u64,
            q.len as u64,
        ],
    }
}

fn property_numbers(property: (u8, Value, usize)) -> [u64; 7]
    ensures { result ≡ property_row property.2 property.0 (told_value property.1) }
{
    let (k, v, next) = property;
    value_numbers(next, k, v)
}

fn next_filter_numbers(found: (Filter, usize)) -> [u64; 7]
    ensures { result ≡ next_filter_numbers (got (told_filter found.0, found.1)) }
{
    let (f, next) = found;
    let qos = f.qos;
    let rule = f.retain_forward_rule;
    [
        next as u64,
        f.path.start as u64,
        f.path.len as u64,
        qos_number(qos) as u64,
        bit(f.nolocal) as u64,
        bit(f.preserve_retain) as u64,
        rule_number(rule) as u64,
    ]
}

fn next_topic_numbers(found: (Span, usize)) -> [u64; 7]
    ensures { result ≡ next_topic_numbers (got (told_span found.0, found.1)) }
{
    let (p, next) = found;
    [next as u64, p.start as u64, p.len as u64, 0, 0, 0, 0]
}

// 0, or the refusal's number; the numbers of what was found are stored, or the refusal's value.
fn store_next(found: Result<[u64; 7], Error>, into: &mut [u64]) -> u32
    ensures number { result ≡ answered_number found }
    ensures stored { into.new ≡ sets into.old 0 (found_numbers found) }
{
    let numbers = found.unwrap_or_else(bad_numbers);
    store(&mut *into, &numbers);
    answered_number(found)
}

// 0, or the refusal's number; the index after it, identifier and value are stored.
pub fn store_property(property: Result<(u8, Value, usize), Error>, into: &mut [u64]) -> u32
    ensures number { result ≡ fit_number (told_property property) }
    ensures stored { into.new ≡ sets into.old 0 (property_numbers (told_property property)) }
{
    store_next(property.map(property_numbers), &mut *into)
}

// The same of a filter: its text and options.
pub fn store_next_filter(filter: Result<(Filter, usize), Error>, into: &mut [u64]) -> u32
    ensures number { result ≡ fit_number (told_got_filter filter) }
    ensures stored { into.new ≡ sets into.old 0 (next_filter_numbers (told_got_filter filter)) }
{
    store_next(filter.map(next_filter_numbers), &mut *into)
}

// The same of a topic: where it stands.
pub fn store_next_topic(topic: Result<(Span, usize), Error>, into: &mut [u64]) -> u32
    ensures number { result ≡ fit_number (told_part topic) }
    ensures stored { into.new ≡ sets into.old 0 (next_topic_numbers (told_part topic)) }
{
    store_next(topic.map(next_topic_numbers), &mut *into)
}
