// The tidy form of a frame, 02's P14: what would be written of the record that was read. After P8 and P9 it is the frame's own bytes, with the
// properties in the order of the table; so they are copied, and no lengths are lent.
#![tactic(auto)]

ghost use Rattle.std.specs.Prelude.{◌≡◌, cond, [], ◌∷◌, ◌-◌, ◌≤◌, ◌<◌, eqb, length, take, drop, get_or};
ghost use Rattle.std.proofs.lemmas.List.Edits.{sets};
ghost use Rattle.grammar.specs.Choice.{lookup};
ghost use Rattle.grammar.specs.Tables.{subscribe_row, kinds};
ghost use Rattle.grammar.specs.Record.{kind_of};
ghost use Rattle.write_properties.specs.Behind.{Behind};
ghost use Rattle.tables.specs.Property.{table_row};
ghost use Rattle.tidy_form.specs.Order.{ids_of, success_in, short_ack, AsIs, Masked};
ghost use Rattle.tidying.specs.Tidied.{Tidies};
ghost use Rattle.tidying.specs.Way.{way_of};
ghost use Rattle.tidying.specs.Copied.{Passed, RunPassed, InOrder, IdPut, IdsPut, RowPut, FilterPassed, FiltersPut, FrontPut, Gives, LaidGiven, Accepted, FrameTidied, FoundIs};

use filters::read_filter;
use kinds::{Kind, first_byte, kind_of};
use property_value::read_property;
use records::error::Error;
use tables::property::PropertyRow;
use write_bytes::put_bytes;
use write_numbers::fixed::Fixed;
use write_runs::run;

// The size of the tidy form that was put, and how many bytes of the stream are taken; or the refusal, and how many.
pub type Tidied = Result<(usize, usize), (Error, usize)>;

// ---- the properties of a block, which ends where `s` does

// The index after the property at an index; the end if none stands there.
fn pass_property(row: PropertyRow, s: &[u8], at: usize) -> usize
    ensures { Passed (table_row row) s.now at result }
{
    match read_property(row, s, at) {
        Ok((_, _, next)) => next,
        Err(_) => s.len(),
    }
}

// The index after those properties from an index on that have this identifier.
fn pass_run(row: PropertyRow, id: u8, s: &[u8], at: usize) -> usize
    ensures { RunPassed (table_row row) id s.now at result }
{
    let mut i = at;
    // no `for`: the next one begins where this one ends
    while i < s.len() {
        if s[i] != id {
            return i;
        }
        i = pass_property(row, s, i);
    }
    i
}

// Do the properties stand in the order of the identifiers?
fn in_order(row: PropertyRow, ids: &[u8], s: &[u8], start: usize) -> bool
    ensures { InOrder (table_row row) ids.now s.now start result }
{
    let mut i = start;
    for id in ids {
        i = pass_run(row, *id, s, i);
    }
    s.len() <= i
}

// Puts the bytes from i to `next` if the first of them is the identifier; gives the index behind them.
fn put_if(out: &mut [u8], to: usize, id: u8, s: &[u8], i: usize, next: usize) -> usize
    requires { (i < length s.now) × (i ≤ next) }
    ensures { Behind out.old to (cond (eqb (get_or s.now i 0) id) (take (next - i) (drop i s.now)) []) out.new result }
{
    if s[i] == id {
        let part = run::piece(s, i, next - i);
        put_bytes(&mut *out, to, part);
        return run::after(out.len(), to, part.len());
    }
    run::after(out.len(), to, 0)
}

// Puts the properties with this identifier; gives the index behind them.
fn put_each(row: PropertyRow, id: u8, s: &[u8], start: usize, out: &mut [u8], at: usize) -> usize
    ensures { IdPut (table_row row) id s.now start out.old at out.new result }
{
    let mut to = run::after(out.len(), at, 0);
    let mut i = start;
    // no `for`: the next one begins where this one ends
    while i < s.len() {
        let next = pass_property(row, s, i);
        to = put_if(&mut *out, to, id, s, i, next);
        i = next;
    }
    to
}

// Puts the properties in the order of the identifiers, from the index on at which they stand.
fn put_rows(row: PropertyRow, ids: &[u8], s: &[u8], start: usize, out: &mut [u8])
    ensures { IdsPut (table_row row) ids.now s.now start out.old out.new }
{
    let mut to = run::after(out.len(), start, 0);
    for id in ids {
        to = put_each(row, *id, s, start, &mut *out, to);
    }
}

// The same in one pass and one copy where they stand in that order.
fn put_ordered(row: PropertyRow, ids: &[u8], s: &[u8], start: usize, out: &mut [u8])
    requires { ids.now ≡ ids_of (table_row row).forms }
    ensures { RowPut (table_row row) s.now start out.old out.new }
{
    if in_order(row, ids, s, start) {
        put_bytes(&mut *out, start, run::piece(s, start, s.len()));
        return;
    }
    put_rows(row, ids, s, start, &mut *out);
}

// Puts the properties in the order of the row.
fn put_block(row: PropertyRow, s: &[u8], start: usize, out: &mut [u8])
    ensures { RowPut (table_row row) s.now start out.old out.new }
{
    match row {
        PropertyRow::Publish => {
            put_ordered(
                row,
                b"\x01\x02\x23\x08\x09\x26\x0b\x03",
                s,
                start,
                &mut *out,
            )
        }
        PropertyRow::Subscribe => put_ordered(row, b"\x0b\x26", s, start, &mut *out),
        PropertyRow::Ack => put_ordered(row, b"\x1f\x26", s, start, &mut *out),
        PropertyRow::Unsubscribe => put_ordered(row, b"\x26", s, start, &mut *out),
    }
}

// ---- filters

fn put_byte(out: &mut [u8], at: usize, b: u8)
    ensures { out.new ≡ sets out.old at (b ∷ []) }
{
    b.put(&mut *out, at);
}

// The index after the filter at an index; the end if none stands there.
fn pass_filter(s: &[u8], at: usize) -> usize
    ensures { FilterPassed s.now at result }
{
    match read_filter(s, at) {
        Ok((_, next)) => next,
        Err(_) => s.len(),
    }
}

// Puts the filters from an index on to the end, where they stand; bits 6 and 7 of their options bytes are put as 0.
fn put_filters(s: &[u8], at: usize, out: &mut [u8])
    ensures { FiltersPut s.now at out.old out.new }
{
    let mut i = at;
    // no `for`: the next one begins where this one ends
    while i < s.len() {
        let next = pass_filter(s, i);
        let last = next - 1;
        put_bytes(&mut *out, i, run::piece(s, i, last - i));
        put_byte(&mut *out, last, s[last] % 64);
        i = next;
    }
}

// ---- the frame

// Puts these bytes, if there is room, for a frame of n bytes.
fn give(b: &[u8], n: usize, out: &mut [u8]) -> Tidied
    ensures { Gives b.now n out.old out.new result }
{
    if out.len() < b.len() {
        return Err((Error::NoRoom(b.len()), 0));
    }
    put_bytes(&mut *out, 0, b);
    Ok((b.len(), n))
}

// Puts the first byte, what stands before the properties, and these.
fn put_front(row: PropertyRow, first: u8, s: &[u8], start: usize, end: usize, out: &mut [u8])
    requires { 1 ≤ start }
    ensures { FrontPut (table_row row) first s.now start end out.old out.new }
{
    put_byte(&mut *out, 0, first);
    put_bytes(&mut *out, 1, run::piece(s, 1, start - 1));
    put_block(row, run::piece(s, 0, end), start, &mut *out);
}

// A frame whose tidy form has its length: what stands behind the properties is copied.
fn tidy_block(
    row: PropertyRow,
    first: u8,
    s: &[u8],
    start: usize,
    end: usize,
    out: &mut [u8],
) -> Tidied
    requires { 1 ≤ start }
    ensures { LaidGiven (table_row row) AsIs first s.now start end out.old out.new result }
{
    let size = s.len();
    if out.len() < size {
        return Err((Error::NoRoom(size), 0));
    }
    put_front(row, first, s, start, end, &mut *out);
    put_bytes(&mut *out, end, run::piece(s, end, size));
    Ok((size, size))
}

// A Subscribe.
fn tidy_subscribe(first: u8, s: &[u8], start: usize, end: usize, out: &mut [u8]) -> Tidied
    requires { 1 ≤ start }
    ensures { LaidGiven subscribe_row Masked first s.now start end out.old out.new result }
{
    let size = s.len();
    if out.len() < size {
        return Err((Error::NoRoom(size), 0));
    }
    put_front(PropertyRow::Subscribe, first, s, start, end, &mut *out);
    put_filters(s, end, &mut *out);
    Ok((size, size))
}

// Does an acknowledgement with no properties give success?
fn success_in(s: &[u8]) -> bool
    ensures { result ≡ success_in s.now }
{
    if s.len() <= 4 {
        return true;
    }
    s[4] == 0
}

// An acknowledgement of a publish with no properties: a reason other than success is followed by L = 0.
fn tidy_short(first: u8, s: &[u8], out: &mut [u8]) -> Tidied
    requires { 4 ≤ length s.now }
    ensures { Gives (short_ack first s.now) (length s.now) out.old out.new result }
{
    if success_in(s) {
        let b = [first, 2, s[2], s[3]];
        return give(&b, s.len(), &mut *out);
    }
    let b = [first, 4, s[2], s[3], s[4], 0];
    give(&b, s.len(), &mut *out)
}

// A ping, whatever its bytes.
fn tidy_ping(first: u8, n: usize, out: &mut [u8]) -> Tidied
    ensures { Gives (first ∷ 0 ∷ []) n out.old out.new result }
{
    let b = [first, 0];
    give(&b, n, &mut *out)
}

// How the tidy form of a frame is put, with its first byte.
#[derive(Clone, Copy)]
enum Way {
    // it has the frame's length: a block of this row
    Block(PropertyRow, u8),
    // the same of a Subscribe
    Filters(u8),
    // an acknowledgement of a publish with no properties
    Short(u8),
    Ping(u8),
    // no kind that is carried
    No,
}

// By the first byte of the frame, and whether it has properties.
fn way_of(byte1: u8, bare: bool) -> Way
    ensures { result ≡ way_of (lookup kinds (kind_of byte1)) byte1 bare }
{
    let first = first_byte(byte1 / 16);
    match kind_of(byte1 / 16) {
        Kind::Publish => Way::Block(PropertyRow::Publish, byte1),
        Kind::Ack(_) => {
            if bare {
                return Way::Short(first);
            }
            return Way::Block(PropertyRow::Ack, first);
        }
        Kind::Subscribe => Way::Filters(first),
        Kind::Reply(_) => Way::Block(PropertyRow::Ack, first),
        Kind::Unsubscribe => Way::Block(PropertyRow::Unsubscribe, first),
        Kind::PingReq => Way::Ping(first),
        Kind::PingResp => Way::Ping(first),
        Kind::Reserved(_) => Way::No,
        Kind::NotCarried(_) => Way::No,
    }
}

// The frame `s` that was read, whose properties stand from `start` to `end`.
fn tidy_frame(s: &[u8], start: usize, end: usize, out: &mut [u8]) -> Tidied
    requires { Accepted s.now start end }
    ensures { FrameTidied s.now out.old out.new result }
{
    let byte1 = s[0];
    match way_of(byte1, end <= start) {
        Way::Block(row, first) => tidy_block(row, first, s, start, end, &mut *out),
        Way::Filters(first) => tidy_subscribe(first, s, start, end, &mut *out),
        Way::Short(first) => tidy_short(first, s, &mut *out),
        Way::Ping(first) => tidy_ping(first, s.len(), &mut *out),
        Way::No => Err((Error::KindNotCarried(byte1 / 16), s.len())),
    }
}

// The frame at the start of a stream: where its properties start and end, and how many bytes it takes; or the refusal, and how many.
type Found = Result<(usize, usize, usize), (Error, usize)>;

// What of the reader's answer is needed; a function of its own, so that no other carries a record.
fn frame_of(stream: &[u8]) -> Found
    ensures { FoundIs stream.now result }
{
    let (_, place, n) = packet::read(stream, None)?;
    Ok((place.start, place.end, n))
}

// The tidy form of the frame at the start of the stream, from index 0 of the output on. Refused with what the reader refuses, with no limit, and with what
// it takes; then with 19 where the output is shorter than the tidy form: then nothing is taken. A refused call changes no byte.
pub fn tidy(stream: &[u8], out: &mut [u8]) -> Tidied
    ensures { Tidies stream.now out.old out.new result }
{
    let (start, end, n) = frame_of(stream)?;
    tidy_frame(run::piece(stream, 0, n), start, end, &mut *out)
}
