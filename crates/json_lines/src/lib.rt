// The lines of `desk --json` that are names and numbers alone, put into a lent output from an index on: what every object begins with, the line
// of a refusal, and that of a frame which is passed over. docs/DESK.md has the fields. What would lie past the end is not stored.
#![tactic(auto)]

ghost use Rattle.std.specs.Prelude.{◌++◌, ◌∷◌, []};
ghost use Rattle.records.specs.AsNumbers.{told_values};
ghost use Rattle.refusal_names.specs.Names.{name_of};
ghost use Rattle.json_text.specs.Put.{PutIn};
ghost use Rattle.json_text.specs.Value.{joined};
ghost use Rattle.json_lines.specs.Line.{head_text, numbers, refusal_start, refusal_text, refused_line, skipped_line};

use json_text::{put_number, put_word};
use records::error::Error;
use records::span::Span;
use records::values::Values;
use refusal_numbers;
use wire::string;

// What every object begins with: the frame's index, where it starts, the word for its kind, and the bytes taken.
pub fn put_head(
    out: &mut [u8],
    at: usize,
    index: u64,
    offset: u64,
    kind: &[u8],
    taken: u64,
) -> usize
    ensures { PutIn out.old at (head_text index offset kind.now taken) out.new result }
{
    let a = put_number(&mut *out, at, b"{\"index\":", index);
    let b = put_number(&mut *out, a, b",\"offset\":", offset);
    let c = put_word(&mut *out, b, b",\"kind\":\"");
    let d = put_word(&mut *out, c, kind);
    put_number(&mut *out, d, b"\",\"taken\":", taken)
}

fn name(out: &mut [u8], at: usize, e: Error) -> usize
    ensures { PutIn out.old at (name_of e) out.new result }
{
    let shown = refusal_names::name(e);
    let bytes = shown.bytes;
    let text = Span {
        start: 0,
        len: shown.len,
    };
    put_word(&mut *out, at, string::part(&bytes, text))
}

fn two_values(out: &mut [u8], at: usize, m: usize, n: usize) -> usize
    ensures { PutIn out.old at (joined (numbers (m ∷ n ∷ []))) out.new result }
{
    let a = put_number(&mut *out, at, b"", m as u64);
    put_number(&mut *out, a, b",", n as u64)
}

fn values(out: &mut [u8], at: usize, v: Values) -> usize
    ensures { PutIn out.old at (joined (numbers (told_values v))) out.new result }
{
    match v {
        Values::None => put_word(&mut *out, at, b""),
        Values::One(n) => put_number(&mut *out, at, b"", n as u64),
        Values::Two(m, n) => two_values(&mut *out, at, m, n),
    }
}

// Number and name, up to the quote behind the name.
fn refusal_name(out: &mut [u8], at: usize, e: Error) -> usize
    ensures { PutIn out.old at (refusal_start e) out.new result }
{
    let a = put_number(
        &mut *out,
        at,
        b",\"number\":",
        refusal_numbers::number(e) as u64,
    );
    let b = put_word(&mut *out, a, b",\"name\":\"");
    name(&mut *out, b, e)
}

// Number, name and values, and the end of the line.
fn refusal(out: &mut [u8], at: usize, e: Error) -> usize
    ensures { PutIn out.old at (refusal_text e) out.new result }
{
    let a = refusal_name(&mut *out, at, e);
    let b = put_word(&mut *out, a, b"\",\"values\":[");
    let c = values(&mut *out, b, refusal_numbers::values(e));
    put_word(&mut *out, c, b"]}\n")
}

// The line of a refusal.
pub fn put_refused(
    out: &mut [u8],
    at: usize,
    index: u64,
    offset: u64,
    e: Error,
    taken: usize,
) -> usize
    ensures { PutIn out.old at (refused_line index offset e taken) out.new result }
{
    let a = put_head(&mut *out, at, index, offset, b"refused", taken as u64);
    refusal(&mut *out, a, e)
}

// The line of a frame of `taken` bytes, of the packet type `kind`, that is passed over.
pub fn put_skipped(
    out: &mut [u8],
    at: usize,
    index: u64,
    offset: u64,
    taken: u64,
    kind: u8,
) -> usize
    ensures { PutIn out.old at (skipped_line index offset taken kind) out.new result }
{
    let a = put_head(&mut *out, at, index, offset, b"skipped", taken);
    let b = put_number(&mut *out, a, b",\"type\":", kind as u64);
    put_word(&mut *out, b, b"}\n")
}
