// What was read: a count for each refusal at its number, for each kind behind them, and for all refusals; and the line that tells them.
#![tactic(auto)]

ghost use Rattle.std.specs.Prelude.{◌≡◌, ◌+◌, ◌≤◌, ◌++◌, length, replicate, slice_index};
ghost use Rattle.records.specs.Ascii.{codes_of};
ghost use Rattle.kinds.specs.Kinds.{word_of};
ghost use Rattle.desk_render.specs.Shown.{decimal_of};
ghost use Rattle.desk_lines.specs.Line.{PutAt};
ghost use Rattle.desk_summary.specs.Count.{kind_at, kind_in, number_in, one_more, kind_more, refused_more};
ghost use Rattle.desk_summary.specs.Tally.{kind_text, kinds_to, all_text, refusal_text, refusals_to, end_text, summary_line};

use desk_lines::{put_number, put_word};
use kinds::{Kind, number_of, word_of};
use records::error::Error;
use records::packet_record::Packet;
use records::span::Span;
use refusal_numbers::number as refusal_number;
use wire::string;

// ---- the counts

// Where all refusals are counted: in the place of kind 15, which is reserved.
const ALL: usize = 63;

// Where a number's kind is counted: behind the numbers of refusals, those that are yet to come included.
fn kind_at(num: u8) -> usize
    ensures { result ≡ kind_at num }
{
    48 + num as usize
}

// Counts of nothing: all zero.
pub fn none() -> [u64; 64]
    ensures { result ≡ replicate 64 0 }
{
    [0; 64]
}

fn add(tally: &mut [u64], k: usize)
    ensures { tally.new ≡ one_more tally.old k }
{
    if k < tally.len() {
        tally[k] = tally[k].wrapping_add(1);
    }
}

fn kind_in(p: Packet) -> Kind
    ensures { result ≡ kind_in p }
{
    match p {
        Packet::Publish(_) => Kind::Publish,
        Packet::Ack(k, _) => Kind::Ack(k),
        Packet::Subscribe(_) => Kind::Subscribe,
        Packet::Reply(k, _) => Kind::Reply(k),
        Packet::Unsubscribe(_) => Kind::Unsubscribe,
        Packet::PingReq => Kind::PingReq,
        Packet::PingResp => Kind::PingResp,
    }
}

// The number of a packet's kind.
pub fn number_in(p: Packet) -> u8
    ensures { result ≡ number_in p }
{
    number_of(kind_in(p))
}

// A packet more.
pub fn add_packet(tally: &mut [u64], p: Packet)
    ensures { tally.new ≡ kind_more tally.old p }
{
    add(&mut *tally, kind_at(number_in(p)));
}

// A refusal more.
pub fn add_refused(tally: &mut [u64], e: Error)
    ensures { tally.new ≡ refused_more tally.old e }
{
    add(&mut *tally, refusal_number(e) as usize);
    add(&mut *tally, ALL);
}

// ---- the line: a loop over the numbers of the kinds and one over those of the refusals

fn count(tally: &[u64], k: usize) -> u64
    ensures { result ≡ slice_index tally.now k }
{
    tally.get(k).copied().unwrap_or(0)
}

// A number behind the words before it.
fn number(out: &mut [u8], at: usize, w: &[u8], n: u64) -> usize
    requires { at ≤ 65535 }
    ensures placed { PutAt out.old at (w.now ++ decimal_of n) out.new result }
    ensures short { result ≤ at + length w.now + 20 }
{
    put_number(&mut *out, at as u16, w, n)
}

// A count behind the words before it.
fn counted(out: &mut [u8], at: usize, w: &[u8], tally: &[u64], k: usize) -> usize
    requires { at ≤ 65535 }
    ensures placed { PutAt out.old at (w.now ++ decimal_of (slice_index tally.now k)) out.new result }
    ensures short { result ≤ at + length w.now + 20 }
{
    number(&mut *out, at, w, count(tally, k))
}

// A space, and the word for a number's kind.
fn kind_word(out: &mut [u8], at: usize, num: u8) -> usize
    requires { at ≤ 4096 }
    ensures placed { PutAt out.old at (codes_of " " ++ word_of num) out.new result }
    ensures short { result ≤ at + 12 }
{
    let a = put_word(&mut *out, at as u16, b" ");
    let shown = word_of(num);
    let bytes = shown.bytes;
    let text = Span {
        start: 0,
        len: shown.len,
    };
    put_word(&mut *out, a as u16, string::part(&bytes, text))
}

fn kind(out: &mut [u8], at: usize, tally: &[u64], num: u8) -> usize
    requires { at ≤ 4096 }
    ensures placed { PutAt out.old at (kind_text tally.now num) out.new result }
    ensures short { result ≤ at + 64 }
{
    let a = kind_word(&mut *out, at, num);
    counted(&mut *out, a, b"=", tally, kind_at(num))
}

// The kinds that are carried, Publish (3) to PingResp (13).
fn kinds(out: &mut [u8], at: usize, tally: &[u64]) -> usize
    requires { at ≤ 256 }
    ensures placed { PutAt out.old at (kinds_to tally.now 11) out.new result }
    ensures short { result ≤ 1024 }
{
    let mut next = at;
    for n in 0..11 {
        next = kind(&mut *out, next, tally, n + 3);
    }
    next
}

fn all(out: &mut [u8], at: usize, tally: &[u64]) -> usize
    requires { at ≤ 1024 }
    ensures placed { PutAt out.old at (all_text tally.now) out.new result }
    ensures short { result ≤ at + 64 }
{
    counted(&mut *out, at, b" refused=", tally, ALL)
}

fn pair(out: &mut [u8], at: usize, k: usize, n: u64) -> usize
    requires { at ≤ 4096 }
    ensures placed { PutAt out.old at (refusal_text k n) out.new result }
    ensures short { result ≤ at + 64 }
{
    if n == 0 {
        return at;
    }
    let a = number(&mut *out, at, b" refused-", k as u64);
    number(&mut *out, a, b"=", n)
}

fn refusals(out: &mut [u8], at: usize, tally: &[u64]) -> usize
    requires { at ≤ 2048 }
    ensures placed { PutAt out.old at (refusals_to tally.now 23) out.new result }
    ensures short { result ≤ at + 2048 }
{
    let mut next = at;
    for k in 0..23 {
        next = pair(&mut *out, next, k + 1, count(tally, k + 1));
    }
    next
}

fn end(out: &mut [u8], at: usize, bytes: u64) -> usize
    requires { at ≤ 4096 }
    ensures { PutAt out.old at (end_text bytes) out.new result }
{
    let a = number(&mut *out, at, b" bytes=", bytes);
    put_word(&mut *out, a as u16, b"\n")
}

// The line of what was read; gives how many bytes it is.
pub fn put_summary(out: &mut [u8], tally: &[u64], bytes: u64) -> usize
    ensures { PutAt out.old 0 (summary_line tally.now bytes) out.new result }
{
    let a = put_word(&mut *out, 0, b"desk:");
    let b = kinds(&mut *out, a, tally);
    let c = all(&mut *out, b, tally);
    let d = refusals(&mut *out, c, tally);
    end(&mut *out, d, bytes)
}
