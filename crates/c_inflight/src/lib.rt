// What C calls for P4: the table as lent bytes, one for each identifier from 1 upward, 0 if it is free, 1, 2 or 3 if it waits for PubAck,
// PubRec or PubComp. A start clears every byte, whatever it was; any other call tests every byte, and changes at most one.
// bindings/c/ecchjulmina.h says the rest.
#![tactic(auto)]

ghost use Rattle.std.specs.Prelude.{◌≡◌, ◌==◌, true, not, List, ◌∷◌, [], ◌+◌, ◌≤◌, ◌<◌, ℕ, ltb, ◌++◌, length, position, MatchOption};
ghost use Rattle.std.proofs.lemmas.List.Edits.{sets};
ghost use Rattle.inflight.specs.Rules.{all_states, is_table, first_free, claim_for, settled, became_of, after_pub_rec, one_if_waits, waiting};
ghost use Rattle.inflight.specs.TableAnswer.{Ahead, code_of};
ghost use Rattle.c_inflight.specs.Given.{start_given, claim_given, ack_given, waiting_number, waiting_value, value_of, refused_number, told_number, told_value, Ends, Outcomes};

use c_layout::store::store;
use inflight::{LIMIT, Wait, code, wait_of};

pub const IN_FLIGHT_FULL: u32 = 29;

pub const NO_CLAIM: u32 = 30;

pub const NOT_WAITING: u32 = 31;
// the bytes are no table
pub const BAD_TABLE: u32 = 39;
// 01, row 11
const INVALID_QOS: u32 = 11;

// Why a call is refused.
#[derive(Clone, Copy)]
enum Refused {
    InvalidQoS,
    InFlightFull,
    NoClaim,
    NotWaiting,
    BadTable,
}

// Its number, for C.
fn number(e: Refused) -> u32
    ensures { result ≡ refused_number e }
{
    match e {
        Refused::InvalidQoS => INVALID_QOS,
        Refused::InFlightFull => IN_FLIGHT_FULL,
        Refused::NoClaim => NO_CLAIM,
        Refused::NotWaiting => NOT_WAITING,
        Refused::BadTable => BAD_TABLE,
    }
}

// What a call returns and stores: 0 and its value, or the refusal's number and 0.
fn answered(o: Result<u64, Refused>, answer: &mut [u64]) -> u32
    ensures number { result ≡ told_number o }
    ensures stored { answer.new ≡ sets answer.old 0 (told_value o ∷ []) }
{
    match o {
        Ok(value) => {
            store(&mut *answer, &[value]);
            0
        }
        Err(e) => {
            store(&mut *answer, &[0]);
            number(e)
        }
    }
}

// ---- the bytes of a table

// Every byte is a state, one of 0 to 3, just where all of them gathered by `|` are: no branch, so the compiler tests many at once.
fn all_states(codes: &[u8]) -> bool
    ensures { result ≡ all_states codes.now }
{
    let mut any: u8 = 0;
    for b in codes {
        any |= *b;
    }
    any < 4
}

// A state for each identifier.
fn is_table(codes: &[u8]) -> bool
    ensures { result ≡ is_table codes.now }
{
    if codes.len() != LIMIT {
        return false;
    }
    all_states(codes)
}

// 1 for a byte that waits, else 0.
fn one_if_waits(b: u8) -> u64
    ensures { result ≡ one_if_waits b }
{
    if b == 0 {
        return 0;
    }
    1
}

// How many wait.
fn count(codes: &[u8]) -> u64
    ensures { result ≡ waiting codes.now }
{
    let mut n: u64 = 0;
    for b in codes {
        n += one_if_waits(*b);
    }
    n
}

// ---- the first free one

// A mark that `|` gathers: its top bit is set just where hit is true.
fn mark(hit: bool) -> u8
    ensures { ltb result 128 ≡ not hit }
{
    if hit {
        return 128;
    }
    0
}

// Is none of sixteen bytes free? The compiler tests them at once.
fn all_taken(s: &[u8]) -> bool
    requires { length s.now ≡ 16 }
    ensures { result ≡ true → (t : List ℕ) → first_free (s.now ++ t) ≡ 16 + first_free t }
{
    let mut any: u8 = 0;
    for b in s {
        any |= mark(*b == 0);
    }
    any < 128
}

// How far none is free, by sixteens. An index, for speed: a claim that is refused took 46 ns of the thread on x86-64, and 54 with a `for` or
// `position` over `as_chunks::<16>()`, of which LLVM unrolls two turns and not four.
fn pass_taken(codes: &[u8]) -> usize
    ensures { Ahead codes.now result }
{
    let mut i: usize = 0;
    while 16 <= codes.len() - i {
        let end = i + 16;
        if !all_taken(&codes[i..end]) {
            return i;
        }
        i = end;
    }
    i
}

fn first_zero(s: &[u8]) -> Option<usize>
    ensures { result ≡ position (λ b. b == 0) s.now }
{
    s.iter().position(|b| *b == 0)
}

// The first that is free; sixteens that are taken are passed first, by one test each.
fn first_free(codes: &[u8]) -> Option<usize>
    ensures { MatchOption result (length codes.now ≤ first_free codes.now) (λ i. (i ≡ first_free codes.now) × (i < length codes.now)) }
{
    let from = pass_taken(codes);
    let i = first_zero(&codes[from..])?;
    Some(from + i)
}

// ---- claims

// The smallest free identifier, now waiting for `w`.
fn claim_for(w: Wait, codes: &mut [u8]) -> Result<u64, Refused>
    ensures { Outcomes (claim_for (code_of w) codes.old) (told_number result) (told_value result) codes.new }
{
    let Some(i) = first_free(&*codes) else {
        return Err(Refused::InFlightFull);
    };
    codes[i] = code(w);
    Ok((i + 1) as u64)
}

// QoS 1 waits for PubAck, whose number is 1, and QoS 2 for PubRec, whose number is 2.
fn claims(qos: u8, codes: &mut [u8]) -> Result<u64, Refused>
    ensures { Outcomes (claim_given qos codes.old) (told_number result) (told_value result) codes.new }
{
    if !is_table(&*codes) {
        return Err(Refused::BadTable);
    }
    if qos == 0 {
        return Err(Refused::NoClaim);
    }
    if 2 < qos {
        return Err(Refused::InvalidQoS);
    }
    claim_for(wait_of(qos), &mut *codes)
}

// ---- answers

// An answer that identifier `id` waits for if it waits for `due`, and then goes on to `to`.
fn settle(codes: &mut [u8], id: u16, due: Wait, to: Wait) -> Result<u64, Refused>
    requires { (0 < code_of due) × (code_of to ≡ value_of (became_of (code_of to))) }
    ensures { Outcomes (settled (code_of due) (code_of to) codes.old id) (told_number result) (told_value result) codes.new }
{
    let n = id as usize;
    if n == 0 {
        return Err(Refused::NotWaiting);
    }
    if codes.len() < n {
        return Err(Refused::NotWaiting);
    }
    let at = n - 1;
    if codes[at] != code(due) {
        return Err(Refused::NotWaiting);
    }
    codes[at] = code(to);
    Ok(code(to) as u64)
}

// What the identifier of a PubRec goes on to.
fn next_of(reason: u8) -> Wait
    ensures { code_of result ≡ after_pub_rec reason }
{
    if reason < 128 {
        return Wait::PubComp;
    }
    Wait::Free
}

// The answer settles its identifier, if the bytes are a table: a PubAck is of kind 4, a PubRec of 5, a PubComp of 7.
fn answers(kind: u8, id: u16, reason: u8, codes: &mut [u8]) -> Result<u64, Refused>
    ensures { Outcomes (ack_given kind id reason codes.old) (told_number result) (told_value result) codes.new }
{
    if !is_table(&*codes) {
        return Err(Refused::BadTable);
    }
    match kind {
        4 => settle(&mut *codes, id, Wait::PubAck, Wait::Free),
        5 => settle(&mut *codes, id, Wait::PubRec, next_of(reason)),
        7 => settle(&mut *codes, id, Wait::PubComp, Wait::Free),
        _ => Err(Refused::NotWaiting),
    }
}

// ---- the count

// How many wait.
fn waits(codes: &[u8]) -> Result<u64, Refused>
    ensures number { told_number result ≡ waiting_number codes.now }
    ensures value { told_value result ≡ waiting_value codes.now }
{
    if !is_table(codes) {
        return Err(Refused::BadTable);
    }
    Ok(count(codes))
}

// ---- what C calls

// All free: 0, or 39 if there is not a byte for each identifier.
pub fn ecch_inflight_start(table: &mut [u8]) -> u32
    ensures { Ends (start_given table.old) result table.new }
{
    if table.len() != LIMIT {
        return BAD_TABLE;
    }
    table.fill(code(Wait::Free));
    0
}

// An identifier for a message about to be sent: 0, or the refusal's number, 11 for a QoS above 2, 39 for bytes that are no table.
pub fn ecch_inflight_claim(qos: u8, table: &mut [u8], answer: &mut [u64]) -> u32
    ensures left { Ends (claim_given qos table.old) result table.new }
    ensures stored { answer.new ≡ sets answer.old 0 (value_of (claim_given qos table.old).says ∷ []) }
{
    answered(claims(qos, &mut *table), &mut *answer)
}

// An acknowledgement that was read, by the number of its kind: 0, or 31, or 39.
pub fn ecch_inflight_acked(
    kind: u8,
    id: u16,
    reason: u8,
    table: &mut [u8],
    answer: &mut [u64],
) -> u32
    ensures left { Ends (ack_given kind id reason table.old) result table.new }
    ensures stored { answer.new ≡ sets answer.old 0 (value_of (ack_given kind id reason table.old).says ∷ []) }
{
    answered(answers(kind, id, reason, &mut *table), &mut *answer)
}

// How many identifiers wait: 0 and their number, or 39.
pub fn ecch_inflight_waiting(table: &[u8], answer: &mut [u64]) -> u32
    ensures number { result ≡ waiting_number table.now }
    ensures stored { answer.new ≡ sets answer.old 0 (waiting_value table.now ∷ []) }
{
    answered(waits(table), &mut *answer)
}
