// Replays claims and answers on the client's record of messages (P4 of 02), a line for each: on a table by value, through `inflight`, and on
// lent bytes, through what C calls. The rows are the file stdin; oracle/inflight-rows made it and the file stdout, from 02 and from no code of
// the port. A row has twelve bytes: what comes, an identifier, a reason. `q` is a claim, with a QoS for the identifier; 4 to 7 is an answer
// of that kind; `x` puts the reason into the lent byte of the identifier. A line is the row, then the number of the answer, what it gives, how
// many wait and what the identifier waits for; and of the lent bytes the answer's number, what it gives, whether they are a table, and how many wait.
#![tactic(auto)]

ghost use Rattle.std.specs.Prelude.{◌≤◌};

use c_inflight::{
    ecch_inflight_acked, ecch_inflight_claim, ecch_inflight_start, ecch_inflight_waiting,
};
use inflight::{Answer, Answered, ClaimError, InFlight, NotWaiting, code};
use records::ack_record::{Ack, AckKind};
use records::qos::QoS;

// ---- what a row says

fn digit(b: u8) -> u32
    ensures { result ≤ 9 }
{
    if b < 48 {
        return 0;
    }
    if 57 < b {
        return 0;
    }
    (b - 48) as u32
}

fn at(s: &[u8], i: usize) -> u32
    ensures { result ≤ 9 }
{
    match s.get(i) {
        Some(b) => digit(*b),
        None => 0,
    }
}

fn identifier(row: &[u8]) -> u16 {
    let n = at(row, 2) * 10000
        + at(row, 3) * 1000
        + at(row, 4) * 100
        + at(row, 5) * 10
        + at(row, 6);
    if 65535 < n {
        return 65535;
    }
    n as u16
}

fn reason(row: &[u8]) -> u8 {
    let n = at(row, 8) * 100 + at(row, 9) * 10 + at(row, 10);
    if 255 < n {
        return 255;
    }
    n as u8
}

fn first(row: &[u8]) -> u8 {
    row.first().copied().unwrap_or(0)
}

fn small(n: u16) -> u8 {
    if 255 < n {
        return 255;
    }
    n as u8
}

fn qos_of(n: u16) -> QoS {
    match n {
        0 => QoS::AtMostOnce,
        1 => QoS::AtLeastOnce,
        _ => QoS::ExactlyOnce,
    }
}

// ---- what is shown

fn say(n: u64) {
    io::write_all(1, b" ");
    io::print_decimal(1, n);
}

fn say_claim(claim: Result<u16, ClaimError>) {
    match claim {
        Ok(n) => {
            say(0);
            say(n as u64);
        }
        Err(ClaimError::InFlightFull) => {
            say(29);
            say(0);
        }
        Err(ClaimError::NoClaim) => {
            say(30);
            say(0);
        }
    }
}

fn say_answer(answer: Result<Answer, NotWaiting>) {
    match answer {
        Ok(Answer::Freed) => {
            say(0);
            say(0);
        }
        Ok(Answer::Moved) => {
            say(0);
            say(3);
        }
        Err(NotWaiting) => {
            say(31);
            say(0);
        }
    }
}

fn say_table(table: InFlight, id: u16) {
    say(table.waiting() as u64);
    let w = table.waits_for(id);
    say(code(w) as u64);
}

// ---- on a table by value

fn claims(table: InFlight, qos: u16) -> InFlight {
    let c = table.claim(qos_of(qos));
    say_claim(c.claim);
    c.table
}

fn acked(table: InFlight, kind: u8, id: u16, reason: u8) -> Answered {
    let ack = Ack {
        pkid: id,
        reason,
        properties: None,
    };
    let kind = match kind {
        52 => AckKind::PubAck,
        53 => AckKind::PubRec,
        54 => AckKind::PubRel,
        _ => AckKind::PubComp,
    };
    table.acked(kind, ack)
}

fn answers(table: InFlight, kind: u8, id: u16, reason: u8) -> InFlight {
    let a = acked(table, kind, id, reason);
    say_answer(a.answer);
    a.table
}

fn by_value(table: InFlight, what: u8, id: u16, reason: u8) -> InFlight {
    if what == 113 {
        return claims(table, id);
    }
    if what == 120 {
        return table;
    }
    answers(table, what, id, reason)
}

// ---- on lent bytes

fn say_lent(number: u32, answer: &[u64]) {
    say(number as u64);
    if let Some(n) = answer.first() {
        say(*n);
    }
}

fn lent_claim(codes: &mut [u8], qos: u8) {
    let mut answer: [u64; 1] = [77];
    let n = ecch_inflight_claim(qos, &mut *codes, &mut answer);
    say_lent(n, &answer);
}

fn lent_answer(codes: &mut [u8], kind: u8, id: u16, reason: u8) {
    let mut answer: [u64; 1] = [77];
    let n = ecch_inflight_acked(kind, id, reason, &mut *codes, &mut answer);
    say_lent(n, &answer);
}

fn lent_waiting(codes: &[u8]) {
    let mut answer: [u64; 1] = [77];
    let n = ecch_inflight_waiting(codes, &mut answer);
    say_lent(n, &answer);
}

fn damage(codes: &mut [u8], n: u16, b: u8) {
    if n == 0 {
        return;
    }
    let at = (n - 1) as usize;
    if at < codes.len() {
        codes[at] = b;
    }
}

// The kind that a digit says.
fn kind_of(what: u8) -> u8 {
    if what < 48 {
        return 0;
    }
    what - 48
}

fn lent(codes: &mut [u8], what: u8, id: u16, reason: u8) {
    if what == 113 {
        lent_claim(&mut *codes, small(id));
        return;
    }
    if what == 120 {
        damage(&mut *codes, id, reason);
        return;
    }
    lent_answer(&mut *codes, kind_of(what), id, reason);
}

// ---- the rows

fn turn(table: InFlight, codes: &mut [u8], row: &[u8]) -> InFlight {
    let what = first(row);
    let id = identifier(row);
    let reason = reason(row);
    io::write_all(1, row);
    io::write_all(1, b":");
    let left = by_value(table, what, id, reason);
    say_table(left, id);
    io::write_all(1, b" |");
    lent(&mut *codes, what, id, reason);
    lent_waiting(&*codes);
    io::write_all(1, b"\n");
    left
}

fn rows(codes: &mut [u8], text: &[u8]) {
    let (rows, _) = text.as_chunks::<12>();
    let mut table = InFlight::new();
    for row in rows {
        table = turn(table, &mut *codes, &row[..11]);
    }
}

fn main() {
    let mut buffer = io::large_buffer();
    let n = io::read_full(0, &mut buffer);
    let mut codes: [u8; 1024] = [9; 1024];
    say(ecch_inflight_start(&mut codes) as u64);
    io::write_all(1, b"\n");
    rows(&mut codes, &buffer[..n]);
}
