// A row has four bytes, and a space behind them. `-` and `@` to `Q` are a message with no alias, or with alias 0 to 17; `<` and `>` one with no
// alias on a table that is a byte too short or too long: then the length of its topic, two letters from `a`, sixteen to the first, and the
// letter that the topic repeats. `!` damages the length byte of an alias; `0` begins with a fresh table.
ghost use Rattle.std.specs.Prelude.{◌≤◌};

use alias::{AliasError, Placed};
use records::span::Span;
use wire::string;

fn fresh() -> [u8; 2064] {
    [0; 2064]
}

fn short() -> [u8; 2063] {
    [0; 2063]
}

fn long() -> [u8; 2065] {
    [0; 2065]
}

// ---- what a row says

// A letter from `a`.
fn digit(b: u8) -> usize
    ensures { result ≤ 255 }
{
    b.saturating_sub(b'a') as usize
}

fn length(x: u8, y: u8) -> usize {
    let high = digit(x);
    let low = digit(y);
    high * 16 + low
}

fn byte(n: usize) -> u8 {
    u8::try_from(n).unwrap_or(255)
}

fn alias_of(b: u8) -> Option<u16> {
    b.checked_sub(b'@').map(u16::from)
}

// ---- what is shown of an answer

fn answer(j: Result<(), AliasError>) -> u64 {
    match j {
        Ok(()) => 0,
        Err(e) => alias::number(e) as u64,
    }
}

fn slice(p: Result<Placed, AliasError>) -> u64 {
    match p {
        Ok(Placed::InPacket(_)) => 1,
        Ok(Placed::InTable(_)) => 2,
        Err(_) => 0,
    }
}

fn place(p: Result<Placed, AliasError>) -> Span {
    match p {
        Ok(Placed::InPacket(q)) => q,
        Ok(Placed::InTable(q)) => q,
        Err(_) => Span { start: 0, len: 0 },
    }
}

// The first letter; `-` if there is none.
fn first(s: &[u8]) -> u8 {
    s.first().copied().unwrap_or(b'-')
}

fn letter(packet: &[u8], table: &[u8], p: Result<Placed, AliasError>) -> u8 {
    match p {
        Ok(Placed::InPacket(q)) => first(string::part(packet, q)),
        Ok(Placed::InTable(q)) => first(string::part(table, q)),
        Err(_) => b'-',
    }
}

// Each byte counts as often as its index says, from 1: once in each turn from its own on.
fn sum(table: &[u8]) -> u64 {
    let mut bytes: u64 = 0;
    let mut n: u64 = 0;
    for b in table.iter().rev() {
        bytes = bytes.wrapping_add(*b as u64);
        n = n.wrapping_add(bytes);
    }
    n
}

fn number(n: u64) {
    io::write_all(1, b" ");
    io::print_decimal(1, n);
}

fn show_place(p: Result<Placed, AliasError>) {
    let q = place(p);
    number(slice(p));
    number(q.start as u64);
    number(q.len as u64);
}

fn show(row: &[u8], packet: &[u8], table: &[u8], n: u64, p: Result<Placed, AliasError>) {
    io::write_all(1, row);
    io::write_all(1, b":");
    number(n);
    show_place(p);
    io::write_all(1, b" ");
    io::write_all(1, &[letter(packet, table, p)]);
    number(sum(table));
    io::write_all(1, b"\n");
}

// ---- the rows

// A message whose topic stands at `own` of the packet: learnt, and looked up; gives the answer's number.
fn message(table: &mut [u8], row: &[u8], packet: &[u8], own: Span, alias: Option<u16>) -> u64 {
    let judged = alias::learn_topic(&mut *table, string::part(packet, own), alias);
    let n = answer(judged);
    let found = alias::find_topic(packet, &*table, own, alias);
    show(row, packet, &*table, n, found);
    n
}

fn message_short(row: &[u8], packet: &[u8], own: Span) -> u64 {
    let mut table = short();
    message(&mut table, row, packet, own, None)
}

fn message_long(row: &[u8], packet: &[u8], own: Span) -> u64 {
    let mut table = long();
    message(&mut table, row, packet, own, None)
}

// By the table that the row says.
fn message_by(table: &mut [u8], row: &[u8], what: u8, packet: &[u8], own: Span) -> u64 {
    match what {
        b'<' => message_short(row, packet, own),
        b'>' => message_long(row, packet, own),
        _ => message(&mut *table, row, packet, own, alias_of(what)),
    }
}

fn message_of(table: &mut [u8], row: &[u8], what: u8, len: usize, letter: u8) -> u64 {
    let packet = [letter; 256];
    message_by(&mut *table, row, what, &packet, Span { start: 0, len })
}

// The byte at an index, if there is one.
fn damage(table: &mut [u8], at: usize, b: u8) {
    if at < table.len() {
        table[at] = b;
    }
}

// Where the length byte of an alias stands.
fn length_byte(b: u8) -> usize {
    b.saturating_sub(b'A') as usize * 129
}

// The count with one more, and in the upper half the refusals.
fn counted(count: u64, n: u64) -> u64 {
    count.wrapping_add(if n == 0 { 1 } else { 4294967297 })
}

fn row(table: &mut [u8], count: u64, what: u8, x: u8, y: u8, z: u8, text: &[u8]) -> u64 {
    match what {
        b'0' => {
            table.fill(0);
            count
        }
        b'!' => {
            damage(&mut *table, length_byte(x), byte(length(y, z)));
            count
        }
        _ => counted(count, message_of(&mut *table, text, what, length(x, y), z)),
    }
}

fn rows(table: &mut [u8], text: &[u8]) -> u64 {
    let mut count: u64 = 0;
    for r in text.chunks_exact(5) {
        if let [what, x, y, z, _] = r {
            count = row(
                &mut *table,
                count,
                *what,
                *x,
                *y,
                *z,
                string::part(r, Span { start: 0, len: 4 }),
            );
        }
    }
    count
}

pub fn replay(text: &[u8]) {
    let mut table = fresh();
    let count = rows(&mut table, text);
    io::print_decimal(1, count % 4294967296);
    io::write_all(1, b" messages, ");
    io::print_decimal(1, count / 4294967296);
    io::write_all(1, b" refused\n");
}
