// Shows a journal of P11: desk_journal FILE [FILE]. A line for each block, good or not, with its number, and below it the identifiers that wait
// and for what; at the end what a recovery takes. What is said of a block is `look` of crates/journal, what is taken `recover`.
#![tactic(auto)]

use inflight::{InFlight, code};
use journal::{FindError, Recovered, look, recover};
use std::io::{Error, Print, Stdout};
use std::process::ExitCode;

// The system's number where nobody takes any more what is written.
const BROKEN_PIPE: i32 = 32;

fn say(to: Stdout, s: &[u8]) -> Result<(), Error> {
    Print::write_all(&to, s)
}

fn number(to: Stdout, n: u64) -> Result<(), Error> {
    to.print(n)
}

fn state(to: Stdout, x: u8) -> Result<(), Error> {
    match x {
        1 => say(to, b" PubAck"),
        2 => say(to, b" PubRec"),
        3 => say(to, b" PubComp"),
        0 | 4..=255 => Ok(()),
    }
}

// An identifier that waits.
fn identifier(to: Stdout, id: u16, x: u8) -> Result<(), Error> {
    if x == 0 {
        return Ok(());
    }
    say(to, b" ")?;
    number(to, id as u64)?;
    state(to, x)
}

// What waits, in one line.
fn waits(to: Stdout, table: InFlight) -> Result<(), Error> {
    for id in 1..=1024 {
        identifier(to, id, code(table.waits_for(id)))?;
    }
    say(to, b"\n")
}

// `empty` is said where there is no table.
fn found(to: Stdout, r: Recovered, empty: &[u8]) -> Result<(), Error> {
    match r.found {
        Ok(n) => {
            say(to, b"number ")?;
            number(to, n)?;
            say(to, b" waiting ")?;
            number(to, r.table.waiting() as u64)?;
            waits(to, r.table)
        }
        Err(FindError::BadArea) => say(to, b"32 BadArea\n"),
        Err(FindError::JournalEmpty) => say(to, empty),
    }
}

fn one(to: Stdout, area: &[u8], i: usize) -> Result<(), Error> {
    say(to, b"block ")?;
    number(to, i as u64)?;
    say(to, b": ")?;
    found(to, look(area, i), b"not good\n")
}

fn show(to: Stdout, area: &[u8]) -> Result<(), Error> {
    for i in 0..area.len() / 512 {
        one(to, area, i)?;
    }
    say(to, b"recovered: ")?;
    found(to, recover(area), b"33 JournalEmpty\n")
}

// The file's first 65,536 bytes. Only what standard output does not take is handed back.
fn file(rt: HostRuntime, name: &[u8]) -> Result<(), Error> {
    match outside::open(&rt, name) {
        Err(e) => {
            outside::fail(rt.stderr(), name, outside::number_of(e));
            Ok(())
        }
        Ok(mut file) => {
            let mut area = area_buffer();
            let n = outside::read_full(&mut file, &mut area);
            show(rt.stdout(), &area[..n])
        }
    }
}

// 64 KiB
fn area_buffer() -> [u8; 65536] {
    [0; 65536]
}

// The file that is named by word i, if there is one.
fn named(rt: HostRuntime, i: usize) -> Result<(), Error> {
    if outside::word_count(&rt) <= i {
        return Ok(());
    }
    let mut path = outside::word_buffer();
    let n = outside::word(&rt, i, &mut path).unwrap_or(0);
    file(rt, &path[..n])
}

fn both(rt: HostRuntime) -> Result<(), Error> {
    named(rt, 1)?;
    named(rt, 2)
}

// Where nobody reads on, it ends as a program that the signal ends, and says nothing.
fn main(rt: HostRuntime) -> ExitCode {
    match both(rt) {
        Ok(()) => ExitCode::SUCCESS,
        Err(e) => {
            let n = outside::number_of(e);
            if n == BROKEN_PIPE {
                return ExitCode::from(141);
            }
            outside::fail(rt.stderr(), b"desk: standard output", n);
            ExitCode::FAILURE
        }
    }
}
