// The bytes of a row, after `write` of the properties in publish.rs, subscribe.rs and puback.rs, and a frame's first bytes: each function
// puts them at an index of an output and gives how many they are. What would lie past the end is not stored, and of a number or a string that
// does not fit nothing is put. The rows that are lists are
// put by `write_lists`.
#![tactic(auto)]

ghost use Rattle.std.specs.Prelude.{◌∷◌, [], ◌≤◌};
ghost use Rattle.grammar.specs.Tables.{Form, number};
ghost use Rattle.writing.specs.Spell.{row_bytes};
ghost use Rattle.write_lengths.specs.Fitting.{fit_short};
ghost use Rattle.write_runs.specs.Given.{given_by, given_one, given_lent};
ghost use Rattle.write_properties.specs.Put.{Put};
ghost use Rattle.write_properties.specs.Behind.{Behind};
ghost use Rattle.write_properties.specs.Fitting.{fit_row};

use write_lengths::put_length;
use write_numbers::fixed::Fixed;
use write_runs::run;
use write_strings::put_string;

// An identifier byte; gives the index after it, the end at most.
pub fn put_id(out: &mut [u8], at: usize, id: u8) -> usize
    ensures { Behind out.old at (id ∷ []) out.new result }
{
    id.put(&mut *out, at);
    run::after(out.len(), at, 1)
}

// A number of a fixed width that may be absent, its identifier byte before it.
pub fn put_if<T: Fixed>(out: &mut [u8], at: usize, id: u8, v: Option<T>) -> usize
    ensures { Put out.old at (row_bytes (id, T.form) (given_by T.value v)) out.new result }
{
    match v {
        None => 0,
        Some(n) => {
            let next = put_id(&mut *out, at, id);
            n.put(&mut *out, next);
            1 + T::WIDTH
        }
    }
}

// A byte, and behind it the shortest spelling, of four bytes at most.
fn put_counted(out: &mut [u8], at: usize, first: u8, n: usize) -> usize
    ensures { Put out.old at (first ∷ fit_short n) out.new result × (result ≤ 5) }
{
    let next = put_id(&mut *out, at, first);
    1 + put_length(&mut *out, next, n)
}

// The first byte of a frame, and R.
pub fn put_header(out: &mut [u8], first: u8, rest: usize) -> usize
    ensures { Put out.old 0 (first ∷ fit_short rest) out.new result }
{
    put_counted(&mut *out, 0, first, rest)
}

// An identifier byte, and a variable length number.
pub fn put_number(out: &mut [u8], at: usize, id: u8, n: u32) -> usize
    ensures { Put out.old at (id ∷ fit_short n) out.new result × (result ≤ 5) }
{
    put_counted(&mut *out, at, id, n as usize)
}

// The same of a variable length number.
pub fn put_number_if(out: &mut [u8], at: usize, id: u8, v: Option<u32>) -> usize
    ensures { Put out.old at (fit_row (id, number) (given_one v)) out.new result }
{
    match v {
        None => 0,
        Some(n) => put_number(&mut *out, at, id, n),
    }
}

// Text or bytes that may be absent, the identifier byte before them.
pub fn put_lent(out: &mut [u8], at: usize, id: u8, on: bool, s: &[u8]) -> usize
    ensures { (f : Form) → Put out.old at (fit_row (id, f) (given_lent on s.now)) out.new result }
{
    if on {
        let next = put_id(&mut *out, at, id);
        return 1 + put_string(&mut *out, next, s);
    }
    0
}
