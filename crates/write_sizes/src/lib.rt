// How many bytes a length takes, after `len_len` of v5/mod.rs, and a row, after `len` of the properties in publish.rs, subscribe.rs and
// puback.rs. A sum is cut off one above the
// largest R, which is as much of it as refusal 17 needs: no sum can wrap.
#![tactic(auto)]

ghost use Rattle.std.specs.Prelude.{◌≡◌, ◌+◌, ◌≤◌};
ghost use Rattle.grammar.specs.Tables.{Form, number, pair};
ghost use Rattle.writing.specs.Handed.{several};
ghost use Rattle.writing.specs.Size.{len_len, with_length, given_size, cap};
ghost use Rattle.write_runs.specs.Given.{given_by, given_one, given_lent, given_pairs};

use write_numbers::fixed::Fixed;

// The largest number that can be spelled.
pub const MOST: usize = 268435455;

// How many bytes the shortest spelling has; four where the number is too large to spell.
pub fn len_len(n: usize) -> usize
    ensures { result ≡ len_len n }
{
    if n < 128 {
        1
    } else if n < 16384 {
        2
    } else if n < 2097152 {
        3
    } else {
        4
    }
}

// The sum, cut off just above the largest R.
pub fn add(a: usize, b: usize) -> usize
    ensures { result ≡ cap (a + b) }
{
    if MOST < a {
        return MOST + 1;
    }
    if MOST - a < b {
        return MOST + 1;
    }
    a + b
}

// n bytes with the spelling of their number in front, cut off.
pub fn with_length(n: usize) -> usize
    ensures { result ≡ cap (with_length n) }
{
    add(len_len(n), n)
}

// An identifier byte, and the shortest spelling.
fn number_size(n: u32) -> usize
    ensures { (result ≡ 1 + len_len n) × (result ≤ 5) }
{
    1 + len_len(n as usize)
}

// The bytes of a number of a fixed width that may be absent, its identifier byte among them; 0 if it is.
pub fn one_size<T: Fixed>(v: Option<T>) -> usize
    ensures { result ≡ cap (given_size T.form (given_by T.value v)) }
{
    match v {
        None => 0,
        Some(_) => 1 + T::WIDTH,
    }
}

// The same of a variable length number.
pub fn one_size_number(v: Option<u32>) -> usize
    ensures { result ≡ cap (given_size number (given_one v)) }
{
    match v {
        None => 0,
        Some(n) => number_size(n),
    }
}

// The same of text and of bytes.
pub fn lent_size(on: bool, s: &[u8]) -> usize
    ensures { (f : Form) → result ≡ cap (given_size f (given_lent on s.now)) }
{
    if on {
        return add(3, s.len());
    }
    0
}

// The same of all user properties.
pub fn pairs_size(bytes: &[u8], lengths: &[usize]) -> usize
    ensures { result ≡ cap (given_size pair (given_pairs bytes.now lengths.now)) }
{
    add(bytes.len(), 5 * (lengths.len() / 2))
}

// The same of all subscription identifiers.
pub fn ids_size(ids: &[u32]) -> usize
    ensures { result ≡ cap (given_size number (several ids.now)) }
{
    let mut n: usize = 0;
    for id in ids {
        n = add(n, number_size(*id));
    }
    n
}
