// The bytes of the rows that are lists, user properties and subscription identifiers, after `write` of the properties in publish.rs,
// subscribe.rs and puback.rs: put at an index of an output, as `write_properties` puts the other rows.
#![tactic(auto)]

ghost use Rattle.std.specs.Prelude.{◌≡◌, false, ◌∷◌, ◌++◌, ◌+◌, ◌*◌, ◌^◌, ◌≤◌, ◌<◌, length, drop};
ghost use Rattle.grammar.specs.Tables.{number, pair};
ghost use Rattle.writing.specs.Handed.{several};
ghost use Rattle.write_runs.specs.Given.{given_pairs};
ghost use Rattle.write_strings.specs.Fitting.{fit_string};
ghost use Rattle.write_properties.specs.Put.{Put};
ghost use Rattle.write_properties.specs.Fitting.{fit_row};

use write_properties::{put_id, put_number};
use write_runs::run;
use write_strings::put_string;

// A pair wherever it stands: each place is cut off at the end of the output.
fn put_pair(out: &mut [u8], at: usize, key: &[u8], value: &[u8]) -> usize
    requires { length key.now + length value.now + 5 < 2 ^ 64 }
    ensures { Put out.old at (38 ∷ (fit_string key.now ++ fit_string value.now)) out.new result }
{
    let next = put_id(&mut *out, at, 38);
    let k = put_string(&mut *out, next, key);
    let last = run::after(out.len(), at, 1 + k);
    let v = put_string(&mut *out, last, value);
    1 + k + v
}

// A pair for which there is room: places are plain sums, and so the compiler leaves out the tests of each put.
fn lay_pair(out: &mut [u8], at: usize, key: &[u8], value: &[u8]) -> usize
    requires { at + (5 + length key.now + length value.now) ≤ length out.old }
    ensures { Put out.old at (38 ∷ (fit_string key.now ++ fit_string value.now)) out.new result }
{
    let next = put_id(&mut *out, at, 38);
    let k = put_string(&mut *out, next, key);
    let v = put_string(&mut *out, at + (1 + k), value);
    1 + k + v
}

// Pairs from the length `first` on, which is of the string at `start`: the strings that the lengths cut the run into, two by two.
fn cut_pairs(
    out: &mut [u8],
    at: usize,
    bytes: &[u8],
    start: usize,
    lengths: &[usize],
    first: usize,
) -> usize
    requires { (start ≤ length bytes.now) × (first ≤ length lengths.now) }
    ensures { Put out.old at (fit_row (38, pair) (given_pairs (drop start bytes.now) (drop first lengths.now))) out.new result × (2 * result + (2 * start + 5 * first) ≤ 2 * length bytes.now + 5 * length lengths.now) }
{
    let mut n: usize = 0;
    let mut from = start;
    let mut i = first;
    // by index, not `chunks_exact(2)`: it goes on at the length where `lay_pairs` stopped
    while i + 1 < lengths.len() {
        let k = lengths[i];
        let v = lengths[i + 1];
        let mid = run::after(bytes.len(), from, k);
        let to = run::after(out.len(), at, n);
        n = n
            + put_pair(
                &mut *out,
                to,
                run::piece(bytes, from, k),
                run::piece(bytes, mid, v),
            );
        from = run::after(bytes.len(), mid, v);
        i = i + 2;
    }
    n
}

// Whether strings of k and v bytes are longer than a string can be, or more than `left` bytes of a run have, or their pair more than `room`.
fn is_cut(room: usize, left: usize, k: usize, v: usize) -> bool
    ensures { result ≡ false → (k + v ≤ left) × (5 + (k + v) ≤ room) }
{
    if 65535 < k {
        return true;
    }
    if 65535 < v {
        return true;
    }
    if left < k {
        return true;
    }
    if left - k < v {
        return true;
    }
    if room < 5 {
        return true;
    }
    room - 5 < k + v
}

// Pairs as long as their strings fit, the run has them and the output has room for them; the rest are cut off.
fn lay_pairs(out: &mut [u8], at: usize, bytes: &[u8], lengths: &[usize]) -> usize
    requires { at ≤ length out.old }
    ensures { Put out.old at (fit_row (38, pair) (given_pairs bytes.now lengths.now)) out.new result }
{
    let mut n: usize = 0;
    let mut from: usize = 0;
    let mut i: usize = 0;
    // by index, not `chunks_exact(2)`: the index is handed on to `cut_pairs`
    while i + 1 < lengths.len() {
        let k = lengths[i];
        let v = lengths[i + 1];
        if is_cut(out.len() - at - n, bytes.len() - from, k, v) {
            return n + cut_pairs(&mut *out, at + n, bytes, from, lengths, i);
        }
        let mid = from + k;
        let end = mid + v;
        n = n + lay_pair(&mut *out, at + n, &bytes[from..mid], &bytes[mid..end]);
        from = end;
        i = i + 2;
    }
    n
}

// User properties one after the other.
pub fn put_pairs(out: &mut [u8], at: usize, bytes: &[u8], lengths: &[usize]) -> usize
    ensures { Put out.old at (fit_row (38, pair) (given_pairs bytes.now lengths.now)) out.new result }
{
    if out.len() < at {
        return cut_pairs(&mut *out, at, bytes, 0, lengths, 0);
    }
    lay_pairs(&mut *out, at, bytes, lengths)
}

// Subscription identifiers one after the other.
pub fn put_ids(out: &mut [u8], at: usize, ids: &[u32]) -> usize
    ensures { Put out.old at (fit_row (11, number) (several ids.now)) out.new result }
{
    let mut n: usize = 0;
    for id in ids {
        let to = run::after(out.len(), at, n);
        n += put_number(&mut *out, to, 11, *id);
    }
    n
}
