// The variable length number as it is written, after `write_remaining_length` of v5/mod.rs: the shortest spelling, low group first.
// The put has no refusal: what does not fit puts nothing. `write_remaining_length` refuses.
#![tactic(auto)]

ghost use Rattle.std.specs.Prelude.{◌≡◌, ◌≤◌, ◌<◌};
ghost use Rattle.std.proofs.Math.ListN as list;
ghost use Rattle.std.proofs.lemmas.List.Edits.{sets};
ghost use Rattle.writing.specs.Spell.{short};
ghost use Rattle.writing.specs.Size.{most};
ghost use Rattle.writing.specs.Order.{number_test};
ghost use Rattle.records.specs.Answered.{told_size};
ghost use Rattle.write_numbers.specs.Leaf.{LeafWritten};
ghost use Rattle.write_lengths.specs.Fitting.{fit_short};

use records::error::Error;
use write_numbers::fixed::Fixed;
use write_sizes::{MOST, len_len};

fn put_groups(out: &mut [u8], at: usize, n: usize) -> usize
    requires { at < list.length out.old }
    ensures { (out.new ≡ sets out.old at (short n)) × (result ≡ list.length (short n)) }
{
    let mut rest = n;
    for i in 0..4 {
        if rest < 128 {
            (rest as u8).put(&mut *out, at + i);
            return i + 1;
        }
        ((rest % 128 + 128) as u8).put(&mut *out, at + i);
        rest /= 128;
    }
    4
}

// Puts the shortest spelling, and gives how many bytes it has.
fn put_fitting(out: &mut [u8], at: usize, n: usize) -> usize
    requires { n ≤ most }
    ensures { (out.new ≡ sets out.old at (short n)) × (result ≡ list.length (short n)) }
{
    if at < out.len() {
        put_groups(&mut *out, at, n)
    } else {
        len_len(n)
    }
}

// The same of any number: of one above 268,435,455 nothing is put, and the output stays as it stood.
pub fn put_length(out: &mut [u8], at: usize, n: usize) -> usize
    ensures { (out.new ≡ sets out.old at (fit_short n)) × (result ≡ list.length (fit_short n)) }
{
    if n <= MOST {
        return put_fitting(&mut *out, at, n);
    }
    0
}

// Writes the shortest spelling, and gives how many bytes it has: 17 above 268,435,455, then 19 with the size where there is no room; a refusal
// leaves the output as it stood.
pub fn write_remaining_length(out: &mut [u8], n: usize) -> Result<usize, Error>
    ensures { LeafWritten (number_test n) (short n) out.old out.new (told_size result) }
{
    if MOST < n {
        return Err(Error::PayloadTooLong);
    }
    let need = len_len(n);
    if out.len() < need {
        return Err(Error::NoRoom(need));
    }
    let size = put_fitting(&mut *out, 0, n);
    Ok(size)
}
