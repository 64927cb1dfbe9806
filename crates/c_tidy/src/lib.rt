// The tidy form of a frame (02, P14), as C asks for it; bindings/c/ecchjulmina.h has the words.
#![tactic(auto)]

ghost use Rattle.std.specs.Prelude.{◌≡◌, length};
ghost use Rattle.std.proofs.lemmas.List.Edits.{sets};
ghost use Rattle.tidying.specs.Tidied.{told_tidied, tidied_of, size_in, stands_in};
ghost use Rattle.c_tidy.specs.Numbers.{tidy_number, tidy_numbers};

use c_layout::store::store;
use c_layout::value::{first_value, second_value};
use refusal_numbers::{number, values};
use tidying::{Tidied, tidy};

// 0, or the refusal's number.
fn tidied_number(t: Tidied) -> u32
    ensures { result ≡ tidy_number (told_tidied t) }
{
    match t {
        Ok(_) => 0,
        Err((e, _)) => number(e) as u32,
    }
}

// The size or the refusal's values, and the bytes taken.
fn tidied_numbers(t: Tidied) -> [u64; 4]
    ensures { result ≡ tidy_numbers (told_tidied t) }
{
    match t {
        Ok((size, taken)) => [size as u64, 0, 0, taken as u64],
        Err((e, taken)) => {
            let v = values(e);
            [0, first_value(v), second_value(v), taken as u64]
        }
    }
}

// The answer's numbers are stored.
fn store_tidied(t: Tidied, answer: &mut [u64]) -> u32
    ensures number { result ≡ tidy_number (told_tidied t) }
    ensures stored { answer.new ≡ sets answer.old 0 (tidy_numbers (told_tidied t)) }
{
    let numbers = tidied_numbers(t);
    store(&mut *answer, &numbers);
    tidied_number(t)
}

// The tidy form of the frame at the start of the stream, put at the start of `out`: 0, or the refusal's number.
pub fn ecch_tidy(stream: &[u8], out: &mut [u8], answer: &mut [u64]) -> u32
    ensures number { result ≡ tidy_number (size_in (tidied_of stream.now (length out.old))) }
    ensures put { out.new ≡ stands_in out.old (tidied_of stream.now (length out.old)) }
    ensures stored { answer.new ≡ sets answer.old 0 (tidy_numbers (size_in (tidied_of stream.now (length out.old)))) }
{
    let t = tidy(stream, &mut *out);
    store_tidied(t, &mut *answer)
}
