// What is returned of any answer and any item; what is stored of a size or a write.
ghost use Rattle.std.specs.Prelude.{◌≡◌};
ghost use Rattle.std.proofs.lemmas.List.Edits.{sets};
ghost use Rattle.records.specs.Answered.{told_size};
ghost use Rattle.c_layout.specs.Value.{fit_number, answered_number, item_number};
ghost use Rattle.c_layout.specs.Answer.{answer_numbers};

use crate::store::store;
use crate::value::{first_value, second_value};
use records::error::Error;
use refusal_numbers::{number, values};

// 0, or the refusal's number, of any answer.
pub fn answered_number<T: Copy>(answer: Result<T, Error>) -> u32
    ensures { result ≡ answered_number answer }
{
    match answer {
        Ok(_) => 0,
        Err(e) => number(e) as u32,
    }
}

// 0, or 21 if there is none, of any item.
pub fn item_number<T: Copy>(item: Option<T>) -> u32
    ensures { result ≡ item_number item }
{
    match item {
        Some(_) => 0,
        None => 21,
    }
}

fn written_numbers(written: Result<usize, Error>) -> [u64; 3]
    ensures { result ≡ answer_numbers (told_size written) }
{
    match written {
        Ok(n) => [n as u64, 0, 0],
        Err(e) => {
            let v = values(e);
            [0, first_value(v), second_value(v)]
        }
    }
}

// 0, or the refusal's number; the size or the refusal's values are stored.
pub fn store_written(written: Result<usize, Error>, into: &mut [u64]) -> u32
    ensures number { result ≡ fit_number (told_size written) }
    ensures stored { into.new ≡ sets into.old 0 (answer_numbers (told_size written)) }
{
    let numbers = written_numbers(written);
    store(&mut *into, &numbers);
    answered_number(written)
}

// The same of a size alone: the sizes of c_write answer by it, so that a size handed on as a refusal is the mistake of one function
// (must-fail/size_as_no_room).
pub fn store_size(size: Result<usize, Error>, into: &mut [u64]) -> u32
    ensures number { result ≡ fit_number (told_size size) }
    ensures stored { into.new ≡ sets into.old 0 (answer_numbers (told_size size)) }
{
    store_written(size, &mut *into)
}
