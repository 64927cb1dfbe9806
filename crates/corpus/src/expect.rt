// What the file says of an answer and of an output, held to what the port gave.
use crate::{file, row};

// The numbers of a stored answer, each at its index, and 0 at every other.
fn stored(f: &[u8], at: usize) -> [u64; 256] {
    let mut numbers = [0; 256];
    let n = file::byte(f, file::after(f, at, 1), 0);
    let mut next = file::after(f, at, 2);
    for _ in 0..n {
        numbers[file::byte(f, next, 0) as usize] = file::number(f, file::after(f, next, 1), 4);
        next = file::after(f, next, 5);
    }
    numbers
}

// The k-th number from an index on.
pub fn number(numbers: &[u64], from: usize, k: usize) -> u64 {
    let at = std::num::wrapping_add_usize(from, k);
    numbers.get(at).copied().unwrap_or(0)
}

// Are they the stored numbers, and is every stored number past their end 0?
fn same_numbers(a: &[u64], stored: &[u64]) -> bool {
    stored
        .iter()
        .enumerate()
        .all(|(k, n)| number(a, 0, k) == *n)
}

// Is the answer as the k-th field says: the refusal's number or 0, and every number of the array? k if it is not.
pub fn answer(f: &[u8], v: &[usize], k: usize, refusal: u32, numbers: &[u64]) -> usize {
    let at = file::value(v, k);
    if file::byte(f, at, 0) as u32 != refusal {
        return k;
    }
    let expected = stored(f, at);
    if same_numbers(numbers, &expected) {
        return row::AS_STORED;
    }
    k
}

// The answers of a size and of the write.
pub fn answers(
    f: &[u8],
    v: &[usize],
    size: u32,
    sized: &[u64],
    refusal: u32,
    written: &[u64],
) -> usize {
    let fault = answer(f, v, row::SIZE, size, sized);
    if fault != row::AS_STORED {
        return fault;
    }
    answer(f, v, row::ANSWER, refusal, written)
}

// An output before the call.
pub fn filled(b: u8) -> [u8; 128] {
    [b; 128]
}

// Has the output what is put, and b in every byte after it?
pub fn is_output(out: &[u8], put: &[u8], b: u8) -> bool {
    match out.split_at_checked(put.len()) {
        None => false,
        Some((front, rest)) => front == put && rest.iter().all(|x| *x == b),
    }
}
