// A size, a write and their answers in 01's words, on standard output.
use records::error::Error;
use records::values::Values;
use refusal_numbers;

fn byte(b: u8) {
    io::write_all(1, b" ");
    io::print_hex(1, b as u64, 2);
}

// The bytes in hexadecimal, a space before each.
pub fn bytes(s: &[u8]) {
    for b in s {
        byte(*b);
    }
}

// A number behind the words before it.
fn number(words: &[u8], n: usize) {
    io::write_all(1, words);
    io::print_decimal(1, n as u64);
}

fn values(v: Values) {
    match v {
        Values::None => {}
        Values::One(n) => number(b" with ", n),
        Values::Two(m, n) => {
            number(b" with ", m);
            number(b", ", n);
        }
    }
}

// The number of the row, and its values.
fn refusal(words: &[u8], e: Error) {
    number(words, refusal_numbers::number(e) as usize);
    values(refusal_numbers::values(e));
}

pub fn sized(s: Result<usize, Error>) {
    match s {
        Ok(n) => number(b", size ", n),
        Err(e) => refusal(b", size refused ", e),
    }
}

pub fn written(w: Result<usize, Error>) {
    match w {
        Ok(n) => number(b", write ", n),
        Err(e) => refusal(b", write refused ", e),
    }
}

// The output ends a line; gives the count of rows.
pub fn output(rows: u64, out: &[u8]) -> u64 {
    io::write_all(1, b":");
    bytes(out);
    io::write_all(1, b"\n");
    std::num::wrapping_add_u64(rows, 1)
}
