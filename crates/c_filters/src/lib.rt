// The filters of a Subscribe in a table that C lends as an array of numbers, three for an entry (02, P7); bindings/c/ecchjulmina.h has the
// words.
#![tactic(auto)]

ghost use Rattle.std.specs.Prelude.{◌≡◌, ◌+◌, ◌*◌, ◌≤◌, length};
ghost use Rattle.std.proofs.Math.Option.{none};
ghost use Rattle.std.proofs.lemmas.List.Edits.{sets};
ghost use Rattle.reading.specs.Place.{read_placed_of};
ghost use Rattle.packet.specs.PacketRead.{taken_in};
ghost use Rattle.filter_table.specs.Table.{told_table, entries_from};
ghost use Rattle.c_filters.specs.Numbers.{entry_numbers, numbers_of, places_in, said_of, table_number, answer_numbers, table_as};

use c_layout::store::store;
use c_layout::value::{first_value, second_value};
use filter_table::{FilterEntry, FilterTableError, entry_at, plan_of};
use refusal_numbers::{number, values};

fn entry_numbers(e: FilterEntry) -> [u64; 3]
    ensures { result ≡ entry_numbers e }
{
    [e.start as u64, e.len as u64, e.options as u64]
}

// The entry's numbers from index `at` of the table on.
fn put_entry(table: &mut [u64], at: usize, e: FilterEntry)
    requires { at + 3 ≤ length table.old }
    ensures { table.new ≡ sets table.old at (entry_numbers e) }
{
    let numbers = entry_numbers(e);
    store(&mut table[at..], &numbers);
}

// The n entries from index `at` of s on, from the table's start on.
fn put_entries(s: &[u8], at: usize, end: usize, n: usize, table: &mut [u64])
    requires { 3 * n ≤ length table.old }
    ensures { table.new ≡ sets table.old 0 (numbers_of (entries_from s.now end n at)) }
{
    let mut j = at;
    for i in 0..n {
        let e = entry_at(s, j, end);
        put_entry(&mut *table, 3 * i, e.entry);
        j = e.next;
    }
}

// 0, or the refusal's number.
fn table_number(found: Result<usize, FilterTableError>) -> u32
    ensures { result ≡ table_number (told_table found) }
{
    match found {
        Ok(_) => 0,
        Err(FilterTableError::FilterTableFull(_)) => 37,
        Err(FilterTableError::NotSubscribe) => 38,
        Err(FilterTableError::Refused(e)) => number(e) as u32,
    }
}

// The bytes taken, the refusal's values, and how many entries were filled.
fn table_numbers(found: Result<usize, FilterTableError>, taken: u64) -> [u64; 4]
    ensures { result ≡ answer_numbers taken (told_table found) }
{
    match found {
        Ok(n) => [taken, 0, 0, n as u64],
        Err(FilterTableError::FilterTableFull(needed)) => [taken, needed as u64, 0, 0],
        Err(FilterTableError::NotSubscribe) => [taken, 0, 0, 0],
        Err(FilterTableError::Refused(e)) => {
            let v = values(e);
            [taken, first_value(v), second_value(v), 0]
        }
    }
}

fn store_answer(found: Result<usize, FilterTableError>, taken: usize, answer: &mut [u64]) -> u32
    ensures number { result ≡ table_number (told_table found) }
    ensures stored { answer.new ≡ sets answer.old 0 (answer_numbers taken (told_table found)) }
{
    let numbers = table_numbers(found, taken as u64);
    store(&mut *answer, &numbers);
    table_number(found)
}

// The filters of the Subscribe at the start of the stream, read with no limit, in order: 0, or the refusal's number, 37 and 38 among them.
pub fn ecch_filter_table(stream: &[u8], table: &mut [u64], answer: &mut [u64]) -> u32
    ensures number { result ≡ table_number (said_of stream.now (places_in table.old)) }
    ensures filled { table.new ≡ table_as stream.now table.old }
    ensures stored { answer.new ≡ sets answer.old 0 (answer_numbers (taken_in (read_placed_of none stream.now)) (said_of stream.now (places_in table.old))) }
{
    let p = plan_of(stream, table.len() / 3);
    put_entries(stream, p.at, p.end, p.count, &mut *table);
    let found = p.answer;
    store_answer(found, p.taken, &mut *answer)
}
