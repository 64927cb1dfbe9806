// The next user property in a block, and the index after it: the caller keeps the position, as `walker::Walker` does.
ghost use Rattle.std.specs.Prelude.{◌≡◌};
ghost use Rattle.grammar.specs.Tables.{row_of_kind};
ghost use Rattle.records.specs.Answered.{told_user};
ghost use Rattle.c_layout.specs.Value.{fit_number};
ghost use Rattle.c_walk.specs.Next.{Steps, step_numbers, Stored};

use c_layout::answer::item_number;
use c_layout::store::store;
use kinds::row_of;
use records::span::Span;
use walker::{Step, step_at};

// In the row of a kind, if it has one.
fn step_given(frame: &[u8], kind: u8, at: usize, end: usize) -> Step
    ensures { Steps (row_of_kind kind) frame.now end at (told_user result.item) result.at }
{
    match row_of(kind) {
        Some(place) => step_at(frame, at, end, place),
        None => Step { item: None, at },
    }
}

fn step_numbers(next: usize, item: Option<(Span, Span)>) -> [u64; 5]
    ensures { result ≡ step_numbers next (told_user item) }
{
    match item {
        Some((k, v)) => [
            next as u64,
            k.start as u64,
            k.len as u64,
            v.start as u64,
            v.len as u64,
        ],
        None => [next as u64, 0, 0, 0, 0],
    }
}

// The next user property from an index on, in the bytes before another, in the row of a kind: 0, or 21 when there is none left.
pub fn ecch_next_user(frame: &[u8], kind: u8, at: usize, end: usize, into: &mut [u64]) -> u32
    ensures { Stored (row_of_kind kind) frame.now end at result into.old into.new }
{
    let t = step_given(frame, kind, at, end);
    let item = t.item;
    let numbers = step_numbers(t.at, item);
    store(&mut *into, &numbers);
    item_number(item)
}
