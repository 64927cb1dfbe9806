// What C and Rust call for topics by alias (02's P6): a message is learnt, and the topic in force is found. The layout of the array that is
// filled is in bindings/c/ecchjulmina.h.
#![tactic(auto)]

ghost use Rattle.std.specs.Prelude.{◌≡◌};
ghost use Rattle.std.proofs.lemmas.List.Edits.{sets};
ghost use Rattle.reading.specs.Place.{held_of};
ghost use Rattle.c_layout.specs.Value.{fit_number};
ghost use Rattle.c_arguments.specs.Given.{maybe};
ghost use Rattle.alias.specs.Alias.{permit, table_after, in_force};
ghost use Rattle.alias.specs.AliasAnswer.{told_placed};
ghost use Rattle.c_alias.specs.Force.{answered_number, force_numbers};

use alias::{AliasError, Placed};
use c_arguments::number::given;
use c_layout::store::store;
use records::span::Span;
use wire::string;

// 0, or the refusal's number, of a message learnt and of a topic found.
fn answered_number<T: Copy>(answer: Result<T, AliasError>) -> u32
    ensures { result ≡ answered_number answer }
{
    match answer {
        Ok(_) => 0,
        Err(e) => alias::number(e) as u32,
    }
}

fn force_numbers(placed: Result<Placed, AliasError>) -> [u64; 3]
    ensures { result ≡ force_numbers (told_placed placed) }
{
    match placed {
        Ok(Placed::InPacket(p)) => [1, p.start as u64, p.len as u64],
        Ok(Placed::InTable(p)) => [2, p.start as u64, p.len as u64],
        Err(_) => [0, 0, 0],
    }
}

// 0, or the refusal's number; the numbers of the layout are stored.
fn store_placed(placed: Result<Placed, AliasError>, into: &mut [u64]) -> u32
    ensures number { result ≡ fit_number (told_placed placed) }
    ensures stored { into.new ≡ sets into.old 0 (force_numbers (told_placed placed)) }
{
    let numbers = force_numbers(placed);
    store(&mut *into, &numbers);
    answered_number(placed)
}

// Of a Publish whose own topic stands at a place of the stream: 0, or the refusal's number; the alias is set.
pub fn ecch_alias_learn(
    stream: &[u8],
    start: usize,
    len: usize,
    alias_on: u8,
    alias: u16,
    table: &mut [u8],
) -> u32
    ensures number { result ≡ fit_number (permit table.old (held_of stream.now (record { start = start; len = len })) (maybe alias_on alias)) }
    ensures after { table.new ≡ table_after table.old (held_of stream.now (record { start = start; len = len })) (maybe alias_on alias) }
{
    let alias = given(alias_on, alias);
    let topic = string::part(stream, Span { start, len });
    let judged = alias::learn_topic(&mut *table, topic, alias);
    answered_number(judged)
}

// Where the topic in force of such a Publish lies: 0, or the refusal's number; which slice, start and length are stored.
pub fn ecch_topic_in_force(
    stream: &[u8],
    start: usize,
    len: usize,
    alias_on: u8,
    alias: u16,
    table: &[u8],
    into: &mut [u64],
) -> u32
    ensures number { result ≡ fit_number (in_force stream.now table.now (record { start = start; len = len }) (maybe alias_on alias)) }
    ensures stored { into.new ≡ sets into.old 0 (force_numbers (in_force stream.now table.now (record { start = start; len = len }) (maybe alias_on alias))) }
{
    let alias = given(alias_on, alias);
    let placed = alias::find_topic(stream, table, Span { start, len }, alias);
    store_placed(placed, &mut *into)
}
