// What C and Rust call for topics by alias (02's P6): a message is learnt, and the topic in force is found. The layout of the array that is
// filled is in bindings/c/ecchjulmina.h.
ghost use Rattle.std.specs.Prelude.{◌≡◌};
ghost use Rattle.std.proofs.lemmas.List.Edits.{sets};
ghost use Rattle.reading.specs.Place.{held_of};
ghost use Rattle.c_layout.specs.Value.{fit_number};
ghost use Rattle.c_arguments.specs.Given.{maybe};
ghost use Rattle.alias.specs.Alias.{permit, table_after, in_force};
ghost use Rattle.c_alias.specs.Force.{force_numbers};

// Of a Publish whose own topic stands at a place of the stream: 0, or the refusal's number; the alias is set.
#[unsafe(no_mangle)]
pub extern "C" fn ecch_alias_learn(
    stream: &[u8],
    start: usize,
    len: usize,
    alias_on: u8,
    alias: u16,
    table: &mut [u8],
) -> u32
    ensures number { result ≡ fit_number (permit table.old (held_of stream.now (record { start = start; len = len })) (maybe alias_on alias)) }
    ensures after { table.new ≡ table_after table.old (held_of stream.now (record { start = start; len = len })) (maybe alias_on alias) }
{
    c_alias::ecch_alias_learn(stream, start, len, alias_on, alias, &mut *table)
}

// Where the topic in force of such a Publish lies: 0, or the refusal's number; which slice, start and length are stored.
#[unsafe(no_mangle)]
pub extern "C" fn ecch_topic_in_force(
    stream: &[u8],
    start: usize,
    len: usize,
    alias_on: u8,
    alias: u16,
    table: &[u8],
    into: &mut [u64],
) -> u32
    ensures number { result ≡ fit_number (in_force stream.now table.now (record { start = start; len = len }) (maybe alias_on alias)) }
    ensures stored { into.new ≡ sets into.old 0 (force_numbers (in_force stream.now table.now (record { start = start; len = len }) (maybe alias_on alias))) }
{
    c_alias::ecch_topic_in_force(stream, start, len, alias_on, alias, table, &mut *into)
}
