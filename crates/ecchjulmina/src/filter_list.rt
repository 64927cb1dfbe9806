// The filters of a Subscribe in a table that C lends as an array of numbers, three for an entry (02, P7); bindings/c/ecchjulmina.h has the
// words.
ghost use Rattle.std.specs.Prelude.{◌≡◌};
ghost use Rattle.std.proofs.Math.Option.{none};
ghost use Rattle.std.proofs.lemmas.List.Edits.{sets};
ghost use Rattle.reading.specs.Place.{read_placed_of};
ghost use Rattle.packet.specs.PacketRead.{taken_in};
ghost use Rattle.c_filters.specs.Numbers.{places_in, said_of, table_number, answer_numbers, table_as};

// The filters of the Subscribe at the start of the stream, read with no limit, in order: 0, or the refusal's number, 37 and 38 among them.
#[unsafe(no_mangle)]
pub extern "C" fn ecch_filter_table(stream: &[u8], table: &mut [u64], answer: &mut [u64]) -> u32
    ensures number { result ≡ table_number (said_of stream.now (places_in table.old)) }
    ensures filled { table.new ≡ table_as stream.now table.old }
    ensures stored { answer.new ≡ sets answer.old 0 (answer_numbers (taken_in (read_placed_of none stream.now)) (said_of stream.now (places_in table.old))) }
{
    c_filters::ecch_filter_table(stream, &mut *table, &mut *answer)
}
