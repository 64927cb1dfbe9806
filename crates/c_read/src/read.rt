// The packet at the start of a stream, and the part at a place.
ghost use Rattle.std.specs.Prelude.{◌≡◌};
ghost use Rattle.std.proofs.lemmas.List.Edits.{sets};
ghost use Rattle.reading.specs.Reader.{guard};
ghost use Rattle.reading.specs.Place.{read_placed_of, lies_in, no_item};
ghost use Rattle.reading.specs.Bounds.{bounds_of};
ghost use Rattle.c_layout.specs.Value.{fit_number};
ghost use Rattle.c_layout_read.specs.Record.{read_number, encoded};
ghost use Rattle.c_arguments.specs.Given.{limit_given};

use c_arguments::number::bound;
use c_layout_read::store_read;
use records::span::Span;
use wire::string;

// 0, or the refusal's number; the numbers of the layout are stored, as many as the array holds.
pub fn ecch_read(stream: &[u8], limited: u8, limit: usize, into: &mut [u64]) -> u32
    ensures number { result ≡ read_number (read_placed_of (limit_given limited limit) stream.now) }
    ensures stored { into.new ≡ sets into.old 0 (encoded (read_placed_of (limit_given limited limit) stream.now) (bounds_of (limit_given limited limit) stream.now)) }
{
    let read = packet::read(stream, bound(limited, limit));
    store_read(read, &mut *into)
}

// 0 if all of the place lies within the stream, an empty one too; else 21.
pub fn ecch_part(stream: &[u8], start: usize, len: usize) -> u32
    ensures { result ≡ fit_number (guard (lies_in stream.now (record { start = start; len = len })) no_item) }
{
    if string::within(stream, Span { start, len }) {
        return 0;
    }
    21
}
