// The property, filter or topic at an index of a block or run of the stream, and the index after it: a list walked item by item costs each
// byte once.
ghost use Rattle.std.specs.Prelude.{◌≡◌};
ghost use Rattle.std.proofs.lemmas.List.Edits.{sets};
ghost use Rattle.c_layout.specs.Value.{fit_number};
ghost use Rattle.c_layout_item.specs.Next.{property_numbers, next_filter_numbers, next_topic_numbers};
ghost use Rattle.c_arguments.specs.UpTo.{property_up_to, filter_up_to, topic_up_to};

// Identifier and value of the property at an index of a block that ends where C says: 0, or the refusal's number. What came before it is not
// known, so it is never 22.
#[unsafe(no_mangle)]
pub extern "C" fn ecch_property(
    stream: &[u8],
    kind: u8,
    at: usize,
    end: usize,
    into: &mut [u64],
) -> u32
    ensures number { result ≡ fit_number (property_up_to kind stream.now at end) }
    ensures stored { into.new ≡ sets into.old 0 (property_numbers (property_up_to kind stream.now at end)) }
{
    c_read::next::ecch_property(stream, kind, at, end, &mut *into)
}

// Text and options of the filter at an index of a run that ends where C says: 0, or the refusal's number.
#[unsafe(no_mangle)]
pub extern "C" fn ecch_next_filter(stream: &[u8], at: usize, end: usize, into: &mut [u64]) -> u32
    ensures number { result ≡ fit_number (filter_up_to stream.now at end) }
    ensures stored { into.new ≡ sets into.old 0 (next_filter_numbers (filter_up_to stream.now at end)) }
{
    c_read::next::ecch_next_filter(stream, at, end, &mut *into)
}

// Where the topic at an index of a run that ends where C says stands: 0, or the refusal's number.
#[unsafe(no_mangle)]
pub extern "C" fn ecch_next_topic(stream: &[u8], at: usize, end: usize, into: &mut [u64]) -> u32
    ensures number { result ≡ fit_number (topic_up_to stream.now at end) }
    ensures stored { into.new ≡ sets into.old 0 (next_topic_numbers (topic_up_to stream.now at end)) }
{
    c_read::next::ecch_next_topic(stream, at, end, &mut *into)
}
