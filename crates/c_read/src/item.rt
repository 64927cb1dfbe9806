// The n-th item of a list at a place of the stream.
ghost use Rattle.std.specs.Prelude.{◌≡◌};
ghost use Rattle.std.proofs.lemmas.List.Edits.{sets};
ghost use Rattle.reading.specs.Place.{as_places, subscription_at, filter_at, topic_at};
ghost use Rattle.c_layout.specs.Value.{fit_number};
ghost use Rattle.c_layout_item.specs.Item.{user_numbers, identifier_numbers, filter_numbers, reason_numbers, topic_numbers};
ghost use Rattle.c_arguments.specs.Kind.{user_of, reason_given};

use c_arguments::kind::{reason_item, user_item};
use c_layout_item;
use records::span::Span;

// Key and value of the n-th user property of a kind's block: 0, or 21.
pub fn ecch_user_property(
    stream: &[u8],
    kind: u8,
    start: usize,
    len: usize,
    n: usize,
    into: &mut [u64],
) -> u32
    ensures number { result ≡ fit_number (user_of kind stream.now (record { start = start; len = len }) n) }
    ensures stored { into.new ≡ sets into.old 0 (user_numbers (user_of kind stream.now (record { start = start; len = len }) n)) }
{
    let found = user_item(stream, kind, Span { start, len }, n);
    c_layout_item::store_user(found, &mut *into)
}

// The n-th subscription identifier of a Publish: 0, or 21.
pub fn ecch_subscription_identifier(
    stream: &[u8],
    start: usize,
    len: usize,
    n: usize,
    into: &mut [u64],
) -> u32
    ensures number { result ≡ fit_number (subscription_at as_places stream.now (record { start = start; len = len }) n) }
    ensures stored { into.new ≡ sets into.old 0 (identifier_numbers (subscription_at as_places stream.now (record { start = start; len = len }) n)) }
{
    let found = items::subscription_identifier(stream, Span { start, len }, n);
    c_layout_item::store_identifier(found, &mut *into)
}

// Text and options of the n-th filter: 0, or 21.
pub fn ecch_filter(stream: &[u8], start: usize, len: usize, n: usize, into: &mut [u64]) -> u32
    ensures number { result ≡ fit_number (filter_at as_places stream.now (record { start = start; len = len }) n) }
    ensures stored { into.new ≡ sets into.old 0 (filter_numbers (filter_at as_places stream.now (record { start = start; len = len }) n)) }
{
    let found = filter_runs::filter(stream, Span { start, len }, n);
    c_layout_item::store_filter(found, &mut *into)
}

// The n-th reason of a SubAck or UnsubAck: 0, or 21.
pub fn ecch_reason(
    stream: &[u8],
    kind: u8,
    start: usize,
    len: usize,
    n: usize,
    into: &mut [u64],
) -> u32
    ensures number { result ≡ fit_number (reason_given kind stream.now (record { start = start; len = len }) n) }
    ensures stored { into.new ≡ sets into.old 0 (reason_numbers (reason_given kind stream.now (record { start = start; len = len }) n)) }
{
    let found = reason_item(stream, kind, Span { start, len }, n);
    c_layout_item::store_reason(found, &mut *into)
}

// Where the n-th topic of an Unsubscribe stands: 0, or 21.
pub fn ecch_topic(stream: &[u8], start: usize, len: usize, n: usize, into: &mut [u64]) -> u32
    ensures number { result ≡ fit_number (topic_at as_places stream.now (record { start = start; len = len }) n) }
    ensures stored { into.new ≡ sets into.old 0 (topic_numbers (topic_at as_places stream.now (record { start = start; len = len }) n)) }
{
    let found = entry_runs::topic(stream, Span { start, len }, n);
    c_layout_item::store_topic(found, &mut *into)
}
