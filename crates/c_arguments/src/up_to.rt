// The property, filter or topic at an index, in a block or run that ends where C says: what stands behind the end is not read. An end that
// lies outside the stream is 21. bindings/c/ecchjulmina.h has the words.
ghost use Rattle.std.specs.Prelude.{◌≡◌, ◌≤◌, ◌<◌, length, take, MatchResult};
ghost use Rattle.records.specs.declared.error.Error.TheVariants.{NoItem};
ghost use Rattle.grammar.specs.Tables.{row_of_kind};
ghost use Rattle.property_value.specs.OneProperty.{told_property, OfForm};
ghost use Rattle.filters.specs.FilterRead.{told_got_filter};
ghost use Rattle.wire.specs.StringRead.{told_part};
ghost use Rattle.c_arguments.specs.Kind.{PropertyGiven, form_in};
ghost use Rattle.c_arguments.specs.UpTo.{property_up_to, filter_up_to, topic_up_to};

use filters::read_filter;
use kinds::row_of;
use property_value::{Value, read_property};
use records::error::Error;
use records::span::Span;
use records::subscribe_record::Filter;
use wire::string::read_mqtt_string;

// The bytes before the end; 21 for an end beyond the stream.
fn before(stream: &[u8], end: usize) -> Result<&[u8], Error>
    ensures { MatchResult result (λ b. (b.now ≡ take end stream.now) × (end ≤ length stream.now)) (λ e. (e ≡ NoItem) × (length stream.now < end)) }
{
    stream.get(..end).ok_or(Error::NoItem)
}

// In the row of a kind that has one.
fn property_at(stream: &[u8], kind: u8, at: usize) -> Result<(u8, Value, usize), Error>
    ensures { PropertyGiven kind stream.now at result }
{
    let row = row_of(kind).ok_or(Error::NoItem)?;
    read_property(row, stream, at)
}

// The property at an index of the bytes before the end, in the row of a kind; 21 for a kind without properties and an end beyond the stream.
pub fn property_up_to(
    stream: &[u8],
    kind: u8,
    at: usize,
    end: usize,
) -> Result<(u8, Value, usize), Error>
    ensures says { told_property result ≡ property_up_to kind stream.now at end }
    ensures typed { OfForm (form_in (row_of_kind kind)) result }
{
    let block = before(stream, end)?;
    property_at(block, kind, at)
}

// The same of a filter.
pub fn filter_up_to(stream: &[u8], at: usize, end: usize) -> Result<(Filter, usize), Error>
    ensures { told_got_filter result ≡ filter_up_to stream.now at end }
{
    let filters = before(stream, end)?;
    read_filter(filters, at)
}

// The same of a topic.
pub fn topic_up_to(stream: &[u8], at: usize, end: usize) -> Result<(Span, usize), Error>
    ensures { told_part result ≡ topic_up_to stream.now at end }
{
    let topics = before(stream, end)?;
    read_mqtt_string(topics, at)
}
