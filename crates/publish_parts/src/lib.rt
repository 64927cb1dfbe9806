// The strings of a Publish, as parts of the stream that it was read from.
#![tactic(auto)]

ghost use Rattle.std.specs.Prelude.{◌≡◌};
ghost use Rattle.records.specs.AsNumbers.{told_span};
ghost use Rattle.wire.specs.Part.{PartAt, place_if};
ghost use Rattle.publish_parts.specs.Parts.{Strings, response, correlation, content};

use records::publish_record::{Publish, PublishProperties};
use records::span::Span;
use wire::string;

// The topic of `m`, which was read from `s`; the empty part at 0 if it lies outside. The same goes for every part.
pub fn topic<'a>(s: &'a [u8], m: Publish) -> &'a [u8]
    ensures { PartAt s.entry (told_span m.topic) result }
{
    string::part(s, m.topic)
}

// The payload of `m`.
pub fn payload<'a>(s: &'a [u8], m: Publish) -> &'a [u8]
    ensures { PartAt s.entry (told_span m.payload) result }
{
    string::part(s, m.payload)
}

// The properties, each of them absent where there is no block.
fn given(m: Publish) -> PublishProperties
    ensures { Strings m result }
{
    let properties = m.properties;
    match properties {
        Some(p) => p,
        None => PublishProperties {
            payload_format_indicator: None,
            message_expiry_interval: None,
            topic_alias: None,
            response_topic: None,
            correlation_data: None,
            content_type: None,
            block: Span { start: 0, len: 0 },
        },
    }
}

// The response topic of `m`; empty if it is absent, as the next two.
pub fn response_topic<'a>(s: &'a [u8], m: Publish) -> &'a [u8]
    ensures { PartAt s.entry (place_if (response m)) result }
{
    let p = given(m);
    let place = p.response_topic;
    string::part_if(s, place)
}

// The correlation data of `m`.
pub fn correlation_data<'a>(s: &'a [u8], m: Publish) -> &'a [u8]
    ensures { PartAt s.entry (place_if (correlation m)) result }
{
    let p = given(m);
    let place = p.correlation_data;
    string::part_if(s, place)
}

// The content type of `m`.
pub fn content_type<'a>(s: &'a [u8], m: Publish) -> &'a [u8]
    ensures { PartAt s.entry (place_if (content m)) result }
{
    let p = given(m);
    let place = p.content_type;
    string::part_if(s, place)
}
