// R and L of a Publish, after `len` and `size` of publish.rs, each cut off above the largest R.
ghost use Rattle.std.specs.Prelude.{◌≡◌, List, ℕ};
ghost use Rattle.grammar.specs.Tables.{publish_row};
ghost use Rattle.writing.specs.Handed.{publish, publish_given};
ghost use Rattle.writing.specs.Size.{props_size, no_ident, ident_size, rest_is, cap};
ghost use Rattle.publish_plan.specs.Handed.{handed};

use crate::head::PublishHead;
use qos_numbers::qos_number;
use write_sizes as size;

// L, cut off above the largest R.
fn properties_size(
    head: PublishHead,
    response_topic: &[u8],
    correlation_data: &[u8],
    user: &[u8],
    user_lengths: &[usize],
    subscription_identifiers: &[u32],
    content_type: &[u8],
) -> usize
    ensures { (t p : List ℕ) → result ≡ cap (props_size publish_row (publish_given (handed head t response_topic.now correlation_data.now user.now user_lengths.now subscription_identifiers.now content_type.now p))) }
{
    let format = head.payload_format_indicator;
    let expiry = head.message_expiry_interval;
    let alias = head.topic_alias;
    let ids = size::ids_size(subscription_identifiers);
    let content = size::lent_size(head.content_type, content_type);
    let lists = size::add(
        size::pairs_size(user, user_lengths),
        size::add(ids, content),
    );
    let correlation = size::lent_size(head.correlation_data, correlation_data);
    let response = size::lent_size(head.response_topic, response_topic);
    let strings = size::add(response, size::add(correlation, lists));
    let numbers = size::add(size::one_size(alias), strings);
    size::add(
        size::one_size(format),
        size::add(size::one_size(expiry), numbers),
    )
}

// Whether the identifier is left out: at QoS 0, and where it is 0.
pub fn no_pkid(qos: u8, pkid: u16) -> bool
    ensures { result ≡ no_ident qos pkid }
{
    if qos == 0 {
        return true;
    }
    pkid == 0
}

fn pkid_size(qos: u8, pkid: u16) -> usize
    ensures { result ≡ cap (ident_size qos pkid) }
{
    if no_pkid(qos, pkid) {
        return 0;
    }
    2
}

// R, cut off above the largest; `properties` is L, cut off.
fn rest_size(head: PublishHead, topic: &[u8], properties: usize, payload: &[u8]) -> usize
    ensures { (a b u l i c : List ℕ) → properties ≡ cap (props_size publish_row (publish_given (handed head topic.now a b u l i c payload.now))) → result ≡ cap (rest_is (publish (handed head topic.now a b u l i c payload.now))) }
{
    let qos = head.qos;
    let block = size::add(size::with_length(properties), payload.len());
    let pkid = pkid_size(qos_number(qos), head.pkid);
    size::add(2 + topic.len(), size::add(pkid, block))
}

// R and L, both cut off above the largest R.
#[derive(Clone, Copy)]
pub struct Lengths {
    pub rest: usize,
    pub properties: usize,
}

// R and L of a record, each cut off just above the largest R.
pub fn sizes(
    head: PublishHead,
    topic: &[u8],
    response_topic: &[u8],
    correlation_data: &[u8],
    user: &[u8],
    user_lengths: &[usize],
    subscription_identifiers: &[u32],
    content_type: &[u8],
    payload: &[u8],
) -> Lengths
    ensures { (result.rest ≡ cap (rest_is (publish (handed head topic.now response_topic.now correlation_data.now user.now user_lengths.now subscription_identifiers.now content_type.now payload.now)))) × (result.properties ≡ cap (props_size publish_row (publish_given (handed head topic.now response_topic.now correlation_data.now user.now user_lengths.now subscription_identifiers.now content_type.now payload.now)))) }
{
    let properties = properties_size(
        head,
        response_topic,
        correlation_data,
        user,
        user_lengths,
        subscription_identifiers,
        content_type,
    );
    let rest = rest_size(head, topic, properties, payload);
    Lengths { rest, properties }
}
