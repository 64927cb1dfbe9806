// A Publish that C hands over: its numbers and presence.
ghost use Rattle.std.specs.Prelude.{◌≡◌, List, [], ◌∷◌, ℕ};
ghost use Rattle.grammar.specs.Choice.{all};
ghost use Rattle.writing.specs.Handed.{publish};
ghost use Rattle.records.specs.AsNumbers.{told_qos};
ghost use Rattle.write_tests.specs.Tested.{told_tested};
ghost use Rattle.publish_plan.specs.Handed.{handed};
ghost use Rattle.c_heads.specs.By.{zero_if_off, qos_test, known_qos, tests_of, publish_by};
ghost use Rattle.c_heads.specs.Head.{publish_handed};

use crate::absent::zero_if_off;
use c_arguments::number::{given, is_on};
use publish_plan::head::PublishHead;
use records::error::Error;
use records::qos::QoS;
use tables::qos;

// A record and no `Result`: the head is told beside a refusal too (publish_head, **publish_head_same** of promises).
#[derive(Clone, Copy)]
pub struct PublishBy {
    // whether each number whose flag is off is 0, else 20
    pub zeros: bool,
    // 11 for a QoS that is none
    pub quality: Result<(), Error>,
    pub head: PublishHead,
}

// 20 of format, expiry and alias.
fn zeros_if_off(
    format_on: u8,
    format: u8,
    expiry_on: u8,
    expiry: u32,
    alias_on: u8,
    alias: u16,
) -> bool
    ensures { result ≡ all zero_if_off ((format_on, format) ∷ (expiry_on, expiry) ∷ (alias_on, alias) ∷ []) }
{
    zero_if_off(format_on, format as u32)
        && zero_if_off(expiry_on, expiry)
        && zero_if_off(alias_on, alias as u32)
}

// 11.
fn test_qos(num: u8) -> Result<(), Error>
    ensures { told_tested result ≡ qos_test num }
{
    qos::qos(num)?;
    Ok(())
}

// That of a record; 0 where it is refused.
fn known_qos(num: u8) -> QoS
    ensures { told_qos result ≡ known_qos num }
{
    qos::qos(num).unwrap_or(QoS::AtMostOnce)
}

// The list of C's header in its order: the exported callers have each number by its own name, and a struct would name each of them twice more.
fn numbers(
    dup: u8,
    qos: u8,
    retain: u8,
    pkid: u16,
    block: u8,
    format_on: u8,
    format: u8,
    expiry_on: u8,
    expiry: u32,
    alias_on: u8,
    alias: u16,
    response_on: u8,
    correlation_on: u8,
    content_on: u8,
) -> PublishHead
    ensures { (topic response correlation user lengths ids content payload : List ℕ) → publish (handed result topic response correlation user lengths ids content payload) ≡ (publish_by dup qos retain pkid topic block format_on format expiry_on expiry alias_on alias response_on response correlation_on correlation user lengths ids content_on content payload).handed }
{
    PublishHead {
        dup: is_on(dup),
        qos: known_qos(qos),
        retain: is_on(retain),
        pkid,
        block: is_on(block),
        payload_format_indicator: given(format_on, format),
        message_expiry_interval: given(expiry_on, expiry),
        topic_alias: given(alias_on, alias),
        response_topic: is_on(response_on),
        correlation_data: is_on(correlation_on),
        content_type: is_on(content_on),
    }
}

// Of a Publish to write: whether each number whose flag is off is 0 (20), 11 for a QoS above 2, and numbers and presence.
pub fn publish_head(
    dup: u8,
    qos: u8,
    retain: u8,
    pkid: u16,
    block: u8,
    format_on: u8,
    format: u8,
    expiry_on: u8,
    expiry: u32,
    alias_on: u8,
    alias: u16,
    response_on: u8,
    correlation_on: u8,
    content_on: u8,
) -> PublishBy
    ensures { (topic response correlation user lengths ids content payload : List ℕ) → publish_handed result topic response correlation user lengths ids content payload ≡ tests_of (publish_by dup qos retain pkid topic block format_on format expiry_on expiry alias_on alias response_on response correlation_on correlation user lengths ids content_on content payload) }
{
    let zeros = zeros_if_off(format_on, format, expiry_on, expiry, alias_on, alias);
    let quality = test_qos(qos);
    let head = numbers(
        dup,
        qos,
        retain,
        pkid,
        block,
        format_on,
        format,
        expiry_on,
        expiry,
        alias_on,
        alias,
        response_on,
        correlation_on,
        content_on,
    );
    PublishBy {
        zeros,
        quality,
        head,
    }
}
