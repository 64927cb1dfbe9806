// What refuses a Publish but its size, in 01's writing order.
ghost use Rattle.std.specs.Prelude.{◌≡◌, ◌||◌, List, ℕ, eqb};
ghost use Rattle.grammar.specs.Sentence.{not_zero};
ghost use Rattle.writing.specs.Lists.{flat};
ghost use Rattle.writing.specs.Handed.{publish};
ghost use Rattle.writing.specs.Order.{judge, field_tests, fields_of};
ghost use Rattle.write_tests.specs.Tested.{told_tested};
ghost use Rattle.write_order.specs.Found.{before_size, after_limit};
ghost use Rattle.publish_plan.specs.Handed.{handed};

use crate::belong::all_belong;
use crate::head::PublishHead;
use qos_numbers::qos_number;
use records::error::Error;
use write_tests;

// 18, and 9 for text, field by field as written.
fn test_fields(
    head: PublishHead,
    topic: &[u8],
    response_topic: &[u8],
    correlation_data: &[u8],
    user: &[u8],
    user_lengths: &[usize],
    content_type: &[u8],
) -> Result<(), Error>
    ensures { (i p : List ℕ) → told_tested result ≡ judge (flat field_tests (fields_of (publish (handed head topic.now response_topic.now correlation_data.now user.now user_lengths.now i content_type.now p)))) }
{
    write_tests::test_raw(topic)?;
    write_tests::test_text(head.response_topic, response_topic)?;
    write_tests::test_bytes(head.correlation_data, correlation_data)?;
    write_tests::test_words(user, user_lengths)?;
    write_tests::test_text(head.content_type, content_type)
}

// 20, then 18 and 9 field by field.
pub fn before_size(
    head: PublishHead,
    topic: &[u8],
    response_topic: &[u8],
    correlation_data: &[u8],
    user: &[u8],
    user_lengths: &[usize],
    subscription_identifiers: &[u32],
    content_type: &[u8],
) -> Result<(), Error>
    ensures { (p : List ℕ) → told_tested result ≡ before_size (publish (handed head topic.now response_topic.now correlation_data.now user.now user_lengths.now subscription_identifiers.now content_type.now p)) }
{
    let together = all_belong(
        head,
        response_topic,
        correlation_data,
        user,
        user_lengths,
        subscription_identifiers,
        content_type,
    );
    if !together {
        return Err(Error::ListMismatch);
    }
    test_fields(
        head,
        topic,
        response_topic,
        correlation_data,
        user,
        user_lengths,
        content_type,
    )
}

// 12 is not given.
fn is_named(qos: u8, pkid: u16) -> bool
    ensures { result ≡ (eqb qos 0 || not_zero pkid) }
{
    if qos == 0 {
        return true;
    }
    pkid != 0
}

// 12, then 17 or 23 for the identifiers in order.
pub fn after_limit(head: PublishHead, subscription_identifiers: &[u32]) -> Result<(), Error>
    ensures { (t a b u l c p : List ℕ) → told_tested result ≡ after_limit (publish (handed head t a b u l subscription_identifiers.now c p)) }
{
    let qos = head.qos;
    if !is_named(qos_number(qos), head.pkid) {
        return Err(Error::PacketIdZero);
    }
    write_tests::test_numbers(subscription_identifiers)
}
