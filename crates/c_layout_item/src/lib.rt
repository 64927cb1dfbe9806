// What is returned and stored of an n-th item; `next` has the same of what stands at an index.
#![tactic(auto)]

pub mod next;

ghost use Rattle.std.specs.Prelude.{◌≡◌, Some};
ghost use Rattle.std.proofs.lemmas.List.Edits.{sets};
ghost use Rattle.records.specs.Answered.{told_user, told_identifier, told_filter_item, told_reason_item, told_topic_item};
ghost use Rattle.c_layout.specs.Value.{fit_number, item_number};
ghost use Rattle.c_layout_item.specs.Item.{user_numbers, identifier_numbers, filter_numbers, reason_numbers, topic_numbers, item_numbers};

use c_layout::store::store;
use qos_numbers::{bit, qos_number, rule_number};
use records::span::Span;
use records::subscribe_record::Filter;

fn user_numbers(item: (Span, Span)) -> [u64; 4]
    ensures { result ≡ user_numbers (told_user (Some item)) }
{
    let (k, v) = item;
    [k.start as u64, k.len as u64, v.start as u64, v.len as u64]
}

fn identifier_numbers(n: u32) -> [u64; 1]
    ensures { result ≡ identifier_numbers (told_identifier (Some n)) }
{
    [n as u64]
}

fn filter_numbers(f: Filter) -> [u64; 6]
    ensures { result ≡ filter_numbers (told_filter_item (Some f)) }
{
    let qos = f.qos;
    let rule = f.retain_forward_rule;
    [
        f.path.start as u64,
        f.path.len as u64,
        qos_number(qos) as u64,
        bit(f.nolocal) as u64,
        bit(f.preserve_retain) as u64,
        rule_number(rule) as u64,
    ]
}

fn reason_numbers(reason: u8) -> [u64; 1]
    ensures { result ≡ reason_numbers (told_reason_item (Some reason)) }
{
    [reason as u64]
}

fn topic_numbers(p: Span) -> [u64; 2]
    ensures { result ≡ topic_numbers (told_topic_item (Some p)) }
{
    [p.start as u64, p.len as u64]
}

// 0, or 21 if there is none; the numbers of an item are stored, zeros if there is none.
fn store_item<const N: usize>(item: Option<[u64; N]>, into: &mut [u64]) -> u32
    ensures number { result ≡ item_number item.entry }
    ensures stored { into.new ≡ sets into.old 0 (item_numbers N item.entry) }
{
    let Some(numbers) = item else {
        store(&mut *into, &[0; N]);
        return 21;
    };
    store(&mut *into, &numbers);
    0
}

// 0, or 21 if there is none; key and value are stored, zeros if there is none.
pub fn store_user(item: Option<(Span, Span)>, into: &mut [u64]) -> u32
    ensures number { result ≡ fit_number (told_user item) }
    ensures stored { into.new ≡ sets into.old 0 (user_numbers (told_user item)) }
{
    store_item(item.map(user_numbers), &mut *into)
}

// The same of an identifier.
pub fn store_identifier(item: Option<u32>, into: &mut [u64]) -> u32
    ensures number { result ≡ fit_number (told_identifier item) }
    ensures stored { into.new ≡ sets into.old 0 (identifier_numbers (told_identifier item)) }
{
    store_item(item.map(identifier_numbers), &mut *into)
}

// The same of a filter: its text and options.
pub fn store_filter(item: Option<Filter>, into: &mut [u64]) -> u32
    ensures number { result ≡ fit_number (told_filter_item item) }
    ensures stored { into.new ≡ sets into.old 0 (filter_numbers (told_filter_item item)) }
{
    store_item(item.map(filter_numbers), &mut *into)
}

// The same of a reason.
pub fn store_reason(item: Option<u8>, into: &mut [u64]) -> u32
    ensures number { result ≡ fit_number (told_reason_item item) }
    ensures stored { into.new ≡ sets into.old 0 (reason_numbers (told_reason_item item)) }
{
    store_item(item.map(reason_numbers), &mut *into)
}

// The same of a topic: where it stands.
pub fn store_topic(item: Option<Span>, into: &mut [u64]) -> u32
    ensures number { result ≡ fit_number (told_topic_item item) }
    ensures stored { into.new ≡ sets into.old 0 (topic_numbers (told_topic_item item)) }
{
    store_item(item.map(topic_numbers), &mut *into)
}
