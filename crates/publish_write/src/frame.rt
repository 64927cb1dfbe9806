// The bytes of a Publish whose frame is known to fit, after `write` of publish.rs: each function lays its part at an index and gives the
// index behind it. Places are plain sums, and no field asks for room.
ghost use Rattle.std.specs.Prelude.{◌≡◌, true, List, ◌∷◌, ◌++◌, ℕ, ◌+◌, ◌≤◌, length, take, drop};
ghost use Rattle.std.proofs.lemmas.List.Edits.{sets};
ghost use Rattle.grammar.specs.Octets.{Each};
ghost use Rattle.grammar.specs.Tables.{Form, pair};
ghost use Rattle.writing.specs.Handed.{publish, adds_up};
ghost use Rattle.writing.specs.Spell.{short, string as spelled, row_bytes};
ghost use Rattle.writing.specs.Size.{most};
ghost use Rattle.writing.specs.Refuse.{Fine};
ghost use Rattle.writing.specs.Write.{first_byte, ident_bytes};
ghost use Rattle.records.specs.AsNumbers.{told_qos};
ghost use Rattle.write_runs.specs.Given.{run as run_of, given_lent, given_pairs};
ghost use Rattle.publish_plan.specs.Handed.{handed};
ghost use Rattle.publish_write.specs.Laid.{Laid, Room, number_rows, string_rows, list_rows, all_rows};

use crate::copy::{copy, store, store_two};
use publish_plan::head::PublishHead;
use publish_plan::sizes::no_pkid;
use qos_numbers::{bit, qos_number};
use write_lengths::put_length;
use write_numbers::fixed::Fixed;

// A length, and the n bytes of s from index `from` on.
fn lay_string(out: &mut [u8], at: usize, s: &[u8], from: usize, n: usize) -> usize
    requires { (from + n ≤ length s.now) × (at + (2 + n) ≤ length out.old) }
    ensures { Laid out.old at (spelled (take n (drop from s.now))) out.new result }
{
    store_two(&mut *out, at, (n / 256 % 256) as u8, (n % 256) as u8);
    copy(&mut *out, at + 2, s, from, n)
}

// A user property, whose strings are the k bytes from index `from` on and the v behind them.
fn lay_pair(out: &mut [u8], at: usize, s: &[u8], from: usize, k: usize, v: usize) -> usize
    requires { (from + k + v ≤ length s.now) × (at + (5 + k + v) ≤ length out.old) }
    ensures { Laid out.old at (38 ∷ (spelled (take k (drop from s.now)) ++ spelled (take v (drop (from + k) s.now)))) out.new result }
{
    store(&mut *out, at, 38);
    let next = lay_string(&mut *out, at + 1, s, from, k);
    lay_string(&mut *out, next, s, from + k, v)
}

// User properties one after the other, whose lengths add up.
fn lay_pairs(out: &mut [u8], at: usize, bytes: &[u8], lengths: &[usize]) -> usize
    requires { (adds_up (run_of bytes.now lengths.now) ≡ true) × Room out.old at (row_bytes (38, pair) (given_pairs bytes.now lengths.now)) }
    ensures { Laid out.old at (row_bytes (38, pair) (given_pairs bytes.now lengths.now)) out.new result }
{
    let mut to = at;
    let mut from: usize = 0;
    for pair in lengths.chunks_exact(2) {
        let k = pair[0];
        let v = pair[1];
        to = lay_pair(&mut *out, to, bytes, from, k, v);
        from = from + k + v;
    }
    to
}

// Text or bytes, if they are on.
fn lay_lent(out: &mut [u8], at: usize, id: u8, on: bool, s: &[u8]) -> usize
    requires { on ≡ true → at + (3 + length s.now) ≤ length out.old }
    ensures { (f : Form) → Laid out.old at (row_bytes (id, f) (given_lent on s.now)) out.new result }
{
    if on {
        store(&mut *out, at, id);
        return lay_string(&mut *out, at + 1, s, 0, s.len());
    }
    at
}

// 1, 2 and 35.
fn lay_numbers(out: &mut [u8], at: usize, head: PublishHead) -> usize
    requires { Room out.old at (number_rows head) }
    ensures { Laid out.old at (number_rows head) out.new result }
{
    let format = head.payload_format_indicator;
    let expiry = head.message_expiry_interval;
    let alias = head.topic_alias;
    let second = at + write_properties::put_if(&mut *out, at, 1, format);
    let third = second + write_properties::put_if(&mut *out, second, 2, expiry);
    third + write_properties::put_if(&mut *out, third, 35, alias)
}

// 8 and 9.
fn lay_strings(
    out: &mut [u8],
    at: usize,
    head: PublishHead,
    response_topic: &[u8],
    correlation_data: &[u8],
) -> usize
    requires { Room out.old at (string_rows head response_topic.now correlation_data.now) }
    ensures { Laid out.old at (string_rows head response_topic.now correlation_data.now) out.new result }
{
    let second = lay_lent(&mut *out, at, 8, head.response_topic, response_topic);
    lay_lent(
        &mut *out,
        second,
        9,
        head.correlation_data,
        correlation_data,
    )
}

// 38, 11 and 3.
fn lay_lists(
    out: &mut [u8],
    at: usize,
    head: PublishHead,
    user: &[u8],
    user_lengths: &[usize],
    subscription_identifiers: &[u32],
    content_type: &[u8],
) -> usize
    requires { (adds_up (run_of user.now user_lengths.now) ≡ true) × Room out.old at (list_rows head user.now user_lengths.now subscription_identifiers.now content_type.now) × Each Fine subscription_identifiers.now }
    ensures { Laid out.old at (list_rows head user.now user_lengths.now subscription_identifiers.now content_type.now) out.new result }
{
    let second = lay_pairs(&mut *out, at, user, user_lengths);
    let third = second + write_lists::put_ids(&mut *out, second, subscription_identifiers);
    lay_lent(&mut *out, third, 3, head.content_type, content_type)
}

// The eight rows in the table's order.
fn lay_properties(
    out: &mut [u8],
    at: usize,
    head: PublishHead,
    response_topic: &[u8],
    correlation_data: &[u8],
    user: &[u8],
    user_lengths: &[usize],
    subscription_identifiers: &[u32],
    content_type: &[u8],
) -> usize
    requires { (adds_up (run_of user.now user_lengths.now) ≡ true) × Room out.old at (all_rows head response_topic.now correlation_data.now user.now user_lengths.now subscription_identifiers.now content_type.now) × Each Fine subscription_identifiers.now }
    ensures { Laid out.old at (all_rows head response_topic.now correlation_data.now user.now user_lengths.now subscription_identifiers.now content_type.now) out.new result }
{
    let strings = lay_numbers(&mut *out, at, head);
    let lists = lay_strings(&mut *out, strings, head, response_topic, correlation_data);
    lay_lists(
        &mut *out,
        lists,
        head,
        user,
        user_lengths,
        subscription_identifiers,
        content_type,
    )
}

fn first_byte(head: PublishHead) -> u8
    ensures { (t a b u l i c p : List ℕ) → result ≡ first_byte (publish (handed head t a b u l i c p)) }
{
    let qos = head.qos;
    0x30 + (8 * bit(head.dup) + (2 * qos_number(qos) + bit(head.retain)))
}

// The identifier, if it is written.
fn lay_pkid(out: &mut [u8], at: usize, qos: u8, pkid: u16) -> usize
    requires { Room out.old at (ident_bytes qos pkid) }
    ensures { Laid out.old at (ident_bytes qos pkid) out.new result }
{
    if no_pkid(qos, pkid) {
        return at;
    }
    pkid.put(&mut *out, at);
    at + 2
}

// R, the topic and the identifier, from index 1 on.
fn lay_front(out: &mut [u8], head: PublishHead, rest: usize, topic: &[u8]) -> usize
    requires { Room out.old 1 (short rest ++ (spelled topic.now ++ ident_bytes (told_qos head.qos) head.pkid)) × (rest ≤ most) }
    ensures { Laid out.old 1 (short rest ++ (spelled topic.now ++ ident_bytes (told_qos head.qos) head.pkid)) out.new result }
{
    let qos = head.qos;
    let second = 1 + put_length(&mut *out, 1, rest);
    let third = lay_string(&mut *out, second, topic, 0, topic.len());
    lay_pkid(&mut *out, third, qos_number(qos), head.pkid)
}

// L, the properties and the payload; `properties` is L.
fn lay_back(
    out: &mut [u8],
    at: usize,
    head: PublishHead,
    properties: usize,
    response_topic: &[u8],
    correlation_data: &[u8],
    user: &[u8],
    user_lengths: &[usize],
    subscription_identifiers: &[u32],
    content_type: &[u8],
    payload: &[u8],
)
    requires { (adds_up (run_of user.now user_lengths.now) ≡ true) × Room out.old at (short properties ++ (all_rows head response_topic.now correlation_data.now user.now user_lengths.now subscription_identifiers.now content_type.now ++ payload.now)) × Each Fine subscription_identifiers.now × (properties ≤ most) }
    ensures { out.new ≡ sets out.old at (short properties ++ (all_rows head response_topic.now correlation_data.now user.now user_lengths.now subscription_identifiers.now content_type.now ++ payload.now)) }
{
    let second = at + put_length(&mut *out, at, properties);
    let third = lay_properties(
        &mut *out,
        second,
        head,
        response_topic,
        correlation_data,
        user,
        user_lengths,
        subscription_identifiers,
        content_type,
    );
    copy(&mut *out, third, payload, 0, payload.len());
}

// The frame, from index 0 on, where R and L are given.
pub fn lay_frame(
    out: &mut [u8],
    head: PublishHead,
    rest: usize,
    properties: usize,
    topic: &[u8],
    response_topic: &[u8],
    correlation_data: &[u8],
    user: &[u8],
    user_lengths: &[usize],
    subscription_identifiers: &[u32],
    content_type: &[u8],
    payload: &[u8],
)
    requires { (adds_up (run_of user.now user_lengths.now) ≡ true) × Room out.old 1 ((short rest ++ (spelled topic.now ++ ident_bytes (told_qos head.qos) head.pkid)) ++ (short properties ++ (all_rows head response_topic.now correlation_data.now user.now user_lengths.now subscription_identifiers.now content_type.now ++ payload.now))) × Each Fine subscription_identifiers.now × (properties ≤ most) × (rest ≤ most) }
    ensures { out.new ≡ sets out.old 0 (first_byte (publish (handed head topic.now response_topic.now correlation_data.now user.now user_lengths.now subscription_identifiers.now content_type.now payload.now)) ∷ ((short rest ++ (spelled topic.now ++ ident_bytes (told_qos head.qos) head.pkid)) ++ (short properties ++ (all_rows head response_topic.now correlation_data.now user.now user_lengths.now subscription_identifiers.now content_type.now ++ payload.now)))) }
{
    store(&mut *out, 0, first_byte(head));
    let next = lay_front(&mut *out, head, rest, topic);
    lay_back(
        &mut *out,
        next,
        head,
        properties,
        response_topic,
        correlation_data,
        user,
        user_lengths,
        subscription_identifiers,
        content_type,
        payload,
    );
}
