// The field of the topic in force, where a Publish leaves its own empty; or of the refusal, where it has none.
use crate::output::At;
use crate::{field, output};
use alias::{AliasError, Placed};
use records::publish_record::Publish;
use records::span::Span;
use std::io::Stdout;
use wire::string;

// The number and the name, as an object.
fn refused(to: Stdout, out: &mut [u8], at: At, e: AliasError) -> At {
    let number = alias::number(e);
    let name = refusal_names::name_at(number as u32);
    let bytes = name.bytes;
    let text = Span {
        start: 0,
        len: name.len,
    };
    let a = field::number(
        to,
        &mut *out,
        at,
        b",\"alias_refused\":{\"number\":",
        number as u64,
    );
    let b = output::word(to, &mut *out, a, b",\"name\":\"");
    let c = output::word(to, &mut *out, b, string::part(&bytes, text));
    output::word(to, &mut *out, c, b"\"}")
}

pub fn topic(to: Stdout, out: &mut [u8], at: At, s: &[u8], table: &[u8], m: Publish) -> At {
    match alias::place_in_force(s, table, m) {
        Ok(Placed::InPacket(_)) => at,
        Ok(Placed::InTable(p)) => field::text_or_hex(
            to,
            &mut *out,
            at,
            b",\"topic_in_force\":\"",
            b",\"topic_in_force_hex\":\"",
            table,
            p,
        ),
        Err(e) => refused(to, &mut *out, at, e),
    }
}
