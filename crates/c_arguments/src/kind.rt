// The item that C asks for by the number of a kind.
ghost use Rattle.std.specs.Prelude.{◌≡◌};
ghost use Rattle.records.specs.AsNumbers.{told_span};
ghost use Rattle.records.specs.Answered.{told_user, told_reason_item};
ghost use Rattle.c_arguments.specs.Kind.{user_of, reason_given};

use kinds::{Kind, kind_of, row_of};
use records::span::Span;

// The n-th user property of a kind's block; 21 for a kind without properties.
pub fn user_item(stream: &[u8], kind: u8, p: Span, n: usize) -> Option<(Span, Span)>
    ensures { told_user result ≡ user_of kind stream.now (told_span p) n }
{
    let row = row_of(kind)?;
    items::user_property(row, stream, p, n)
}

// The n-th reason of a SubAck or UnsubAck; 21 for another kind.
pub fn reason_item(stream: &[u8], kind: u8, p: Span, n: usize) -> Option<u8>
    ensures { told_reason_item result ≡ reason_given kind stream.now (told_span p) n }
{
    match kind_of(kind) {
        Kind::Reply(k) => entry_runs::reason(k, stream, p, n),
        _ => None,
    }
}
