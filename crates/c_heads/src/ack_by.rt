// A publish acknowledgement that C hands over: its numbers and presence. A reason that its kind does not list is refused when it is written.
ghost use Rattle.std.specs.Prelude.{◌≡◌, List, ℕ};
ghost use Rattle.writing.specs.Handed.{ack};
ghost use Rattle.records.specs.AsNumbers.{told_ack_kind};
ghost use Rattle.ack_write.specs.Handed.{handed};
ghost use Rattle.c_heads.specs.By.{ack_by};

use ack_write::AckHead;
use c_arguments::number::is_on;
use records::ack_record::AckKind;

// Numbers and presence of a publish acknowledgement to write, whatever its reason.
pub fn ack_head(kind: AckKind, pkid: u16, reason: u8, block: u8, reason_string_on: u8) -> AckHead
    ensures { (text user lengths : List ℕ) → ack (told_ack_kind result.kind) (handed result text user lengths) ≡ ack_by (told_ack_kind kind) pkid reason block reason_string_on text user lengths }
{
    AckHead {
        kind,
        pkid,
        reason,
        block: is_on(block),
        reason_string: is_on(reason_string_on),
    }
}
