// A SubAck or UnsubAck that C hands over: its numbers and presence.
ghost use Rattle.std.specs.Prelude.{◌≡◌, List, ℕ};
ghost use Rattle.writing.specs.Handed.{reply};
ghost use Rattle.records.specs.AsNumbers.{told_reply_kind};
ghost use Rattle.reply_write.specs.Handed.{handed};
ghost use Rattle.c_heads.specs.By.{reply_by};

use c_arguments::number::is_on;
use records::reply_record::ReplyKind;
use reply_write::ReplyHead;

// Numbers and presence of a SubAck or UnsubAck to write.
pub fn reply_head(kind: ReplyKind, pkid: u16, block: u8, reason_string_on: u8) -> ReplyHead
    ensures { (text user lengths reasons : List ℕ) → reply (told_reply_kind result.kind) (handed result text user lengths reasons) ≡ reply_by (told_reply_kind kind) pkid block reason_string_on text user lengths reasons }
{
    ReplyHead {
        kind,
        pkid,
        block: is_on(block),
        reason_string: is_on(reason_string_on),
    }
}
