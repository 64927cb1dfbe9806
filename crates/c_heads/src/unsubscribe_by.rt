// An Unsubscribe that C hands over: its numbers and presence.
ghost use Rattle.std.specs.Prelude.{◌≡◌, List, ℕ};
ghost use Rattle.unsubscribe_write.specs.Handed.{handed};
ghost use Rattle.c_heads.specs.By.{unsubscribe_by};

use c_arguments::number::is_on;
use unsubscribe_write::UnsubscribeHead;

// Numbers and presence of an Unsubscribe to write.
pub fn unsubscribe_head(pkid: u16, block: u8) -> UnsubscribeHead
    ensures { (user lengths topics topicLengths : List ℕ) → handed result user lengths topics topicLengths ≡ unsubscribe_by pkid block user lengths topics topicLengths }
{
    UnsubscribeHead {
        pkid,
        block: is_on(block),
    }
}
