// Which refusal comes first where the QoS is none: 20 if what is handed over does not belong together, else 11.
ghost use Rattle.std.specs.Prelude.{◌≡◌, cond, List, [], ℕ};
ghost use Rattle.reading.specs.Refusal.{nr};
ghost use Rattle.writing.specs.Handed.{publish, belongs};
ghost use Rattle.records.specs.AsNumbers.{told_error};
ghost use Rattle.publish_plan.specs.Handed.{handed};

use publish_plan::belong::all_belong;
use publish_plan::head::PublishHead;
use records::error::Error;

// 20 if what is handed over of a Publish does not belong together, else the refusal of its QoS.
pub fn mismatch_or(
    e: Error,
    head: PublishHead,
    response: &[u8],
    correlation: &[u8],
    user: &[u8],
    user_lengths: &[usize],
    identifiers: &[u32],
    content: &[u8],
) -> Error
    ensures { (t p : List ℕ) → told_error result ≡ cond (belongs (publish (handed head t response.now correlation.now user.now user_lengths.now identifiers.now content.now p))) (told_error e) (nr 20 []) }
{
    let together = all_belong(
        head,
        response,
        correlation,
        user,
        user_lengths,
        identifiers,
        content,
    );
    if together {
        return e;
    }
    Error::ListMismatch
}
