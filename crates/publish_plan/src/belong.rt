// Whether what is handed over of a Publish belongs together (01, row 20).
ghost use Rattle.std.specs.Prelude.{◌≡◌, List, ℕ};
ghost use Rattle.writing.specs.Handed.{publish, belongs};
ghost use Rattle.publish_plan.specs.Handed.{handed};

use crate::head::PublishHead;
use write_belongs;
use write_belongs::both;

// 20: nothing stands for an absent value or block, and lengths add up, of the eight rows.
pub fn all_belong(
    head: PublishHead,
    response_topic: &[u8],
    correlation_data: &[u8],
    user: &[u8],
    user_lengths: &[usize],
    subscription_identifiers: &[u32],
    content_type: &[u8],
) -> bool
    ensures { (t p : List ℕ) → result ≡ belongs (publish (handed head t response_topic.now correlation_data.now user.now user_lengths.now subscription_identifiers.now content_type.now p)) }
{
    let block = head.block;
    let format = head.payload_format_indicator;
    let expiry = head.message_expiry_interval;
    let alias = head.topic_alias;
    let ids = write_belongs::ids_belong(block, subscription_identifiers);
    let content = write_belongs::lent_belongs(block, head.content_type, content_type);
    let lists = both(
        write_belongs::pairs_belong(block, user, user_lengths),
        both(ids, content),
    );
    let correlation = write_belongs::lent_belongs(block, head.correlation_data, correlation_data);
    let response = write_belongs::lent_belongs(block, head.response_topic, response_topic);
    let strings = both(response, both(correlation, lists));
    let numbers = both(write_belongs::one_belongs(block, alias), strings);
    both(
        write_belongs::one_belongs(block, format),
        both(write_belongs::one_belongs(block, expiry), numbers),
    )
}
