// Subscribe, after `Subscribe::read` of subscribe.rs: the fields of a frame from an index to the end of the slice.
#![tactic(auto)]

ghost use Rattle.std.specs.Prelude.{◌≡◌, ℕ, length, drop};
ghost use Rattle.grammar.specs.Tables.{a_subscribe};
ghost use Rattle.reading.specs.Read.{fields_fit};
ghost use Rattle.reading.specs.Place.{as_places};
ghost use Rattle.subscribe.specs.SubscribeRead.{told_got_subscribe};

use filter_runs::read_filters;
use numbers::fixed;
use properties::row_block;
use records::error::Error;
use records::subscribe_record::Subscribe;
use tables::property::OtherRow;

// The Subscribe in the fields from index `at` on, or the first refusal from the left; whatever the first byte x of the frame: its flags are
// ignored.
pub fn read(s: &[u8], at: usize) -> Result<Subscribe, Error>
    ensures { (x : ℕ) → told_got_subscribe result ≡ fields_fit as_places a_subscribe x (length s.now) (drop at s.now) }
{
    let (pkid, next) = fixed::read_u16(s, at)?;
    let (properties, start) = row_block::read_block(OtherRow::Subscribe, s, next)?;
    let filters = read_filters(s, start)?;
    Ok(Subscribe {
        pkid,
        filters,
        properties,
    })
}
