// How every kind is written (01, writing order): the refusals in their order from what a kind has found, and its size. The crate's
// `write` of each kind repeats these lines, and tests the limit first (D7).
#![tactic(auto)]

ghost use Rattle.std.specs.Prelude.{◌≡◌, ◌+◌, ◌≤◌};
ghost use Rattle.writing.specs.Size.{most, with_length};
ghost use Rattle.writing.specs.Order.{judge, limit_tests};
ghost use Rattle.records.specs.AsNumbers.{limit_of};
ghost use Rattle.records.specs.Answered.{told_size};
ghost use Rattle.write_tests.specs.Tested.{told_tested};
ghost use Rattle.write_order.specs.Found.{within_room, settled_of, size_alone};

use records::error::Error;
use write_sizes::{MOST, len_len};

// One byte, R, and R bytes.
fn frame_size(rest: usize) -> usize
    requires { rest ≤ most }
    ensures { result ≡ 1 + with_length rest }
{
    1 + (len_len(rest) + rest)
}

// The size, from whether what is handed over belongs together (20), and R, cut off where it is too large (17).
pub fn size(belongs: bool, rest: usize) -> Result<usize, Error>
    ensures { told_size result ≡ size_alone belongs rest }
{
    if !belongs {
        return Err(Error::ListMismatch);
    }
    if MOST < rest {
        Err(Error::PayloadTooLong)
    } else {
        Ok(frame_size(rest))
    }
}

// 16 if the size is above the limit.
fn within(limit: Option<usize>, size: usize) -> Result<(), Error>
    ensures { told_tested result ≡ judge (limit_tests (limit_of limit) size) }
{
    match limit {
        None => Ok(()),
        Some(m) => {
            if m < size {
                return Err(Error::OutgoingPacketTooLarge(size, m));
            }
            Ok(())
        }
    }
}

// 19 if the output is shorter than the size, else the size.
fn fit(size: usize, room: usize) -> Result<usize, Error>
    ensures { told_size result ≡ within_room size room }
{
    if room < size {
        return Err(Error::NoRoom(size));
    }
    Ok(size)
}

// The answer, from what is found: `early` says 20 and the fields, `rest` is R, cut off where it is too large, `late` says 12, 17 for
// identifiers, and 13.
pub fn settle(
    early: Result<(), Error>,
    rest: usize,
    limit: Option<usize>,
    late: Result<(), Error>,
    room: usize,
) -> Result<usize, Error>
    ensures { told_size result ≡ settled_of (told_tested early) rest (limit_of limit) (told_tested late) room }
{
    early?;
    if MOST < rest {
        return Err(Error::PayloadTooLong);
    }
    let size = frame_size(rest);
    within(limit, size)?;
    late?;
    fit(size, room)
}
