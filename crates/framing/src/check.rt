// Whether a stream starts with a whole frame, after `parse_fixed_header` and `check` of v5/mod.rs: refusals 1, 2 and 3 in 01's order.
ghost use Rattle.std.specs.Prelude.{◌≡◌};
ghost use Rattle.positions.specs.Position.{from_at};
ghost use Rattle.records.specs.AsNumbers.{limit_of};
ghost use Rattle.framing.specs.HeaderRead.{header_in, header_of, told_header, Small, limited_to, whole_in, frame_at, told_checked};

use crate::header::FixedHeader;
use records::error::Error;
use var_length;
use var_length::LengthError;

// The first byte, R, and where the R bytes start, whether or not they follow; 1 with n, or 2.
pub fn parse_fixed_header(stream: &[u8]) -> Result<FixedHeader, Error>
    ensures { (told_header result ≡ from_at header_of stream.now 0) × Small result }
{
    if stream.len() < 1 {
        return Err(Error::InsufficientBytes(2));
    }
    let byte1 = stream[0];
    match var_length::length(stream, 1) {
        Ok((n, count)) => {
            let start = 1 + count;
            Ok(FixedHeader {
                byte1,
                fixed_header_len: start,
                remaining_len: n as usize,
            })
        }
        Err(LengthError::Cut) => Err(Error::InsufficientBytes(1)),
        Err(LengthError::Long) => Err(Error::MalformedRemainingLength),
    }
}

// 3: the header of a frame of F bytes, if the limit lets F pass.
pub fn limited(h: FixedHeader, size: usize, limit: Option<usize>) -> Result<FixedHeader, Error>
    ensures { told_header result ≡ limited_to (limit_of limit) size (header_in h) }
{
    if let Some(most) = limit {
        if most < size {
            return Err(Error::PayloadSizeLimitExceeded(size, most));
        }
    }
    Ok(h)
}

// 1: the header, if R bytes are among those held behind it.
fn whole(h: FixedHeader, held: usize) -> Result<FixedHeader, Error>
    ensures { told_header result ≡ whole_in held (header_in h) }
{
    let rest = h.remaining_len;
    if held < rest {
        let lacks = rest - held;
        return Err(Error::InsufficientBytes(lacks));
    }
    Ok(h)
}

// The header, if the limit lets F pass and R bytes follow; else 1, 2 or 3 (with F), in 01's order.
pub fn check(stream: &[u8], limit: Option<usize>) -> Result<FixedHeader, Error>
    ensures { told_checked stream.now result ≡ frame_at (limit_of limit) stream.now }
{
    let h = parse_fixed_header(stream)?;
    let held = stream.len() - h.fixed_header_len;
    let size = h.fixed_header_len + h.remaining_len;
    limited(h, size, limit)?;
    whole(h, held)
}
