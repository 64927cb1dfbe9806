// Where a property block stands: its length, as the `read`s of publish.rs, subscribe.rs and puback.rs begin. The end of the slice is
// the end of its room.
ghost use Rattle.std.specs.Prelude.{◌≡◌};
ghost use Rattle.std.proofs.Math.ListN as list;
ghost use Rattle.positions.specs.Position.{from_at};
ghost use Rattle.wire.specs.StringRead.{told_part};
ghost use Rattle.properties.specs.Block.{extent_of};

use records::error::Error;
use records::span::Span;
use var_length;

// The L bytes after a length L, and the index after them. An L above what is left is refused before any property is looked at (D2).
pub fn read_room(s: &[u8], at: usize) -> Result<(Span, usize), Error>
    ensures { told_part result ≡ from_at (extent_of (list.length s.now)) s.now at }
{
    let (n, start) = var_length::read_length(s, at)?;
    let len = n as usize;
    if s.len() - start < len {
        return Err(Error::BoundaryCrossed(len));
    }
    Ok((Span { start, len }, start + len))
}
