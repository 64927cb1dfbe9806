// PingReq and PingResp, written, after `write` and `size` of ping.rs: two bytes each.
#![tactic(auto)]

ghost use Rattle.std.specs.Prelude.{◌≡◌, ℕ};
ghost use Rattle.writing.specs.Handed.{ping};
ghost use Rattle.grammar.specs.Tables.{first_of};
ghost use Rattle.writing.specs.Write.{size_of, Written as WrittenOf};
ghost use Rattle.records.specs.AsNumbers.{limit_of};
ghost use Rattle.records.specs.Answered.{told_size};

use kinds;
use records::error::Error;

// The size of either ping: 2.
pub fn ping_size() -> Result<usize, Error>
    ensures { (k : ℕ) → told_size result ≡ size_of (ping k) }
{
    write_order::size(true, 0)
}

fn write_ping(first: u8, limit: Option<usize>, out: &mut [u8]) -> Result<usize, Error>
    ensures { (k : ℕ) → first ≡ first_of k → WrittenOf (limit_of limit) (ping k) out.old out.new (told_size result) }
{
    let n = write_order::settle(Ok(()), 0, limit, Ok(()), out.len())?;
    write_properties::put_header(&mut *out, first, 0);
    Ok(n)
}

// A PingReq, C0 00, and its size; a refused write leaves the output as it stood.
pub fn write_ping_req(limit: Option<usize>, out: &mut [u8]) -> Result<usize, Error>
    ensures { WrittenOf (limit_of limit) (ping 12) out.old out.new (told_size result) }
{
    write_ping(kinds::first_byte(12), limit, &mut *out)
}

// A PingResp, D0 00, likewise.
pub fn write_ping_resp(limit: Option<usize>, out: &mut [u8]) -> Result<usize, Error>
    ensures { WrittenOf (limit_of limit) (ping 13) out.old out.new (told_size result) }
{
    write_ping(kinds::first_byte(13), limit, &mut *out)
}
