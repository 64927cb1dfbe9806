// A bit, and big-endian numbers of one, two and four bytes, after `read_u8`, `read_u16` and `read_u32` of v5/mod.rs.
// A read refuses where a byte is lacking.
ghost use Rattle.std.specs.Prelude.{◌≡◌, ◌+◌, ◌-◌, ◌*◌, ◌%◌, ◌<◌, length};
ghost use Rattle.reading.specs.Refusal.{cut};
ghost use Rattle.reading.specs.Read.{byte_of, big_of};
ghost use Rattle.positions.specs.Position.{from_at};
ghost use Rattle.records.specs.AsNumbers.{told_bool};
ghost use Rattle.numbers.specs.NumberRead.{told_got_number};

use records::error::Error;

// How many bytes stand from `at` on.
fn left(s: &[u8], at: usize) -> usize
    ensures { result ≡ length s.now - at }
{
    if at < s.len() { s.len() - at } else { 0 }
}

// One digit more, behind those that are worth `high`.
fn digit(high: u32, low: u8) -> u32
    requires { high < 16777216 }
    ensures { (result ≡ high * 256 + low) × (result < (high + 1) * 256) }
{
    high * 256 + low as u32
}

// A flag, which is the lowest bit.
pub fn flag(n: u8) -> bool
    ensures { told_bool result ≡ n % 2 }
{
    n % 2 == 1
}

// The byte at index `at` and the index after it, or 7.
pub fn read_u8(s: &[u8], at: usize) -> Result<(u8, usize), Error>
    ensures { told_got_number result ≡ from_at (byte_of cut) s.now at }
{
    if left(s, at) < 1 {
        return Err(Error::MalformedPacket);
    }
    Ok((s[at], at + 1))
}

// The big-endian number of the two bytes from index `at` on and the index after them, or 7.
pub fn read_u16(s: &[u8], at: usize) -> Result<(u16, usize), Error>
    ensures { told_got_number result ≡ from_at (big_of cut 2) s.now at }
{
    if s.len() < 2 {
        return Err(Error::MalformedPacket);
    }
    if s.len() - 2 < at {
        return Err(Error::MalformedPacket);
    }
    let high = s[at];
    let low = s[at + 1];
    Ok((digit(digit(0, high), low) as u16, at + 2))
}

// The big-endian number of the four bytes from index `at` on and the index after them, or 7.
pub fn read_u32(s: &[u8], at: usize) -> Result<(u32, usize), Error>
    ensures { told_got_number result ≡ from_at (big_of cut 4) s.now at }
{
    if left(s, at) < 4 {
        return Err(Error::MalformedPacket);
    }
    Ok((
        digit(
            digit(digit(digit(0, s[at]), s[at + 1]), s[at + 2]),
            s[at + 3],
        ),
        at + 4,
    ))
}
