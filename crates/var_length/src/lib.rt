// The variable length number, after `length` of v5/mod.rs: one to four bytes, seven bits each, low group first.
#![tactic(auto)]

ghost use Rattle.std.specs.Prelude.{◌≡◌, ◌||◌, ◌<◌, leb};
ghost use Rattle.reading.specs.Refusal.{Refusal, cut};
ghost use Rattle.reading.specs.Read.{num_of};
ghost use Rattle.positions.specs.Position.{from_at};
ghost use Rattle.numbers.specs.NumberRead.{told_got_number};
ghost use Rattle.var_length.specs.Length.{told_length};

use records::error::Error;

// Why no number stands at an index, with no word yet on what a number cut off means: the header and a frame refuse it in different ways.
#[derive(Clone, Copy)]
pub enum LengthError {
    // the bytes end before the number does
    Cut,
    // the fourth byte has its top bit set, or fewer bytes could spell the number
    Long,
}

fn widen(b: u8) -> u32
    ensures { (result ≡ b) × (result < 256) }
{
    b as u32
}

// Whether a number needs its bytes: it has one, or it is not below the unit that its last byte counts.
fn is_shortest(n: u32, unit: u32, count: usize) -> bool
    ensures { result ≡ (leb count 1 || leb unit n) }
{
    if count <= 1 {
        return true;
    }
    unit <= n
}

// The variable length number at index `at`, and how many bytes spell it; cut off; or malformed: four bytes without an end, or more than
// needed.
pub fn length(s: &[u8], at: usize) -> Result<(u32, usize), LengthError>
    ensures { (c : Refusal) → told_length c at result ≡ from_at (num_of c 4) s.now at }
{
    let mut value: u32 = 0;
    let mut unit: u32 = 1;
    let mut next = at;
    loop {
        if s.len() <= next {
            break Err(LengthError::Cut);
        }
        let b = widen(s[next]);
        next = next + 1;
        let count = next - at;
        if b < 128 {
            let n = value + b * unit;
            if is_shortest(n, unit, count) {
                break Ok((n, count));
            }
            break Err(LengthError::Long);
        }
        if 4 <= count {
            break Err(LengthError::Long);
        }
        value = value + (b - 128) * unit;
        unit = unit * 128;
    }
}

// The same inside a frame: the number and the index after it, or 7, or 2.
pub fn read_length(s: &[u8], at: usize) -> Result<(u32, usize), Error>
    ensures { told_got_number result ≡ from_at (num_of cut 4) s.now at }
{
    match length(s, at) {
        Ok((n, count)) => {
            let next = at + count;
            Ok((n, next))
        }
        Err(LengthError::Cut) => Err(Error::MalformedPacket),
        Err(LengthError::Long) => Err(Error::MalformedRemainingLength),
    }
}
