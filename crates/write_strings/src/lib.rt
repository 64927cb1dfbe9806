// Strings as they are written, a u16 length and that many bytes: `write_mqtt_bytes` of v5/mod.rs. The put has no refusal: what does not
// fit puts nothing. `write_mqtt_bytes` refuses.
#![tactic(auto)]

ghost use Rattle.std.specs.Prelude.{◌≡◌, ◌≤◌, length};
ghost use Rattle.std.proofs.lemmas.List.Edits.{sets};
ghost use Rattle.writing.specs.Spell.{string};
ghost use Rattle.writing.specs.Order.{length_test};
ghost use Rattle.records.specs.Answered.{told_size};
ghost use Rattle.write_numbers.specs.Leaf.{LeafWritten};
ghost use Rattle.write_strings.specs.Fitting.{fit_string};

use records::error::Error;
use write_bytes::put_bytes;
use write_numbers::fixed::Fixed;
use write_tests::test_raw;

// Two bytes of length and the bytes.
fn put_fitting(out: &mut [u8], at: usize, s: &[u8])
    requires { length s.now ≤ 65535 }
    ensures { out.new ≡ sets out.old at (string s.now) }
{
    if at < out.len() {
        (s.len() as u16).put(&mut *out, at);
        put_bytes(&mut *out, at + 2, s);
    }
}

// The same of any string, and how many bytes they are: of one above 65,535 bytes none, and the output stays as it stood.
pub fn put_string(out: &mut [u8], at: usize, s: &[u8]) -> usize
    ensures { (out.new ≡ sets out.old at (fit_string s.now)) × (result ≡ length (fit_string s.now)) }
{
    if 65535 < s.len() {
        return 0;
    }
    put_fitting(&mut *out, at, s);
    2 + s.len()
}

// A string whose length is fine.
fn write_string(out: &mut [u8], s: &[u8]) -> Result<usize, Error>
    requires { length s.now ≤ 65535 }
    ensures { LeafWritten (length_test s.now) (string s.now) out.old out.new (told_size result) }
{
    let size = 2 + s.len();
    if out.len() < size {
        return Err(Error::NoRoom(size));
    }
    put_fitting(&mut *out, 0, s);
    Ok(size)
}

// Writes a length and the bytes, and gives how many they are together: 18 above 65,535 bytes, then 19 with the size where there is no room; a
// refusal leaves the output as it stood.
pub fn write_mqtt_bytes(out: &mut [u8], s: &[u8]) -> Result<usize, Error>
    ensures { LeafWritten (length_test s.now) (string s.now) out.old out.new (told_size result) }
{
    test_raw(s)?;
    write_string(&mut *out, s)
}
