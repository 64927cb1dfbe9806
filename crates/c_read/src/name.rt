// The name of a refusal by its number.
ghost use Rattle.std.specs.Prelude.{◌≡◌, length};
ghost use Rattle.std.proofs.lemmas.List.Edits.{sets};
ghost use Rattle.refusal_names.specs.Names.{name_at};

use records::span::Span;
use wire::string;
use write_bytes::put_bytes;

// How many bytes the name has; those that fit are stored.
pub fn ecch_name(number: u32, into: &mut [u8]) -> usize
    ensures size { result ≡ length (name_at number) }
    ensures stored { into.new ≡ sets into.old 0 (name_at number) }
{
    let name = refusal_names::name_at(number);
    let bytes = name.bytes;
    let len = name.len;
    let name = string::part(&bytes, Span { start: 0, len });
    put_bytes(&mut *into, 0, name);
    len
}
