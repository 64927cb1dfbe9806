// The name of a refusal by its number.
ghost use Rattle.std.specs.Prelude.{◌≡◌, length};
ghost use Rattle.std.proofs.lemmas.List.Edits.{sets};
ghost use Rattle.refusal_names.specs.Names.{name_at};

// How many bytes the name has; those that fit are stored.
#[unsafe(no_mangle)]
pub extern "C" fn ecch_name(number: u32, into: &mut [u8]) -> usize
    ensures size { result ≡ length (name_at number) }
    ensures stored { into.new ≡ sets into.old 0 (name_at number) }
{
    c_read::name::ecch_name(number, &mut *into)
}
