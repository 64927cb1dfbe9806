// The tidy form of a frame (02, P14), as C asks for it; bindings/c/ecchjulmina.h has the words.
ghost use Rattle.std.specs.Prelude.{◌≡◌, length};
ghost use Rattle.std.proofs.lemmas.List.Edits.{sets};
ghost use Rattle.tidying.specs.Tidied.{tidied_of, size_in, stands_in};
ghost use Rattle.c_tidy.specs.Numbers.{tidy_number, tidy_numbers};

// The tidy form of the frame at the start of the stream, put at the start of `out`: 0, or the refusal's number.
#[unsafe(no_mangle)]
pub extern "C" fn ecch_tidy(stream: &[u8], out: &mut [u8], answer: &mut [u64]) -> u32
    ensures number { result ≡ tidy_number (size_in (tidied_of stream.now (length out.old))) }
    ensures put { out.new ≡ stands_in out.old (tidied_of stream.now (length out.old)) }
    ensures stored { answer.new ≡ sets answer.old 0 (tidy_numbers (size_in (tidied_of stream.now (length out.old)))) }
{
    c_tidy::ecch_tidy(stream, &mut *out, &mut *answer)
}
