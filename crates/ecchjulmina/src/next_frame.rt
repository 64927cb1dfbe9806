// Where the next frame of a stream that arrives in pieces lies (02, P10), as C asks for it; bindings/c/ecchjulmina.h has the words.
ghost use Rattle.std.specs.Prelude.{◌≡◌};
ghost use Rattle.std.proofs.lemmas.List.Edits.{sets};
ghost use Rattle.c_arguments.specs.Given.{limit_given};
ghost use Rattle.c_pieces.specs.Frame.{gave_number, frame_numbers, frame_for, state_after};

// The next frame, of the bytes held and the piece behind them: 0, or the refusal's number; 35 too where the numbers stand for no state.
#[unsafe(no_mangle)]
pub extern "C" fn ecch_next_frame(
    limited: u8,
    limit: usize,
    state: &mut [u64],
    buffer: &mut [u8],
    piece: &[u8],
    into: &mut [u64],
) -> u32
    ensures number { result ≡ gave_number (frame_for (limit_given limited limit) state.old buffer.old piece.now).gives }
    ensures kept { state.new ≡ state_after state.old (frame_for (limit_given limited limit) state.old buffer.old piece.now).state }
    ensures held { buffer.new ≡ (frame_for (limit_given limited limit) state.old buffer.old piece.now).buffer }
    ensures stored { into.new ≡ sets into.old 0 (frame_numbers (frame_for (limit_given limited limit) state.old buffer.old piece.now).gives (frame_for (limit_given limited limit) state.old buffer.old piece.now).used) }
{
    c_pieces::ecch_next_frame(limited, limit, &mut *state, &mut *buffer, piece, &mut *into)
}
