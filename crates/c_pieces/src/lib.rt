// Where the next frame of a stream that arrives in pieces lies (02, P10), as C asks for it; bindings/c/ecchjulmina.h has the words.
#![tactic(auto)]

ghost use Rattle.std.specs.Prelude.{◌≡◌};
ghost use Rattle.std.proofs.lemmas.List.Edits.{sets};
ghost use Rattle.records.specs.AsNumbers.{limit_of};
ghost use Rattle.pieces_rules.specs.Step.{found_of};
ghost use Rattle.pieces.specs.PieceAnswer.{told_state, told_given, told_step};
ghost use Rattle.c_arguments.specs.Given.{limit_given};
ghost use Rattle.c_pieces.specs.Frame.{told_got_end, end_given, told_got_state, state_given, state_numbers, gave_number, frame_numbers, frame_for, state_after};

use c_arguments::number::bound;
use c_layout::store::store;
use c_layout::value::{first_value, second_value};
use pieces;
use pieces::{Given, State, Step, Stop};
use records::error::Error;

// What has ended the stream, by the refusal's number and values, if it is one that does.
fn end_of(number: u64, first: u64, second: u64) -> Option<Option<Stop>>
    ensures { told_got_end result ≡ end_given number first second }
{
    if number == 0 {
        return Some(None);
    }
    if number == 2 {
        return Some(Some(Stop::Header(Error::MalformedRemainingLength)));
    }
    if number == 3 {
        let size = first as usize;
        let most = second as usize;
        return Some(Some(Stop::Header(Error::PayloadSizeLimitExceeded(size, most))));
    }
    if number == 36 {
        return Some(Some(Stop::FrameTooLong));
    }
    None
}

// The state that the numbers stand for.
fn state_of(state: &[u64]) -> Option<State>
    ensures { told_got_state result ≡ state_given state.now }
{
    if state.len() < 4 {
        return None;
    }
    let held = state[0];
    let end = end_of(state[1], state[2], state[3])?;
    Some(State {
        held: held as usize,
        end,
    })
}

// The numbers that a state is kept as.
fn state_numbers(state: State) -> [u64; 4]
    ensures { result ≡ state_numbers (told_state state) }
{
    let held = state.held as u64;
    let end = state.end;
    match end {
        None => [held, 0, 0, 0],
        Some(why) => {
            let number = pieces::number(why) as u64;
            let v = pieces::values(why);
            [held, number, first_value(v), second_value(v)]
        }
    }
}

// 0, or the refusal's number.
fn frame_number(given: Result<Given, Stop>) -> u32
    ensures { result ≡ gave_number (told_given given) }
{
    match given {
        Ok(_) => 0,
        Err(why) => pieces::number(why) as u32,
    }
}

// The bytes of the piece used up, the refusal's values, where the frame lies, and F.
fn frame_numbers(given: Result<Given, Stop>, used: u64) -> [u64; 5]
    ensures { result ≡ frame_numbers (told_given given) used }
{
    match given {
        Ok(Given::More) => [used, 0, 0, 0, 0],
        Ok(Given::InPiece(n)) => [used, 0, 0, 1, n as u64],
        Ok(Given::InBuffer(n)) => [used, 0, 0, 2, n as u64],
        Err(why) => {
            let v = pieces::values(why);
            [used, first_value(v), second_value(v), 0, 0]
        }
    }
}

// The answer's numbers are stored.
fn store_frame(given: Result<Given, Stop>, used: usize, into: &mut [u64]) -> u32
    ensures number { result ≡ gave_number (told_given given) }
    ensures stored { into.new ≡ sets into.old 0 (frame_numbers (told_given given) used) }
{
    let numbers = frame_numbers(given, used as u64);
    store(&mut *into, &numbers);
    frame_number(given)
}

// The state's numbers are stored.
fn store_state(after: State, state: &mut [u64])
    ensures { state.new ≡ sets state.old 0 (state_numbers (told_state after)) }
{
    let numbers = state_numbers(after);
    store(&mut *state, &numbers);
}

// The step from the state `before`.
fn step_from(
    before: State,
    limit: Option<usize>,
    state: &mut [u64],
    buffer: &mut [u8],
    piece: &[u8],
) -> Step
    ensures step { told_step result buffer.new ≡ found_of (told_state before) buffer.old piece.now (limit_of limit) }
    ensures kept { state.new ≡ sets state.old 0 (state_numbers (told_state result.state)) }
{
    let step = pieces::next_frame(before, limit, &mut *buffer, piece);
    let after = step.state;
    store_state(after, &mut *state);
    step
}

// The step from the state that the numbers stand for; 35 if they stand for none, and nothing changes.
fn step_of(limit: Option<usize>, state: &mut [u64], buffer: &mut [u8], piece: &[u8]) -> Step
    ensures step { told_step result buffer.new ≡ frame_for (limit_of limit) state.old buffer.old piece.now }
    ensures kept { state.new ≡ state_after state.old (told_state result.state) }
{
    let Some(before) = state_of(&*state) else {
        return Step {
            given: Err(Stop::BadBuffer),
            used: 0,
            state: pieces::start(),
        };
    };
    step_from(before, limit, &mut *state, &mut *buffer, piece)
}

// The next frame, of the bytes held and the piece behind them: 0, or the refusal's number; 35 too where the numbers stand for no state.
pub fn ecch_next_frame(
    limited: u8,
    limit: usize,
    state: &mut [u64],
    buffer: &mut [u8],
    piece: &[u8],
    into: &mut [u64],
) -> u32
    ensures number { result ≡ gave_number (frame_for (limit_given limited limit) state.old buffer.old piece.now).gives }
    ensures kept { state.new ≡ state_after state.old (frame_for (limit_given limited limit) state.old buffer.old piece.now).state }
    ensures held { buffer.new ≡ (frame_for (limit_given limited limit) state.old buffer.old piece.now).buffer }
    ensures stored { into.new ≡ sets into.old 0 (frame_numbers (frame_for (limit_given limited limit) state.old buffer.old piece.now).gives (frame_for (limit_given limited limit) state.old buffer.old piece.now).used) }
{
    let step = step_of(bound(limited, limit), &mut *state, &mut *buffer, piece);
    let given = step.given;
    let used = step.used;
    store_frame(given, used, &mut *into)
}
