// A stream that arrives in pieces (02, P10): an unfinished frame is kept at the front of a lent buffer of 5 to 65,536 bytes.
// A frame that lies in one piece stays there, and no byte of it is copied.
#![tactic(auto)]

ghost use Rattle.pieces.specs.declared.Stop.TheVariants.{Header};
ghost use Rattle.std.specs.Prelude.{◌≡◌, true, ◌++◌, ◌+◌, ◌-◌, ◌≤◌, ◌<◌, min, length, take};
ghost use Rattle.reading.specs.Refusal.{within};
ghost use Rattle.records.specs.AsNumbers.{row_of, values_of, told_values, limit_of};
ghost use Rattle.pieces_rules.specs.Whole.{lacks, frame};
ghost use Rattle.pieces_rules.specs.Step.{serves, waiting, fresh, step_from, called, found_of};
ghost use Rattle.pieces_rules.specs.Judge.{judge_of, spans};
ghost use Rattle.pieces.specs.PieceAnswer.{told_stop, told_judged, told_state, told_step, WholeIn};

use framing::check;
use records::error::Error;
use records::values::Values;
use refusal_numbers;
use write_bytes;

// Why a call gives no frame, and takes nothing.
#[derive(Clone, Copy)]
pub enum Stop {
    // 2 or 3 of a header, which ends the stream
    Header(Error),
    // 35: the buffer has not 5 to 65,536 bytes, or fewer than the state says that it holds
    BadBuffer,
    // 36: the frame is longer than the buffer, which ends the stream
    FrameTooLong,
}

impl From<Error> for Stop {
    ghost from_gives = { λ e r. r ≡ Header e };

    fn from(e: Error) -> Stop {
        Stop::Header(e)
    }
}

// How many bytes the front of the buffer keeps of an unfinished frame, and what has ended the stream, if it has ended.
#[derive(Clone, Copy)]
pub struct State {
    pub held: usize,
    pub end: Option<Stop>,
}

#[derive(Clone, Copy)]
pub enum Given {
    // the piece is taken in, and lacks bytes of a frame
    More,
    // a frame of so many bytes, from the start of the piece on
    InPiece(usize),
    // a frame of so many bytes, from the start of the buffer on
    InBuffer(usize),
}

// Where the next frame lies, or why there is none, now or later; how many bytes of the piece were used up, and the state for the next call.
#[derive(Clone, Copy)]
pub struct Step {
    pub given: Result<Given, Stop>,
    pub used: usize,
    pub state: State,
}

// The number of a refusal: one of 01's, 35 or 36.
pub fn number(why: Stop) -> u8
    ensures { result ≡ row_of (told_stop why) }
{
    match why {
        Stop::Header(e) => refusal_numbers::number(e),
        Stop::BadBuffer => 35,
        Stop::FrameTooLong => 36,
    }
}

// Its values; 35 and 36 have none.
pub fn values(why: Stop) -> Values
    ensures { told_values result ≡ values_of (told_stop why) }
{
    match why {
        Stop::Header(e) => refusal_numbers::values(e),
        Stop::BadBuffer | Stop::FrameTooLong => Values::None,
    }
}

// The state before the first piece: nothing held, nothing ended.
pub fn start() -> State
    ensures { told_state result ≡ fresh }
{
    State { held: 0, end: None }
}

// What the header at the start of `s` says: how long its frame is, if it has all its bytes; 2 of it, then 3, then whether its frame is longer
// than the buffer.
fn judge(s: &[u8], limit: Option<usize>, cap: usize) -> Result<Option<usize>, Stop>
    ensures { told_judged result ≡ judge_of (limit_of limit) cap s.now }
{
    let h = match check::parse_fixed_header(s) {
        Ok(h) => h,
        Err(e) => {
            if let Error::InsufficientBytes(_) = e {
                return Ok(None);
            }
            return Err(Stop::Header(e));
        }
    };
    let f = h.fixed_header_len + h.remaining_len;
    check::limited(h, f, limit)?;
    if cap < f {
        return Err(Stop::FrameTooLong);
    }
    Ok(Some(f))
}

// The same of the fewer than five bytes held and the piece behind them: a header has five bytes at most.
fn judge_joined(
    held: usize,
    limit: Option<usize>,
    buffer: &[u8],
    piece: &[u8],
) -> Result<Option<usize>, Stop>
    requires { (held ≤ length buffer.now) × (held < 5) }
    ensures { told_judged result ≡ judge_of (limit_of limit) (length buffer.now) (take held buffer.now ++ piece.now) }
{
    let mut head: [u8; 5] = [0; 5];
    write_bytes::put_bytes(&mut head, 0, &buffer[..held]);
    write_bytes::put_bytes(&mut head, held, piece);
    let n = head_length(held, piece.len());
    judge(&head[..n], limit, buffer.len())
}

// How many of the first five bytes there are, where fewer are held.
fn head_length(held: usize, more: usize) -> usize
    requires { held < 5 }
    ensures { result ≡ held + min more (5 - held) }
{
    held + more.min(5 - held)
}

// The same of the bytes held and the piece behind them.
fn judge_held(
    held: usize,
    limit: Option<usize>,
    buffer: &[u8],
    piece: &[u8],
) -> Result<Option<usize>, Stop>
    requires { (5 ≤ length buffer.now) × (held ≤ length buffer.now) }
    ensures { told_judged result ≡ judge_of (limit_of limit) (length buffer.now) (take held buffer.now ++ piece.now) }
{
    if held == 0 {
        return judge(piece, limit, buffer.len());
    }
    if 5 <= held {
        return judge(&buffer[..5], limit, buffer.len());
    }
    judge_joined(held, limit, buffer, piece)
}

// The piece is put behind the bytes held; no frame is complete.
fn keep(held: usize, buffer: &mut [u8], piece: &[u8]) -> Step
    requires { (length buffer.old ≤ 65536) × (held + length piece.now ≤ length buffer.old) }
    ensures { told_step result buffer.new ≡ step_from (waiting held) buffer.old piece.now lacks }
{
    write_bytes::put_bytes(buffer, held, piece);
    Step {
        given: Ok(Given::More),
        used: piece.len(),
        state: State {
            held: held + piece.len(),
            end: None,
        },
    }
}

// The first n bytes of the piece complete the frame of f bytes, whose front is held.
fn complete(held: usize, f: usize, n: usize, buffer: &mut [u8], piece: &[u8]) -> Step
    requires { (0 < held) × (n ≡ f - held) × (n ≤ length piece.now) }
    ensures { told_step result buffer.new ≡ step_from (waiting held) buffer.old piece.now (frame f f) }
{
    write_bytes::put_bytes(buffer, held, &piece[..n]);
    Step {
        given: Ok(Given::InBuffer(f)),
        used: n,
        state: start(),
    }
}

// The frame has f bytes.
fn next_length(held: usize, f: usize, limit: Option<usize>, buffer: &mut [u8], piece: &[u8]) -> Step
    requires { (length buffer.old ≤ 65536) × (f ≤ length buffer.old) × (held ≤ length buffer.old) × (spans f ≡ judge_of (limit_of limit) (length buffer.old) (take held buffer.old ++ piece.now)) }
    ensures { told_step result buffer.new ≡ called (limit_of limit) buffer.old piece.now held }
{
    let n = lacking(f, held);
    if piece.len() < n {
        return keep(held, buffer, piece);
    }
    if held == 0 {
        return Step {
            given: Ok(Given::InPiece(f)),
            used: n,
            state: start(),
        };
    }
    complete(held, f, n, buffer, piece)
}

// How many bytes a frame of f bytes lacks.
fn lacking(f: usize, held: usize) -> usize
    ensures { result ≡ f - held }
{
    f.saturating_sub(held)
}

// A refusal, which takes nothing and leaves this state.
fn refused(why: Stop, state: State) -> Step
    ensures { result ≡ record { given = Err why; used = 0; state = state } }
{
    Step {
        given: Err(why),
        used: 0,
        state,
    }
}

// The next frame of a stream that has not ended.
fn next_open(held: usize, limit: Option<usize>, buffer: &mut [u8], piece: &[u8]) -> Step
    requires { (5 ≤ length buffer.old) × (length buffer.old ≤ 65536) × (held ≤ length buffer.old) }
    ensures { told_step result buffer.new ≡ called (limit_of limit) buffer.old piece.now held }
{
    match judge_held(held, limit, buffer, piece) {
        Ok(None) => keep(held, buffer, piece),
        Ok(Some(f)) => next_length(held, f, limit, buffer, piece),
        Err(why) => {
            let state = State {
                held,
                end: Some(why),
            };
            refused(why, state)
        }
    }
}

// A header has so many bytes at most.
const LEAST: usize = 5;

// Whether a buffer of so many bytes serves, and holds what is held.
fn buffer_serves(held: usize, cap: usize) -> bool
    ensures { result ≡ serves held cap }
{
    if cap < LEAST || 65536 < cap {
        return false;
    }
    held <= cap
}

// f if the limit lets a frame of f bytes pass; else 0.
fn if_under(f: usize, limit: Option<usize>) -> usize
    ensures { 0 < result → (result ≡ f) × (within (limit_of limit) f ≡ true) }
{
    if let Some(most) = limit {
        if most < f {
            return 0;
        }
    }
    f
}

// f if n bytes, a buffer of cap bytes and the limit let a frame of f bytes pass; else 0.
fn if_whole(f: usize, n: usize, limit: Option<usize>, cap: usize) -> usize
    ensures { 0 < result → (result ≡ f) × (f ≤ n) × (f ≤ cap) × (serves 0 cap ≡ true) × (within (limit_of limit) f ≡ true) }
{
    if f <= n {
        if f <= cap {
            if buffer_serves(0, cap) {
                return if_under(f, limit);
            }
        }
    }
    0
}

// F of a frame that is whole in the piece, and that no refusal stops; else 0. One number, which stays in a register.
fn whole_length(piece: &[u8], limit: Option<usize>, cap: usize) -> usize
    ensures { WholeIn (limit_of limit) cap piece.now result }
{
    match check::parse_fixed_header(piece) {
        Err(_) => 0,
        Ok(h) => if_whole(
            h.fixed_header_len + h.remaining_len,
            piece.len(),
            limit,
            cap,
        ),
    }
}

// The same from a state that holds nothing and has not ended; else 0.
fn fresh_length(state: State, limit: Option<usize>, cap: usize, piece: &[u8]) -> usize
    ensures { 0 < result → (told_state state ≡ fresh) × WholeIn (limit_of limit) cap piece.now result }
{
    if state.held == 0 && state.end.is_none() {
        return whole_length(piece, limit, cap);
    }
    0
}

// The next frame, as the state, the buffer and the header decide.
fn next_judged(state: State, limit: Option<usize>, buffer: &mut [u8], piece: &[u8]) -> Step
    ensures { told_step result buffer.new ≡ found_of (told_state state) buffer.old piece.now (limit_of limit) }
{
    if !buffer_serves(state.held, buffer.len()) {
        return refused(Stop::BadBuffer, state);
    }
    match state.end {
        None => next_open(state.held, limit, buffer, piece),
        Some(why) => refused(why, state),
    }
}

// The next frame, of the bytes held and the piece behind them. It is called again with the rest of the piece after each `InPiece` and
// `InBuffer`, until there is none.
pub fn next_frame(state: State, limit: Option<usize>, buffer: &mut [u8], piece: &[u8]) -> Step
    ensures { told_step result buffer.new ≡ found_of (told_state state) buffer.old piece.now (limit_of limit) }
{
    let f = fresh_length(state, limit, buffer.len(), piece);
    if 0 < f {
        return Step {
            given: Ok(Given::InPiece(f)),
            used: f,
            state: start(),
        };
    }
    next_judged(state, limit, buffer, piece)
}
