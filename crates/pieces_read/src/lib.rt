// The next record or refusal of a stream that arrives in pieces (02, P10).
#![tactic(auto)]

ghost use Rattle.std.specs.Prelude.{◌≡◌, take};
ghost use Rattle.records.specs.AsNumbers.{limit_of};
ghost use Rattle.pieces_rules.specs.Step.{read_in, step_of};
ghost use Rattle.pieces.specs.PieceAnswer.{told_state, told_given};
ghost use Rattle.pieces_read.specs.PacketAnswer.{told_answer, told_reply, Carries};

use packet;
use pieces;
use pieces::{Given, State, Stop};
use records::answer::Read;

#[derive(Clone, Copy)]
pub enum Answer {
    // the piece is taken in, and lacks bytes of a frame
    More,
    // a frame's record or refusal; the record's places lie in the piece
    InPiece(Read),
    // a frame's record or refusal; the record's places lie in the buffer
    InBuffer(Read),
}

// The answer, or why there is no frame, now or later; how many bytes of the piece it used up, and the state for the next call.
#[derive(Clone, Copy)]
pub struct Reply {
    pub answer: Result<Answer, Stop>,
    pub used: usize,
    pub state: State,
}

// The first n bytes, or all that there are.
fn front(s: &[u8], n: usize) -> &[u8]
    ensures { result.now ≡ take n s.now }
{
    if s.len() < n {
        return s;
    }
    &s[..n]
}

// The answer to a frame that was found, read where it lies.
fn answer_in(
    given: Result<Given, Stop>,
    limit: Option<usize>,
    buffer: &[u8],
    piece: &[u8],
) -> Result<Answer, Stop>
    ensures answer { told_answer result ≡ read_in (limit_of limit) piece.now buffer.now (told_given given) }
    ensures carries { Carries result }
{
    Ok(match given? {
        Given::More => Answer::More,
        Given::InPiece(n) => Answer::InPiece(packet::read(front(piece, n), limit)),
        Given::InBuffer(n) => Answer::InBuffer(packet::read(front(buffer, n), limit)),
    })
}

// The next answer, of the bytes held and the piece behind them. After `InPiece` and `InBuffer` it is called again with the rest of the piece.
pub fn next(state: State, limit: Option<usize>, buffer: &mut [u8], piece: &[u8]) -> Reply
    ensures answer { told_reply result buffer.new ≡ step_of (told_state state) buffer.old piece.now (limit_of limit) }
    ensures carries { Carries result.answer }
{
    let step = pieces::next_frame(state, limit, buffer, piece);
    Reply {
        answer: answer_in(step.given, limit, buffer, piece),
        used: step.used,
        state: step.state,
    }
}
