// The client's record of outgoing messages that await an answer (P4 of 02). A call takes the table and hands back the one that it
// leaves behind, with its answer. Refusals are 29 to 31.
#![tactic(auto)]

ghost use Rattle.std.specs.Prelude.{◌≡◌, ◌==◌, min, replicate, position};
ghost use Rattle.inflight.specs.Rules.{limit, free, first_free, claim_for, claimed, wait_of, put, settled, became_of, waiting, call, pub_ack, pub_rec, pub_comp, answer_by};
ghost use Rattle.inflight.specs.TableAnswer.{code_of, waits_of, answer_of, after_claim, after_answer};
ghost use Rattle.records.specs.AsNumbers.{told_qos, told_ack_kind};

use records::ack_record::{Ack, AckKind};
use records::qos::QoS;

// Identifiers are 1 to LIMIT; `limit` of specs/Rules.antt is the same number.
pub const LIMIT: usize = 1024;

// What the place of an identifier waits for.
#[derive(Clone, Copy, PartialEq, Eq)]
pub enum Wait {
    Free,
    PubAck,
    PubRec,
    PubComp,
}

#[derive(Clone, Copy)]
pub struct Place {
    pub wait: Wait,
}

// The place of identifier n is at n - 1.
#[derive(Clone, Copy)]
pub struct InFlight {
    pub places: [Place; LIMIT],
}

// Why a claim is refused.
#[derive(Clone, Copy, Debug, PartialEq, Eq)]
pub enum ClaimError {
    // 29: no identifier is free
    InFlightFull,
    // 30: QoS 0 has no identifier
    NoClaim,
}

// P4 has a call hand back its table, on a refusal too: the answer stands beside it.
#[derive(Clone, Copy)]
pub struct Claimed {
    pub table: InFlight,
    // the identifier that was free and now waits
    pub claim: Result<u16, ClaimError>,
}

// What became of the identifier of an answer.
#[derive(Clone, Copy, Debug, PartialEq, Eq)]
pub enum Answer {
    // the identifier is free again
    Freed,
    // the identifier waits for PubComp now
    Moved,
}

// 31: the identifier does not wait for this answer.
#[derive(Clone, Copy, Debug, PartialEq, Eq)]
pub struct NotWaiting;

#[derive(Clone, Copy)]
pub struct Answered {
    pub table: InFlight,
    pub answer: Result<Answer, NotWaiting>,
}

// The number of what a place waits for, as P11 stores it.
// No From and TryFrom: the edits pubcomp_is_free and two_is_pubcomp name these, and a TryFrom would say less of the numbers above 3.
pub fn code(w: Wait) -> u8
    ensures { result ≡ code_of w }
{
    match w {
        Wait::Free => 0,
        Wait::PubAck => 1,
        Wait::PubRec => 2,
        Wait::PubComp => 3,
    }
}

// What a number stands for, as P11 stores it; one above 3 for PubComp.
pub fn wait_of(code: u8) -> Wait
    ensures { code_of result ≡ min code 3 }
{
    match code {
        0 => Wait::Free,
        1 => Wait::PubAck,
        2 => Wait::PubRec,
        3..=255 => Wait::PubComp,
    }
}

impl InFlight {
    // The table with every place free.
    pub fn new() -> InFlight
        ensures { waits_of result ≡ replicate limit free }
    {
        let free = Place { wait: Wait::Free };
        let places = [free; LIMIT];
        InFlight { places }
    }

    // The first place that is free.
    fn first_free(self) -> Option<usize>
        ensures { result ≡ position (λ p. code_of p.wait == 0) self.places }
    {
        self.places.iter().position(|p| code(p.wait) == 0)
    }

    // The smallest free identifier, now waiting for `w`.
    fn claim_for(self, w: Wait) -> Claimed
        ensures { after_claim result ≡ claim_for (code_of w) (waits_of self) }
    {
        let Some(i) = self.first_free() else {
            return Claimed {
                table: self,
                claim: Err(ClaimError::InFlightFull),
            };
        };
        let mut table = self;
        table.places[i] = Place { wait: w };
        Claimed {
            table,
            claim: Ok((i + 1) as u16),
        }
    }

    // The smallest free identifier for a message about to be sent, which now waits for PubAck or PubRec; 29 if none is free, 30 for QoS 0.
    pub fn claim(self, qos: QoS) -> Claimed
        ensures { after_claim result ≡ claimed (told_qos qos) (waits_of self) }
    {
        match qos {
            QoS::AtMostOnce => Claimed {
                table: self,
                claim: Err(ClaimError::NoClaim),
            },
            QoS::AtLeastOnce => self.claim_for(Wait::PubAck),
            QoS::ExactlyOnce => self.claim_for(Wait::PubRec),
        }
    }

    // What identifier `id` waits for; nothing if it is 0 or above LIMIT.
    pub fn waits_for(self, id: u16) -> Wait
        ensures { code_of result ≡ wait_of (waits_of self) id }
    {
        let n = id as usize;
        if n < 1 {
            return Wait::Free;
        }
        if LIMIT < n {
            return Wait::Free;
        }
        let at = n - 1;
        let place = self.places[at];
        place.wait
    }

    // Identifier `id`, which waits, goes on to `w`.
    fn put(self, id: u16, w: Wait) -> InFlight
        ensures { waits_of result ≡ put (waits_of self) id (code_of w) }
    {
        let n = id as usize;
        if n == 0 {
            return self;
        }
        if LIMIT < n {
            return self;
        }
        let i = n - 1;
        let p = Place { wait: w };
        let mut table = self;
        table.places[i] = p;
        table
    }

    // An answer that identifier `id` waits for if it waits for `due`, and then goes on to `to`.
    fn settle(self, id: u16, due: Wait, to: Wait) -> Answered
        ensures { after_answer result ≡ settled (code_of due) (code_of to) (waits_of self) id }
    {
        if self.waits_for(id) != due {
            return Answered {
                table: self,
                answer: Err(NotWaiting),
            };
        }
        Answered {
            table: self.put(id, to),
            answer: Ok(became(to)),
        }
    }

    // A PubAck came: it frees an identifier that waits for it, else 31.
    pub fn puback(self, id: u16) -> Answered
        ensures { after_answer result ≡ call (pub_ack id) (waits_of self) }
    {
        self.settle(id, Wait::PubAck, Wait::Free)
    }

    // A PubRec came with that reason: it moves an identifier that waits for it on to PubComp, or frees it from 0x80 on; else 31.
    pub fn pubrec(self, id: u16, reason: u8) -> Answered
        ensures { after_answer result ≡ call (pub_rec id reason) (waits_of self) }
    {
        if reason < 128 {
            return self.settle(id, Wait::PubRec, Wait::PubComp);
        }
        self.settle(id, Wait::PubRec, Wait::Free)
    }

    // A PubComp came: it frees an identifier that waits for it, else 31.
    pub fn pubcomp(self, id: u16) -> Answered
        ensures { after_answer result ≡ call (pub_comp id) (waits_of self) }
    {
        self.settle(id, Wait::PubComp, Wait::Free)
    }

    // An acknowledgement that was read, by its kind. A PubRel is the sender's own, and answers nothing: 31.
    pub fn acked(self, kind: AckKind, ack: Ack) -> Answered
        ensures { after_answer result ≡ call (answer_by (told_ack_kind kind) ack.pkid ack.reason) (waits_of self) }
    {
        let id = ack.pkid;
        let reason = ack.reason;
        match kind {
            AckKind::PubAck => self.puback(id),
            AckKind::PubRec => self.pubrec(id, reason),
            AckKind::PubRel => Answered {
                table: self,
                answer: Err(NotWaiting),
            },
            AckKind::PubComp => self.pubcomp(id),
        }
    }

    // The number of identifiers that wait.
    pub fn waiting(self) -> usize
        ensures { result ≡ waiting (waits_of self) }
    {
        self.places.iter().filter(|p| code(p.wait) != 0).count()
    }
}

// What an identifier that went on to `w` says of itself.
fn became(w: Wait) -> Answer
    ensures { answer_of (Ok result) ≡ became_of (code_of w) }
{
    if code(w) == 0 {
        return Answer::Freed;
    }
    Answer::Moved
}
