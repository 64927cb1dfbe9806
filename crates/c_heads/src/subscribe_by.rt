// A Subscribe that C hands over: its numbers and presence.
ghost use Rattle.std.specs.Prelude.{◌≡◌, List, ℕ};
ghost use Rattle.c_heads.specs.By.{tests_of, subscribe_by};
ghost use Rattle.c_heads.specs.Head.{subscribe_handed};

use crate::absent::zero_if_off;
use c_arguments::number::{given, is_on};
use subscribe_write::SubscribeHead;

// A record and no `Result`: the head is told where the identifier is refused too (subscribe_head, **subscribe_head_same** of promises).
#[derive(Clone, Copy)]
pub struct SubscribeBy {
    // whether the identifier is 0 where its flag is off, else 20
    pub zeros: bool,
    pub head: SubscribeHead,
}

// Of a Subscribe to write: whether its identifier is 0 where the flag is off (20), and numbers and presence.
pub fn subscribe_head(pkid: u16, block: u8, identifier_on: u8, identifier: u32) -> SubscribeBy
    ensures { (user lengths filters filterLengths options : List ℕ) → subscribe_handed result user lengths filters filterLengths options ≡ tests_of (subscribe_by pkid block identifier_on identifier user lengths filters filterLengths options) }
{
    let zeros = zero_if_off(identifier_on, identifier);
    let head = SubscribeHead {
        pkid,
        block: is_on(block),
        id: given(identifier_on, identifier),
    };
    SubscribeBy { zeros, head }
}
