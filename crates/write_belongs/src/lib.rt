// Whether what is handed over for a row belongs together (01, row 20): lengths that add up, pairs that are whole, and nothing for what is
// absent. The crate has no such test: its lists carry their own lengths.
#![tactic(auto)]

ghost use Rattle.std.specs.Prelude.{◌≡◌, ◌&&◌, ℕ};
ghost use Rattle.writing.specs.Handed.{several, row_belongs};
ghost use Rattle.write_runs.specs.Given.{given_by, given_lent, given_pairs};

use write_runs::run::adds_up;

// Whether both hold.
pub fn both(a: bool, b: bool) -> bool
    ensures { result ≡ (a && b) }
{
    if a {
        return b;
    }
    false
}

// 20 of a number of any form: none where there is no block.
pub fn one_belongs<T: Copy>(block: bool, v: Option<T>) -> bool
    ensures { (f : T → ℕ) → result ≡ row_belongs block (given_by f v) }
{
    match v {
        None => true,
        Some(_) => block,
    }
}

// 20 of text or bytes: none where there is no block, and no bytes where there is none. A flag beside the bytes, and no Option: `row_belongs` refuses
// bytes that are handed over for an absent string, and so do the writers and the functions for C.
pub fn lent_belongs(block: bool, on: bool, s: &[u8]) -> bool
    ensures { result ≡ row_belongs block (given_lent on s.now) }
{
    if on {
        return block;
    }
    s.len() == 0
}

// 20 of user properties: lengths that add up, in pairs, and none where there is no block.
pub fn pairs_belong(block: bool, bytes: &[u8], lengths: &[usize]) -> bool
    ensures { result ≡ row_belongs block (given_pairs bytes.now lengths.now) }
{
    if !adds_up(bytes, lengths) {
        return false;
    }
    if lengths.len() % 2 != 0 {
        return false;
    }
    if block {
        return true;
    }
    lengths.len() == 0
}

// 20 of subscription identifiers: none where there is no block.
pub fn ids_belong(block: bool, ids: &[u32]) -> bool
    ensures { result ≡ row_belongs block (several ids.now) }
{
    if block {
        return true;
    }
    ids.len() == 0
}
