// The table of inflight kept through a power cut, in a lent area of blocks (P11 of 02). Number N goes to block (N - 1) mod the count of
// blocks, so never onto the latest good block, and a save that was cut uses its number and its block again. Refusals are 32 to 34.
#![tactic(auto)]

ghost use Rattle.std.specs.Prelude.{◌≡◌, ◌==◌, ◌+◌, ◌*◌, ◌-◌, ◌/◌, ◌%◌, ◌^◌, ◌<◌, eqb, length, take, drop, replicate, true, false, MatchResult};
ghost use Rattle.std.specs.List.{list_all};
ghost use Rattle.std.proofs.lemmas.List.Edits.{sets};
ghost use Rattle.crc32.specs.Crc.{crc_of};
ghost use Rattle.inflight.specs.Rules.{limit};
ghost use Rattle.inflight.specs.TableAnswer.{code_of, waits_of};
ghost use Rattle.journal.specs.Area.{whole, blocks, count_of, newer, latest, latest_in, highest, left, start, save, recover, look};
ghost use Rattle.journal.specs.Block.{each, big_endian, all_zero, packed_at, wait_in, number_of, table_in, block_of, good};
ghost use Rattle.journal.specs.JournalAnswer.{start_of, save_of, told_block, block_says, Takes, Recovers, Looks};

use crc32::crc32 as crc_of;
use inflight::{InFlight, LIMIT, Place, code, wait_of};

// 32: the area is not two or more whole blocks.
#[derive(Clone, Copy, Debug, PartialEq, Eq)]
pub struct BadArea;

// Why a save is refused.
#[derive(Clone, Copy, Debug, PartialEq, Eq)]
pub enum SaveError {
    // 32: not two or more whole blocks
    BadArea,
    // 34: the largest number is used
    JournalEnded,
}

impl From<BadArea> for SaveError {
    ghost use Rattle.journal.specs.declared.SaveError.{SaveError};

    ghost from_gives = { λ _ r. r ≡ SaveError.BadArea };

    fn from(_e: BadArea) -> SaveError {
        SaveError::BadArea
    }
}

// Why no table was found.
#[derive(Clone, Copy, Debug, PartialEq, Eq)]
pub enum FindError {
    // 32: not two or more whole blocks
    BadArea,
    // 33: no block is good
    JournalEmpty,
}

impl From<BadArea> for FindError {
    ghost use Rattle.journal.specs.declared.FindError.{FindError};

    ghost from_gives = { λ _ r. r ≡ FindError.BadArea };

    fn from(_e: BadArea) -> FindError {
        FindError::BadArea
    }
}

// What a save did: the number, and the block of 512 bytes that changed.
#[derive(Clone, Copy, Debug, PartialEq, Eq)]
pub struct Stored {
    pub number: u64,
    pub block: usize,
}

// What recovery answers: the number of the block whose table was taken; a fresh table unless one was found.
#[derive(Clone, Copy)]
pub struct Recovered {
    pub found: Result<u64, FindError>,
    pub table: InFlight,
}

type Block = [u8; 512];

// ---- the area

// Two or more whole blocks.
pub fn is_whole(area: &[u8]) -> bool
    ensures { result ≡ whole area.now }
{
    area.len() % 512 == 0 && 2 <= area.len() / 512
}

// Its blocks, from 0.
fn blocks(area: &[u8]) -> Result<&[Block], BadArea>
    ensures { MatchResult result (λ bs. (whole area.now ≡ true) × (bs.now ≡ blocks (count_of area.now) area.now)) (λ _. whole area.now ≡ false) }
{
    if !is_whole(area) {
        return Err(BadArea);
    }
    let (blocks, _) = area.as_chunks();
    Ok(blocks)
}

// Every byte zero.
fn zero(out: &mut [u8])
    ensures { out.new ≡ replicate (length out.old) 0 }
{
    out.fill(0);
}

// ---- reading a block

fn number_of(b: &Block) -> u64
    ensures { result ≡ number_of b.now }
{
    u64::from_be_bytes([b[0], b[1], b[2], b[3], b[4], b[5], b[6], b[7]])
}

// Two bits of a byte, the m-th pair from the low end.
fn pair(x: u8, m: usize) -> u8
    requires { m < 4 }
    ensures { result ≡ x / 4 ^ m % 4 }
{
    match m {
        0 => x % 4,
        1 => x / 4 % 4,
        2 => x / 16 % 4,
        _ => x / 64 % 4,
    }
}

// What identifier i + 1 waits for.
fn wait_in(b: &Block, i: usize) -> u8
    requires { i < 1024 }
    ensures { result ≡ wait_in b.now i }
{
    let j = 8 + i / 4;
    pair(b[j], i % 4)
}

fn all_zero(s: &[u8]) -> bool
    ensures { result ≡ list_all (λ b. b == 0) s.now }
{
    s.iter().all(|b| *b == 0)
}

// No identifier above the limit is marked.
fn none_above(b: &Block) -> bool
    ensures { result ≡ all_zero (each (wait_in b.now) limit (1024 - limit)) }
{
    for i in LIMIT..1024 {
        if wait_in(b, i) != 0 {
            return false;
        }
    }
    true
}

// The check is that of the bytes before it.
fn check_right(b: &Block) -> bool
    ensures { result ≡ eqb (crc_of (take 508 b.now)) (big_endian (drop 508 b.now)) }
{
    crc_of(&b[..508]) == u32::from_be_bytes([b[508], b[509], b[510], b[511]])
}

// The bytes between marks and check are zero.
fn zeros_right(b: &Block) -> bool
    ensures { result ≡ all_zero (drop 264 (take 508 b.now)) }
{
    all_zero(&b[264..508])
}

fn is_good(b: &Block) -> bool
    ensures { result ≡ good limit b.now }
{
    if !check_right(b) {
        return false;
    }
    if !zeros_right(b) {
        return false;
    }
    if number_of(b) == 0 {
        return false;
    }
    none_above(b)
}

fn table_of(b: &Block) -> InFlight
    ensures { waits_of result ≡ table_in limit b.now }
{
    let mut table = InFlight::new();
    for i in 0..LIMIT {
        table.places[i] = Place {
            wait: wait_of(wait_in(b, i)),
        };
    }
    table
}

// ---- writing a block

// The byte of four places.
fn four(p: Place, q: Place, r: Place, s: Place) -> u8
    ensures { result ≡ code_of p.wait + 4 * code_of q.wait + 16 * code_of r.wait + 64 * code_of s.wait }
{
    let a = p.wait;
    let b = q.wait;
    let c = r.wait;
    let d = s.wait;
    code(a) + 4 * code(b) + 16 * code(c) + 64 * code(d)
}

// The marks of the table, behind the number: four identifiers to a byte.
fn put_marks(out: &mut Block, table: InFlight)
    ensures { out.new ≡ sets out.old 8 (each (packed_at (waits_of table)) 0 (limit / 4)) }
{
    for j in 0..LIMIT / 4 {
        let i = 4 * j;
        let p = table.places[i];
        let q = table.places[i + 1];
        let r = table.places[i + 2];
        let s = table.places[i + 3];
        out[8 + j] = four(p, q, r, s);
    }
}

// The block of that number and table: the number in front, the marks, zeros, and last the check of what stands before it.
fn block_of(number: u64, table: InFlight) -> Block
    ensures { result ≡ block_of number (waits_of table) }
{
    let mut b = [0; 512];
    b[..8].copy_from_slice(&number.to_be_bytes());
    put_marks(&mut b, table);
    let check = crc_of(&b[..508]);
    b[508..].copy_from_slice(&check.to_be_bytes());
    b
}

// ---- the calls

// The number of the best block so far; 0 if there was none.
fn highest(best: Option<&Block>) -> u64
    ensures { result ≡ highest (told_block best.entry) }
{
    match best {
        Some(b) => number_of(b),
        None => 0,
    }
}

// The better of a block and the best behind it.
fn better<'a>(b: &'a Block, best: Option<&'a Block>) -> Option<&'a Block>
    ensures { told_block result ≡ newer limit b.now (told_block best.entry) }
{
    if highest(best) <= number_of(b) && is_good(b) {
        return Some(b);
    }
    best
}

// The good block with the highest number, the first of equals. Blocks are taken from the last to the first, and one is tested only
// if its number is no less than the best so far: of an area that went round, two or three.
fn find(blocks: &[Block]) -> Option<&Block>
    ensures { told_block result ≡ latest limit blocks.now }
{
    let mut best = None;
    for b in blocks.iter().rev() {
        best = better(b, best);
    }
    best
}

// Zeroes the area; 32 if it is not two or more whole blocks.
pub fn start(area: &mut [u8]) -> Result<(), BadArea>
    ensures { left area.new (start_of result) ≡ start area.old }
{
    if !is_whole(&*area) {
        return Err(BadArea);
    }
    zero(&mut *area);
    Ok(())
}

// Stores the table under the number after the highest good one, in that number's block, and tells both; 32 or 34, and nothing changed.
pub fn save(area: &mut [u8], table: InFlight) -> Result<Stored, SaveError>
    ensures { left area.new (save_of result) ≡ save limit (waits_of table) area.old }
{
    let blocks = blocks(&*area)?;
    let last = highest(find(blocks));
    if last == u64::MAX {
        return Err(SaveError::JournalEnded);
    }
    let at = (last % (blocks.len() as u64)) as usize;
    let from = at * 512;
    let end = from + 512;
    area[from..end].copy_from_slice(&block_of(last + 1, table));
    Ok(Stored {
        number: last + 1,
        block: at,
    })
}

// The good block with the highest number, the first of equals.
fn latest_block(area: &[u8]) -> Result<&Block, FindError>
    ensures { block_says result ≡ recover limit area.now }
{
    find(blocks(area)?).ok_or(FindError::JournalEmpty)
}

// Block i, if it is good.
fn good_at(area: &[u8], i: usize) -> Result<&Block, FindError>
    ensures { block_says result ≡ look limit area.now i }
{
    let blocks = blocks(area)?;
    if i < blocks.len() && is_good(&blocks[i]) {
        return Ok(&blocks[i]);
    }
    Err(FindError::JournalEmpty)
}

// The number and the table of the block found.
fn taken(found: Result<&Block, FindError>) -> Recovered
    ensures { Takes found.entry result }
{
    match found {
        Ok(b) => Recovered {
            found: Ok(number_of(b)),
            table: table_of(b),
        },
        Err(e) => Recovered {
            found: Err(e),
            table: InFlight::new(),
        },
    }
}

// Number and table of the good block with the highest number, the first of equals; 32, or 33 if no block is good, and a fresh table.
pub fn recover(area: &[u8]) -> Recovered
    ensures { Recovers area.now result }
{
    taken(latest_block(area))
}

// The table of block i, by the same answers: JournalEmpty if that block is not good, or there is none.
pub fn look(area: &[u8], i: usize) -> Recovered
    ensures { Looks area.now i result }
{
    taken(good_at(area, i))
}
