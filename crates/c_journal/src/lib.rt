// What C calls for P11: a journal over lent memory, and its table as the lent bytes of c_inflight. bindings/c/ecchjulmina.h says the rest.
#![tactic(auto)]

ghost use Rattle.std.specs.Prelude.{◌≡◌, ◌∷◌, [], ◌≤◌, length};
ghost use Rattle.std.proofs.lemmas.List.Edits.{sets};
ghost use Rattle.inflight.specs.Rules.{limit};
ghost use Rattle.inflight.specs.TableAnswer.{waits_of};
ghost use Rattle.journal.specs.Area.{left, start as start_of, recover as recoverOf};
ghost use Rattle.journal.specs.JournalAnswer.{found_of};
ghost use Rattle.c_journal.specs.Bytes.{TakenFrom, stored};
ghost use Rattle.c_journal.specs.Given.{number_of, first_of, block_of, table_of, says_of, save_given, unless_bad_area, recover_number, room_number, Ends};

use c_layout::store::store;
use inflight::{InFlight, LIMIT, Place, code, wait_of};
use journal::{BadArea, FindError, SaveError, Stored, is_whole, recover, save, start};

pub const BAD_AREA: u32 = 32;

pub const JOURNAL_EMPTY: u32 = 33;

pub const JOURNAL_ENDED: u32 = 34;
// the bytes are no table, or it does not fit
const BAD_TABLE: u32 = 39;

// ---- a table as the lent bytes of c_inflight, one for each identifier

// The bytes are no table.
#[derive(Clone, Copy)]
struct BadTable;

// The table of those bytes.
fn from_codes(codes: &[u8]) -> Result<InFlight, BadTable>
    ensures { TakenFrom codes.now result }
{
    if codes.len() != LIMIT {
        return Err(BadTable);
    }
    let mut table = InFlight::new();
    for (i, x) in codes.iter().enumerate() {
        if 3 < *x {
            return Err(BadTable);
        }
        table.places[i] = Place { wait: wait_of(*x) };
    }
    Ok(table)
}

// What each identifier waits for, from index 0 on; nothing is stored if not all fit.
fn put_codes(table: InFlight, out: &mut [u8])
    ensures { out.new ≡ stored (waits_of table) out.old }
{
    if LIMIT <= out.len() {
        put_all(table, &mut *out);
    }
}

fn put_all(table: InFlight, out: &mut [u8])
    requires { limit ≤ length out.old }
    ensures { out.new ≡ sets out.old 0 (waits_of table) }
{
    for (i, p) in table.places.iter().enumerate() {
        out[i] = code(p.wait);
    }
}

// ---- saving and recovering

// Why a save is refused.
#[derive(Clone, Copy)]
enum SaveRefused {
    Journal(SaveError),
    BadTable,
}

impl From<SaveError> for SaveRefused {
    ghost use Rattle.c_journal.specs.declared.SaveRefused.{SaveRefused};

    ghost from_gives = { λ e r. r ≡ SaveRefused.Journal e };

    fn from(e: SaveError) -> SaveRefused {
        SaveRefused::Journal(e)
    }
}

impl From<BadTable> for SaveRefused {
    ghost use Rattle.c_journal.specs.declared.SaveRefused.{SaveRefused};

    ghost from_gives = { λ _ r. r ≡ SaveRefused.BadTable };

    fn from(_e: BadTable) -> SaveRefused {
        SaveRefused::BadTable
    }
}

fn saves(codes: &[u8], area: &mut [u8]) -> Result<Stored, SaveRefused>
    ensures { left area.new (says_of result) ≡ save_given codes.now area.old }
{
    if !is_whole(&*area) {
        return Err(SaveRefused::Journal(SaveError::BadArea));
    }
    let table = from_codes(codes)?;
    let stored = save(&mut *area, table)?;
    Ok(stored)
}

// What a save returns.
fn saved(s: Result<Stored, SaveRefused>) -> u32
    ensures { result ≡ number_of (says_of s) }
{
    match s {
        Ok(_) => 0,
        Err(SaveRefused::Journal(SaveError::BadArea)) => BAD_AREA,
        Err(SaveRefused::Journal(SaveError::JournalEnded)) => JOURNAL_ENDED,
        Err(SaveRefused::BadTable) => BAD_TABLE,
    }
}

// What it stores: its number and its block, or zeros.
fn numbers(s: Result<Stored, SaveRefused>) -> [u64; 2]
    ensures { result ≡ first_of (says_of s) ∷ block_of (says_of s) ∷ [] }
{
    match s {
        Ok(stored) => [stored.number, stored.block as u64],
        Err(_) => [0, 0],
    }
}

// What a recovery returns.
fn found(f: Result<u64, FindError>) -> u32
    ensures { result ≡ number_of (found_of f []) }
{
    match f {
        Ok(_) => 0,
        Err(FindError::BadArea) => BAD_AREA,
        Err(FindError::JournalEmpty) => JOURNAL_EMPTY,
    }
}

// Zeroes the area: 0 or 32.
pub fn ecch_journal_start(area: &mut [u8]) -> u32
    ensures { Ends (start_of area.old) result area.new }
{
    match start(&mut *area) {
        Ok(()) => 0,
        Err(BadArea) => BAD_AREA,
    }
}

// Stores the table under the next number: 0, or 32 before all else, 39 for bytes that are no table, 34.
pub fn ecch_journal_save(table: &[u8], area: &mut [u8], answer: &mut [u64]) -> u32
    ensures left { Ends (save_given table.now area.old) result area.new }
    ensures stored { answer.new ≡ sets answer.old 0 (first_of (save_given table.now area.old).says ∷ block_of (save_given table.now area.old).says ∷ []) }
{
    let s = saves(table, &mut *area);
    store(&mut *answer, &numbers(s));
    saved(s)
}

// The table of the latest save, and its number. 39 if the table has no room for a byte of each identifier, unless the area is bad: then the
// lent table stays.
pub fn ecch_journal_recover(area: &[u8], table: &mut [u8], answer: &mut [u64]) -> u32
    ensures number { result ≡ recover_number (recoverOf limit area.now) (length table.old) }
    ensures left { table.new ≡ unless_bad_area (number_of (recoverOf limit area.now)) (stored (table_of (recoverOf limit area.now)) table.old) table.old }
    ensures stored { answer.new ≡ sets answer.old 0 (first_of (recoverOf limit area.now) ∷ []) }
{
    let room = table.len();
    let r = recover(area);
    let number = found(r.found);
    put_found(number, r.table, &mut *table);
    store(&mut *answer, &[r.found.unwrap_or(0)]);
    with_room(number, room)
}

// The table that was found, put into the lent bytes; a bad area leaves them as they were.
fn put_found(number: u32, t: InFlight, table: &mut [u8])
    ensures { table.new ≡ unless_bad_area number (stored (waits_of t) table.old) table.old }
{
    if number != BAD_AREA {
        put_codes(t, &mut *table);
    }
}

fn with_room(number: u32, room: usize) -> u32
    ensures { result ≡ room_number number room }
{
    if number == BAD_AREA {
        return BAD_AREA;
    }
    if room < LIMIT {
        return BAD_TABLE;
    }
    number
}
