// What C calls for P11: a journal over lent memory, and its table as the lent bytes of c_inflight. bindings/c/ecchjulmina.h says the rest.
ghost use Rattle.std.specs.Prelude.{◌≡◌, ◌∷◌, length, []};
ghost use Rattle.std.proofs.lemmas.List.Edits.{sets};
ghost use Rattle.inflight.specs.Rules.{limit};
ghost use Rattle.journal.specs.Area.{start as start_of, recover as recoverOf};
ghost use Rattle.c_journal.specs.Bytes.{stored};
ghost use Rattle.c_journal.specs.Given.{number_of, first_of, block_of, table_of, save_given, unless_bad_area, recover_number, Ends};

// Zeroes the area: 0 or 32.
#[unsafe(no_mangle)]
pub extern "C" fn ecch_journal_start(area: &mut [u8]) -> u32
    ensures { Ends (start_of area.old) result area.new }
{
    c_journal::ecch_journal_start(&mut *area)
}

// Stores the table under the next number: 0, or 32 before all else, 39 for bytes that are no table, 34.
#[unsafe(no_mangle)]
pub extern "C" fn ecch_journal_save(table: &[u8], area: &mut [u8], answer: &mut [u64]) -> u32
    ensures left { Ends (save_given table.now area.old) result area.new }
    ensures stored { answer.new ≡ sets answer.old 0 (first_of (save_given table.now area.old).says ∷ block_of (save_given table.now area.old).says ∷ []) }
{
    c_journal::ecch_journal_save(table, &mut *area, &mut *answer)
}

// The table of the latest save, and its number. 39 if the table has no room for a byte of each identifier, unless the area is bad: then the
// lent table stays.
#[unsafe(no_mangle)]
pub extern "C" fn ecch_journal_recover(area: &[u8], table: &mut [u8], answer: &mut [u64]) -> u32
    ensures number { result ≡ recover_number (recoverOf limit area.now) (length table.old) }
    ensures left { table.new ≡ unless_bad_area (number_of (recoverOf limit area.now)) (stored (table_of (recoverOf limit area.now)) table.old) table.old }
    ensures stored { answer.new ≡ sets answer.old 0 (first_of (recoverOf limit area.now) ∷ []) }
{
    c_journal::ecch_journal_recover(area, &mut *table, &mut *answer)
}
