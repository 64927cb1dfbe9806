// What C calls for P4: the table as lent bytes, one for each identifier from 1 upward, 0 if it is free, 1, 2 or 3 if it waits for PubAck,
// PubRec or PubComp. A start clears every byte, whatever it was; any other call tests every byte, and changes at most one.
// bindings/c/ecchjulmina.h says the rest.
ghost use Rattle.std.specs.Prelude.{◌≡◌, ◌∷◌, []};
ghost use Rattle.std.proofs.lemmas.List.Edits.{sets};
ghost use Rattle.c_inflight.specs.Given.{start_given, claim_given, ack_given, waiting_number, waiting_value, value_of, Ends};

// All free: 0, or 39 if there is not a byte for each identifier.
#[unsafe(no_mangle)]
pub extern "C" fn ecch_inflight_start(table: &mut [u8]) -> u32
    ensures { Ends (start_given table.old) result table.new }
{
    c_inflight::ecch_inflight_start(&mut *table)
}

// An identifier for a message about to be sent: 0, or the refusal's number, 11 for a QoS above 2, 39 for bytes that are no table.
#[unsafe(no_mangle)]
pub extern "C" fn ecch_inflight_claim(qos: u8, table: &mut [u8], answer: &mut [u64]) -> u32
    ensures left { Ends (claim_given qos table.old) result table.new }
    ensures stored { answer.new ≡ sets answer.old 0 (value_of (claim_given qos table.old).says ∷ []) }
{
    c_inflight::ecch_inflight_claim(qos, &mut *table, &mut *answer)
}

// An acknowledgement that was read, by the number of its kind: 0, or 31, or 39.
#[unsafe(no_mangle)]
pub extern "C" fn ecch_inflight_acked(
    kind: u8,
    id: u16,
    reason: u8,
    table: &mut [u8],
    answer: &mut [u64],
) -> u32
    ensures left { Ends (ack_given kind id reason table.old) result table.new }
    ensures stored { answer.new ≡ sets answer.old 0 (value_of (ack_given kind id reason table.old).says ∷ []) }
{
    c_inflight::ecch_inflight_acked(kind, id, reason, &mut *table, &mut *answer)
}

// How many identifiers wait: 0 and their number, or 39.
#[unsafe(no_mangle)]
pub extern "C" fn ecch_inflight_waiting(table: &[u8], answer: &mut [u64]) -> u32
    ensures number { result ≡ waiting_number table.now }
    ensures stored { answer.new ≡ sets answer.old 0 (waiting_value table.now ∷ []) }
{
    c_inflight::ecch_inflight_waiting(table, &mut *answer)
}
