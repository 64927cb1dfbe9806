// The next user property in a block, and the index after it: the caller keeps the position, as `walker::Walker` does.
ghost use Rattle.grammar.specs.Tables.{row_of_kind};
ghost use Rattle.c_walk.specs.Next.{Stored};

// The next user property from an index on, in the bytes before another, in the row of a kind: 0, or 21 when there is none left.
#[unsafe(no_mangle)]
pub extern "C" fn ecch_next_user(
    frame: &[u8],
    kind: u8,
    at: usize,
    end: usize,
    into: &mut [u64],
) -> u32
    ensures { Stored (row_of_kind kind) frame.now end at result into.old into.new }
{
    c_walk::next::ecch_next_user(frame, kind, at, end, &mut *into)
}
