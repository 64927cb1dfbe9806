// Indexes in a run of bytes or in an output: an index past the end is the end, so that no sum can wrap. Whether lengths add up to a run.
ghost use Rattle.std.specs.Prelude.{◌≡◌, ◌+◌, min};
ghost use Rattle.writing.specs.Handed.{adds_up};
ghost use Rattle.write_runs.specs.Given.{run as run_of};
ghost use Rattle.write_runs.specs.Piece.{PieceAt};

// The index n bytes after `at`, cut off at the end, where there are `room` in all.
pub fn after(room: usize, at: usize, n: usize) -> usize
    ensures { result ≡ min (at + n) room }
{
    if room <= at {
        return room;
    }
    if room - at < n {
        return room;
    }
    at + n
}

// The n bytes at an index of the run, or as many as there are.
pub fn piece<'a>(run: &'a [u8], at: usize, n: usize) -> &'a [u8]
    ensures { PieceAt run.entry at n result }
{
    if run.len() <= at {
        return &run[..0];
    }
    let end = after(run.len(), at, n);
    &run[at..end]
}

// Whether the lengths add up to the bytes (01, row 20). Each is taken off the bytes that are left: no sum can wrap.
pub fn adds_up(bytes: &[u8], lengths: &[usize]) -> bool
    ensures { result ≡ adds_up (run_of bytes.now lengths.now) }
{
    let mut left = bytes.len();
    for n in lengths {
        if left < *n {
            return false;
        }
        left -= *n;
    }
    left == 0
}
