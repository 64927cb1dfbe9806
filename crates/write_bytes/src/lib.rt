// Bytes put at an index of an output: `extend_from_slice` of v5/mod.rs. What would lie past the end is not stored.
#![tactic(auto)]

ghost use Rattle.std.specs.Prelude.{◌≡◌, ◌+◌, ◌-◌, ◌≤◌, ◌<◌, length, take, drop};
ghost use Rattle.std.proofs.lemmas.List.Edits.{sets};

// N bytes from index i on. N is known to the compiler, so that it moves them at once and calls nothing: a copy of a length that it does not
// know is a call of C's memmove, which who links the library would have to bring. An array of their own has all of them before the first is
// stored; or the compiler would ask at each move whether the output lies over the bytes.
fn put_chunk<const N: usize>(out: &mut [u8], at: usize, s: &[u8], i: usize)
    requires { (i + N ≤ length s.now) × (at + N ≤ length out.old) }
    ensures { out.new ≡ sets out.old at (take N (drop i s.now)) }
{
    let mut chunk = [0; N];
    chunk.copy_from_slice(&s[i..i + N]);
    out[at..at + N].copy_from_slice(&chunk);
}

// By N from the front, while more than N are left of n; gives how many were put.
fn put_chunks<const N: usize>(out: &mut [u8], at: usize, s: &[u8], n: usize) -> usize
    requires { (0 < N) × (n ≤ length s.now) × (n ≤ length out.old - at) }
    ensures { (result ≤ n) × (n ≤ result + N) × (out.new ≡ sets out.old at (take result s.now)) }
{
    let mut k: usize = 0;
    // no `for`: chunks of output and bytes one beside the other are no plainer
    while N < n - k {
        put_chunk::<N>(&mut *out, at + k, s, k);
        k += N;
    }
    k
}

// From N to 2N bytes by two moves, the last N and the first; what lies in both is put twice.
fn put_ends<const N: usize>(out: &mut [u8], at: usize, s: &[u8], n: usize)
    requires { (0 < N) × (N ≤ n) × (n ≤ N + N) × (n ≤ length s.now) × (n ≤ length out.old - at) }
    ensures { out.new ≡ sets out.old at (take n s.now) }
{
    put_chunk::<N>(&mut *out, at + (n - N), s, n - N);
    put_chunk::<N>(&mut *out, at, s, 0);
}

// The first n bytes, for which there is room. Most strings are short, and up to 32 bytes are two moves; of more the last 32 are put first, so that
// the others need only reach them.
fn put_fit(out: &mut [u8], at: usize, s: &[u8], n: usize)
    requires { (n ≤ length s.now) × (n ≤ length out.old - at) }
    ensures { out.new ≡ sets out.old at (take n s.now) }
{
    match n {
        0 => {}
        1..=2 => put_ends::<1>(&mut *out, at, s, n),
        3..=4 => put_ends::<2>(&mut *out, at, s, n),
        5..=8 => put_ends::<4>(&mut *out, at, s, n),
        9..=16 => put_ends::<8>(&mut *out, at, s, n),
        17..=32 => put_ends::<16>(&mut *out, at, s, n),
        _ => {
            put_chunk::<32>(&mut *out, at + (n - 32), s, n - 32);
            put_chunks::<32>(&mut *out, at, s, n);
        }
    }
}

// Puts the bytes as they are; what would lie past the end is not stored.
pub fn put_bytes(out: &mut [u8], at: usize, s: &[u8])
    ensures { out.new ≡ sets out.old at s.now }
{
    if at < out.len() {
        let n = s.len().min(out.len() - at);
        put_fit(&mut *out, at, s, n);
    }
}
