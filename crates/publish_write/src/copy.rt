// Bytes copied to where there is room for them, by plain stores: what `write_bytes` tests at each put, these functions require.
ghost use Rattle.std.specs.Prelude.{◌≡◌, ◌∷◌, [], ◌+◌, ◌≤◌, ◌<◌, length, take, drop};
ghost use Rattle.std.proofs.lemmas.List.Edits.{sets};

pub fn store(out: &mut [u8], at: usize, a: u8)
    requires { at + 1 ≤ length out.old }
    ensures { out.new ≡ sets out.old at (a ∷ []) }
{
    out[at] = a;
}

pub fn store_two(out: &mut [u8], at: usize, a: u8, b: u8)
    requires { at + 2 ≤ length out.old }
    ensures { out.new ≡ sets out.old at (a ∷ b ∷ []) }
{
    store(&mut *out, at, a);
    store(&mut *out, at + 1, b);
}

fn store_four(out: &mut [u8], at: usize, a: u8, b: u8, c: u8, d: u8)
    requires { at + 4 ≤ length out.old }
    ensures { out.new ≡ sets out.old at (a ∷ b ∷ c ∷ d ∷ []) }
{
    store_two(&mut *out, at, a, b);
    store_two(&mut *out, at + 2, c, d);
}

// Two, four, eight and sixteen bytes: what is moved at once is read before it is stored.
fn copy_two(out: &mut [u8], at: usize, s: &[u8], i: usize)
    requires { (i + 2 ≤ length s.now) × (at + 2 ≤ length out.old) }
    ensures { out.new ≡ sets out.old at (take 2 (drop i s.now)) }
{
    let a = s[i];
    let b = s[i + 1];
    store_two(&mut *out, at, a, b);
}

fn copy_four(out: &mut [u8], at: usize, s: &[u8], i: usize)
    requires { (i + 4 ≤ length s.now) × (at + 4 ≤ length out.old) }
    ensures { out.new ≡ sets out.old at (take 4 (drop i s.now)) }
{
    let a = s[i];
    let b = s[i + 1];
    let c = s[i + 2];
    let d = s[i + 3];
    store_four(&mut *out, at, a, b, c, d);
}

fn copy_eight(out: &mut [u8], at: usize, s: &[u8], i: usize)
    requires { (i + 8 ≤ length s.now) × (at + 8 ≤ length out.old) }
    ensures { out.new ≡ sets out.old at (take 8 (drop i s.now)) }
{
    let a = s[i];
    let b = s[i + 1];
    let c = s[i + 2];
    let d = s[i + 3];
    let e = s[i + 4];
    let f = s[i + 5];
    let g = s[i + 6];
    let h = s[i + 7];
    store_four(&mut *out, at, a, b, c, d);
    store_four(&mut *out, at + 4, e, f, g, h);
}

fn copy_sixteen(out: &mut [u8], at: usize, s: &[u8], i: usize)
    requires { (i + 16 ≤ length s.now) × (at + 16 ≤ length out.old) }
    ensures { out.new ≡ sets out.old at (take 16 (drop i s.now)) }
{
    copy_eight(&mut *out, at, s, i);
    copy_eight(&mut *out, at + 8, s, i + 8);
}

// Chunks of one width that overlap: the last one first, or the compiler would cut it up to join its last byte with those of other widths.
fn copy_pair(out: &mut [u8], at: usize, s: &[u8], from: usize, n: usize)
    requires { (2 ≤ n) × (n < 4) × (from + n ≤ length s.now) × (at + n ≤ length out.old) }
    ensures { out.new ≡ sets out.old at (take n (drop from s.now)) }
{
    let last = n - 2;
    copy_two(&mut *out, at + last, s, from + last);
    copy_two(&mut *out, at, s, from);
}

fn copy_fours(out: &mut [u8], at: usize, s: &[u8], from: usize, n: usize)
    requires { (4 ≤ n) × (n < 8) × (from + n ≤ length s.now) × (at + n ≤ length out.old) }
    ensures { out.new ≡ sets out.old at (take n (drop from s.now)) }
{
    let last = n - 4;
    copy_four(&mut *out, at + last, s, from + last);
    copy_four(&mut *out, at, s, from);
}

fn copy_eights(out: &mut [u8], at: usize, s: &[u8], from: usize, n: usize)
    requires { (8 ≤ n) × (n < 16) × (from + n ≤ length s.now) × (at + n ≤ length out.old) }
    ensures { out.new ≡ sets out.old at (take n (drop from s.now)) }
{
    let last = n - 8;
    copy_eight(&mut *out, at + last, s, from + last);
    copy_eight(&mut *out, at, s, from);
}

// By sixteens from the first byte on, up to the `last` that stand there: gives how many bytes were put.
fn copy_up(out: &mut [u8], at: usize, s: &[u8], from: usize, last: usize) -> usize
    requires { (from + last + 16 ≤ length s.now) × (at + last + 16 ≤ length out.old) }
    ensures { (last ≤ result) × (result ≤ last + 16) × (out.new ≡ sets out.old at (take result (drop from s.now))) }
{
    // by index: sixteen bytes are put at once, byte by byte or by a call it misses the bar of speed (docs/PERFORMANCE.md)
    let mut i: usize = 0;
    while i < last {
        copy_sixteen(&mut *out, at + i, s, from + i);
        i = i + 16;
    }
    i
}

// Of 16 bytes or more.
fn copy_sixteens(out: &mut [u8], at: usize, s: &[u8], from: usize, n: usize)
    requires { (16 ≤ n) × (from + n ≤ length s.now) × (at + n ≤ length out.old) }
    ensures { out.new ≡ sets out.old at (take n (drop from s.now)) }
{
    let last = n - 16;
    copy_sixteen(&mut *out, at + last, s, from + last);
    copy_up(&mut *out, at, s, from, last);
}

// Up to three bytes.
fn copy_few(out: &mut [u8], at: usize, s: &[u8], from: usize, n: usize)
    requires { (n < 4) × (from + n ≤ length s.now) × (at + n ≤ length out.old) }
    ensures { out.new ≡ sets out.old at (take n (drop from s.now)) }
{
    if 2 <= n {
        copy_pair(&mut *out, at, s, from, n);
    } else {
        if n == 1 {
            store(&mut *out, at, s[from]);
        }
    }
}

// n bytes of s from index `from` on.
fn copy_any(out: &mut [u8], at: usize, s: &[u8], from: usize, n: usize)
    requires { (from + n ≤ length s.now) × (at + n ≤ length out.old) }
    ensures { out.new ≡ sets out.old at (take n (drop from s.now)) }
{
    if 16 <= n {
        copy_sixteens(&mut *out, at, s, from, n);
    } else if 8 <= n {
        copy_eights(&mut *out, at, s, from, n);
    } else if 4 <= n {
        copy_fours(&mut *out, at, s, from, n);
    } else {
        copy_few(&mut *out, at, s, from, n);
    }
}

// The same; gives the index behind them.
pub fn copy(out: &mut [u8], at: usize, s: &[u8], from: usize, n: usize) -> usize
    requires { (from + n ≤ length s.now) × (at + n ≤ length out.old) }
    ensures { (out.new ≡ sets out.old at (take n (drop from s.now))) × (result ≡ at + n) }
{
    copy_any(&mut *out, at, s, from, n);
    at + n
}
