// Text cut at a mark, and numbers in it.

// The n-th part between marks, n from 0; nothing where there are fewer.
pub fn part(s: &[u8], mark: u8, n: usize) -> &[u8] {
    s.split(|b| *b == mark).nth(n).unwrap_or(b"")
}

// In decimal, up to the largest number.
pub fn number(s: &[u8]) -> usize {
    let mut n: usize = 0;
    for b in s {
        let Some(tens) = n.checked_mul(10) else {
            return n;
        };
        n = tens.wrapping_add((b % 16) as usize);
    }
    n
}
