// Leaves (`numbers`, `utf8`) for the benchmark in oracle/, as functions that Rust calls: one text or one number a call, or a whole run of numbers.
#![tactic(auto)]

ghost use Rattle.std.specs.Prelude.{◌≡◌};
ghost use Rattle.reading.specs.Refusal.{cut};
ghost use Rattle.reading.specs.Read.{is_text, num_of};
ghost use Rattle.positions.specs.Position.{from_at, next_or};
ghost use Rattle.speed_leaves.specs.Numbers.{number_or, numbers_sum};

use std::num;
use var_length;

// Is s well-formed UTF-8 without U+0000?
#[unsafe(no_mangle)]
pub extern "C" fn speed_leaves_is_utf8(s: &[u8]) -> bool
    ensures { result ≡ is_text s.now }
{
    utf8::is_utf8(s)
}

// The index after the variable length number at `at`, whose value is stored; 0, and nothing is stored, if there is none.
#[unsafe(no_mangle)]
pub extern "C" fn speed_leaves_length(s: &[u8], at: usize, value: &mut u32) -> usize
    ensures { (result ≡ next_or 0 (from_at (num_of cut 4) s.now at)) × (value.new ≡ number_or value.old (from_at (num_of cut 4) s.now at)) }
{
    match var_length::read_length(s, at) {
        Ok((n, next)) => {
            *value = n;
            next
        }
        Err(_) => 0,
    }
}

// The sum of the variable length numbers that fill s, modulo 2^64; 0 if s is no run of such numbers.
#[unsafe(no_mangle)]
pub extern "C" fn speed_leaves_sum(s: &[u8]) -> u64
    ensures { result ≡ numbers_sum s.now }
{
    let mut sum: u64 = 0;
    let mut at: usize = 0;
    while at < s.len() {
        match var_length::read_length(s, at) {
            Ok((n, next)) => {
                sum = num::wrapping_add_u64(sum, n as u64);
                at = next;
            }
            Err(_) => return 0,
        }
    }
    sum
}
