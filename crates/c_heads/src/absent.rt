// Numbers that C hands over beside a flag: one whose flag is off has to be 0 (01, row 20).
ghost use Rattle.std.specs.Prelude.{◌≡◌};
ghost use Rattle.c_heads.specs.By.{zero_if_off};

use c_arguments::number::is_on;

// Whether a number is 0 if its flag is off.
pub fn zero_if_off(on: u8, n: u32) -> bool
    ensures { result ≡ zero_if_off (on, n) }
{
    is_on(on) || n == 0
}
