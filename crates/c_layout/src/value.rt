// Single values as numbers.
ghost use Rattle.std.specs.Prelude.{◌≡◌};
ghost use Rattle.records.specs.AsNumbers.{told_values};
ghost use Rattle.c_layout.specs.Value.{value_or_zero};

use records::values::Values;

// The first value of a refusal, 0 if it has none.
pub fn first_value(v: Values) -> u64
    ensures { result ≡ value_or_zero (told_values v) 0 }
{
    match v {
        Values::None => 0,
        Values::One(n) => n as u64,
        Values::Two(n, _) => n as u64,
    }
}

// The second value of a refusal, 0 if it has none.
pub fn second_value(v: Values) -> u64
    ensures { result ≡ value_or_zero (told_values v) 1 }
{
    match v {
        Values::None => 0,
        Values::One(_) => 0,
        Values::Two(_, n) => n as u64,
    }
}
