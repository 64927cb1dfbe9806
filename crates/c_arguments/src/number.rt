// What the numbers of C stand for: flags, limits and values that may be absent.
ghost use Rattle.std.specs.Prelude.{◌≡◌};
ghost use Rattle.records.specs.AsNumbers.{limit_of};
ghost use Rattle.c_arguments.specs.Given.{is_on, limit_given, given};

// A flag: false if it is 0.
pub fn is_on(n: u8) -> bool
    ensures { result ≡ is_on n }
{
    n != 0
}

// The value, if the flag says that it is present.
pub fn given<T: Copy>(on: u8, value: T) -> Option<T>
    ensures { result ≡ given on value }
{
    is_on(on).then_some(value)
}

// The limit, if the flag says that there is one.
pub fn bound(limited: u8, limit: usize) -> Option<usize>
    ensures { limit_of result ≡ limit_given limited limit }
{
    given(limited, limit)
}
