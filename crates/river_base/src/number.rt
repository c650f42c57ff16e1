// Arithmetic on values, which are integers of 64 bits.
ghost use Rattle.std.specs.Prelude.{◌≡◌};
ghost use Rattle.river_base.specs.Number as number;

/// The sum, modulo 2^64.
pub fn add(a: i64, b: i64) -> i64
    ensures { result ≡ number.add a b }
{
    a.wrapping_add(b)
}

/// The difference, modulo 2^64.
pub fn sub(a: i64, b: i64) -> i64
    ensures { result ≡ number.sub a b }
{
    a.wrapping_sub(b)
}

/// The product, modulo 2^64.
pub fn mul(a: i64, b: i64) -> i64
    ensures { result ≡ number.mul a b }
{
    a.wrapping_mul(b)
}

/// The quotient, truncated towards zero. `x / 0` is 0, and the least value divided by -1 is itself.
pub fn quot(a: i64, b: i64) -> i64
    ensures { result ≡ number.quot a b }
{
    if b == 0 { 0 } else { a.wrapping_div(b) }
}

/// The remainder, with the sign of the left side. `x % 0` is 0.
pub fn rem(a: i64, b: i64) -> i64
    ensures { result ≡ number.rem a b }
{
    if b == 0 { 0 } else { a.wrapping_rem(b) }
}

/// A number of ports, values or items; one below 0 counts as 0.
pub fn count_of(n: i64) -> u64
    ensures { result ≡ number.count_of n }
{
    if n < 0 { 0 } else { n as u64 }
}
