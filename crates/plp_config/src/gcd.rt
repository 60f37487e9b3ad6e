// The greatest common divisor.
ghost use Rattle.std.specs.Prelude.{◌≤◌};
ghost use Rattle.std.specs.Int.{IsGcd};

/// The greatest common divisor of two numbers, by Euclid's algorithm.
pub(crate) fn gcd(a: u64, b: u64) -> u64
    requires { 1 ≤ a }
    ensures divisor { IsGcd a b result }
    ensures some { 1 ≤ result }
{
    let mut larger = a;
    let mut smaller = b;
    while smaller != 0 {
        let rest = larger % smaller;
        larger = smaller;
        smaller = rest;
    }
    larger
}
