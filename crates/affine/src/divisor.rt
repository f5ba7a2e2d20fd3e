//! The greatest common divisor.

ghost use Rattle.std.specs.Prelude.{◌≡◌, ◌↔◌};
ghost use Rattle.std.specs.Int.{IsGcd};

/// The greatest common divisor of two numbers, by Euclid's algorithm; that of 0 and 0 is 0.
pub fn gcd(a: u64, b: u64) -> u64
    ensures divisor { IsGcd a b result }
    ensures zero { (result ≡ 0) ↔ ((a ≡ 0) × (b ≡ 0)) }
{
    let (mut greater, mut less) = (a, b);
    while less != 0 {
        (greater, less) = (less, greater % less);
    }
    greater
}
