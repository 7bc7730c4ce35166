// The greatest common divisor.
ghost use Rattle.std.specs.Prelude.{◌≡◌};
ghost use Rattle.cga_fraction.specs.Gcd.{gcd};

// Most parts fit in 64 bits, where a remainder is cheap.
pub(crate) fn narrow_divisor(a: u64, b: u64) -> u64
    ensures { result ≡ gcd a b }
{
    let mut x = a;
    let mut y = b;
    while y != 0 {
        let rest = x % y;
        x = y;
        y = rest;
    }
    x
}

pub(crate) fn common_divisor(a: u128, b: u128) -> u128
    ensures { result ≡ gcd a b }
{
    if b == 1 {
        return 1;
    }
    let mut x = a;
    let mut y = b;
    while y > NARROW {
        let rest = x % y;
        x = y;
        y = rest;
    }
    if x <= NARROW {
        return narrow_divisor(x as u64, y as u64) as u128;
    }
    if y == 0 {
        return x;
    }
    narrow_divisor(y as u64, (x % y) as u64) as u128
}

const NARROW: u128 = u64::MAX as u128;
