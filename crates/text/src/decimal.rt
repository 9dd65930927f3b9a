// Numbers in decimal.
ghost use Rattle.std.specs.Prelude.{◌+◌, ◌<◌, ◌≤◌, ◌≡◌};
ghost use Rattle.text.specs.Shown.{digits, decimal};
ghost use Rattle.text.specs.Put.{Put};

use crate::out::put_byte;

// The character of a decimal digit.
fn digit(n: u64) -> u8
    requires { n < 10 }
    ensures { result ≡ 48 + n }
{
    48 + n as u8
}

// Puts the decimal digits of n, at most left of them.
fn put_digits(out: &mut [u8], at: usize, left: usize, n: u64) -> usize
    requires { (at ≤ 0xfff_ffff) × (left ≤ 20) }
    ensures put { Put out.old at (digits left n) result out.new }
    ensures upper_bound { result ≤ at + left }
{
    if left == 0 {
        return at;
    }
    if n < 10 {
        return put_byte(out, at, digit(n));
    }
    let k = put_digits(out, at, left - 1, n / 10);
    put_byte(out, k, digit(n % 10))
}

// Puts a number of two digits.
fn put_two_digits(out: &mut [u8], at: usize, n: u64) -> usize
    requires { (at ≤ 0xfff_ffff) × (10 ≤ n) × (n < 100) }
    ensures put { Put out.old at (decimal n) result out.new }
    ensures upper_bound { result ≤ at + 20 }
{
    let k = put_byte(out, at, digit(n / 10));
    put_byte(out, k, digit(n % 10))
}

// Puts n in decimal.
pub(crate) fn put_decimal(out: &mut [u8], at: usize, n: u64) -> usize
    requires { at ≤ 0xfff_ffff }
    ensures put { Put out.old at (decimal n) result out.new }
    ensures upper_bound { result ≤ at + 20 }
{
    if n < 10 {
        return put_byte(out, at, digit(n));
    }
    if n < 100 {
        return put_two_digits(out, at, n);
    }
    put_digits(out, at, 20, n)
}
