// Numbers in bytes, high byte first, of any width up to six bytes.
ghost use Rattle.std.specs.Prelude.{◌≡◌, ◌+◌, ◌-◌, ◌*◌, ◌%◌, ◌^◌, ◌≤◌, ◌<◌};
ghost use Rattle.common.specs.Words.{length, sets};
ghost use Rattle.digits.specs.Hex.{digits};
ghost use Rattle.digits.specs.Numbers.{value_at, in_bytes};
ghost use Rattle.digits.specs.NumberLaws.{widest};

use crate::hex::put_byte;

// The number of the `width` bytes from index `at` on.
pub fn value_at(bytes: &[u8], at: usize, width: usize) -> u64
    requires { (at + width ≤ length bytes.now) × (width ≤ widest) }
    ensures { result ≡ value_at bytes.now at width }
{
    let mut n: u64 = 0;
    for byte in &bytes[at..at + width] {
        n = n * 256 + u64::from(*byte);
    }
    n
}

pub fn low_byte(n: u64) -> u8
    ensures { result ≡ n % 256 }
{
    (n % 256) as u8
}

// The digits of a number in `width` bytes, from its last byte on.
pub fn put_number(out: &mut [u8], at: usize, width: usize, number: u64)
    requires { at + 2 * width ≤ length out.old }
    ensures { out.new ≡ sets out.old at (digits (in_bytes width number)) }
{
    let mut rest = number;
    for k in (0..width).rev() {
        put_byte(out, at + 2 * k, low_byte(rest));
        rest /= 256;
    }
}
