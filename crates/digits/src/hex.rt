// Lower-case hexadecimal: the digits of a line as bytes, and bytes as digits.
ghost use Rattle.std.specs.Prelude.{◌≡◌, ◌∷◌, ◌+◌, ◌*◌, ◌%◌, ◌≤◌, ◌<◌};
ghost use Rattle.common.specs.Words.{[], length, sets};
ghost use Rattle.common.specs.Terms.{every};
ghost use Rattle.common.specs.Table.{table};
ghost use Rattle.digits.specs.Hex.{digit, most_bytes, pair_at, stored_at, decoded_of, decoded_into, letter, digits};

// The longest line that is a frame, and the bytes that it holds.
const LONGEST: usize = 100;

pub const BYTES: usize = LONGEST / 2;

// A digit's value, 16 for any other byte. Both guesses are reckoned before one is chosen, so that no branch hangs on the digit.
fn value_of(c: u8) -> u8
    ensures { result ≡ digit c }
{
    let decimal = c.wrapping_sub(b'0');
    let letter = c.wrapping_sub(b'a');
    let other = if letter < 6 { letter + 10 } else { 16 };
    if decimal < 10 { decimal } else { other }
}

// The byte of two digits; what does not fit is cut off, where one of them is none.
fn byte_of(high: u8, low: u8) -> u8
    ensures { result ≡ (high * 16 + low) % 256 }
{
    high.wrapping_mul(16).wrapping_add(low)
}

// Puts the bytes of `n` pairs into the buffer and tells whether all of them are digits. That is tested once, behind the loop, by the bits
// of all values: a loop without a way out is compiled to instructions that take sixteen pairs at once. Line and buffer go by one counter,
// since of a slice that is written through a zipped `iter_mut` a proof knows the length alone.
fn decode_pairs(line: &[u8], bytes: &mut [u8], n: usize) -> bool
    requires { (2 * n ≤ length line.now) × (n ≤ length bytes.old) }
    ensures { (result ≡ every (pair_at line.now) n)
        × (bytes.new ≡ sets bytes.old 0 (table (stored_at line.now) n)) }
{
    let mut bits: u8 = 0;
    for k in 0..n {
        let high = value_of(line[2 * k]);
        let low = value_of(line[2 * k + 1]);
        bytes[k] = byte_of(high, low);
        bits |= high | low;
    }
    bits < 16
}

// Puts the bytes of a line into the buffer, from its start on, and answers how many they are; a line that is no frame has none.
pub fn decode(line: &[u8], bytes: &mut [u8]) -> Option<usize>
    requires { most_bytes ≤ length bytes.old }
    ensures { (result ≡ decoded_of line.now) × (bytes.new ≡ decoded_into line.now bytes.old) }
{
    if LONGEST < line.len() || line.len() % 2 != 0 {
        return None;
    }
    let n = line.len() / 2;
    if decode_pairs(line, bytes, n) {
        Some(n)
    } else {
        None
    }
}

// The digit of a value below 16.
fn letter_of(n: u8) -> u8
    requires { n < 16 }
    ensures { result ≡ letter n }
{
    if n < 10 { n + b'0' } else { n - 10 + b'a' }
}

// A byte's two digits.
pub fn put_byte(out: &mut [u8], at: usize, byte: u8)
    requires { at + 2 ≤ length out.old }
    ensures { out.new ≡ sets out.old at (digits (byte ∷ [])) }
{
    out[at] = letter_of(byte / 16);
    out[at + 1] = letter_of(byte % 16);
}

// The digits of all of `bytes`.
pub fn put_bytes(out: &mut [u8], at: usize, bytes: &[u8])
    requires { at + 2 * length bytes.now ≤ length out.old }
    ensures { out.new ≡ sets out.old at (digits bytes.now) }
{
    for (k, byte) in bytes.iter().enumerate() {
        put_byte(out, at + 2 * k, *byte);
    }
}
