// The lines that the console writes: each function puts one line at the start of `out` and says how many bytes it wrote.
ghost use Rattle.std.specs.Prelude.{◌≡◌, ◌∷◌, ◌+◌, ◌≤◌};
ghost use Rattle.common.specs.Words.{[], length, sets};
ghost use Rattle.plan.specs.Limits.{queue_limit, payload_bytes};
ghost use Rattle.digits.specs.Hex.{digits};
ghost use Rattle.frames.specs.Answers.{longest_answer, each_size, sizes_bytes, stored_bytes, message_bytes, gap_bytes, empty_bytes, refusal_bytes};
ghost use Rattle.frames.specs.Answers.{bad_bytes};
ghost use Rattle.frames.specs.Writing.{Written};

use calendar::{Number, Slot};
use digits::numbers::put_number;
use plan::refusal::Refusal;

// The line feed behind so many digits, and how long the line is.
fn end_line(out: &mut [u8], at: usize) -> usize
    requires { at + 1 ≤ length out.old }
    ensures { (result ≡ at + 1) × (out.new ≡ sets out.old at (10 ∷ [])) }
{
    out[at] = b'\n';
    at + 1
}

// What was read is no frame, or comes at the wrong time.
pub fn write_bad(out: &mut [u8]) -> usize
    requires { longest_answer ≤ length out.old }
    ensures { Written bad_bytes out.old result out.new }
{
    put_number(out, 0, 3, 0x7f_f000);
    end_line(out, 6)
}

pub fn write_empty(out: &mut [u8]) -> usize
    requires { longest_answer ≤ length out.old }
    ensures { Written empty_bytes out.old result out.new }
{
    put_number(out, 0, 1, 0x87);
    end_line(out, 2)
}

pub fn write_refusal(out: &mut [u8], refusal: Refusal) -> usize
    requires { longest_answer ≤ length out.old }
    ensures { Written (refusal_bytes refusal) out.old result out.new }
{
    put_number(out, 0, 1, 0x7f);
    put_number(out, 2, 1, u64::from(u8::from(refusal.rule)));
    put_number(out, 4, 1, refusal.row as u64);
    end_line(out, 6)
}

pub fn write_stored(out: &mut [u8], number: Number, slot: Slot) -> usize
    requires { longest_answer ≤ length out.old }
    ensures { Written (stored_bytes number.0 slot.0) out.old result out.new }
{
    put_number(out, 0, 1, 0x84);
    put_number(out, 2, 6, number.0);
    put_number(out, 14, 2, slot.0 as u64);
    end_line(out, 18)
}

pub fn write_gap(out: &mut [u8], number: Number, sender: usize) -> usize
    requires { longest_answer ≤ length out.old }
    ensures { Written (gap_bytes number.0 sender) out.old result out.new }
{
    put_number(out, 0, 1, 0x86);
    put_number(out, 2, 6, number.0);
    put_number(out, 14, 1, sender as u64);
    end_line(out, 16)
}

pub fn write_message(out: &mut [u8], number: Number, payload: &[u8]) -> usize
    requires { (longest_answer ≤ length out.old) × (length payload.now ≤ payload_bytes) }
    ensures { Written (message_bytes number.0 payload.now) out.old result out.new }
{
    put_number(out, 0, 1, 0x85);
    put_number(out, 2, 6, number.0);
    digits::hex::put_bytes(out, 14, payload);
    end_line(out, 14 + 2 * payload.len())
}

// The sizes of the queues, from digit 2 on.
fn put_sizes(out: &mut [u8], sizes: &[usize])
    requires { (longest_answer ≤ length out.old) × (length sizes.now ≤ queue_limit) }
    ensures { out.new ≡ sets out.old 2 (digits (each_size sizes.now (length sizes.now))) }
{
    for (q, size) in sizes.iter().enumerate() {
        put_number(out, 2 + 4 * q, 2, *size as u64);
    }
}

pub fn write_sizes(out: &mut [u8], sizes: &[usize]) -> usize
    requires { (longest_answer ≤ length out.old) × (length sizes.now ≤ queue_limit) }
    ensures { Written (sizes_bytes sizes.now (length sizes.now)) out.old result out.new }
{
    put_number(out, 0, 1, 0x81);
    put_sizes(out, sizes);
    end_line(out, 2 + 4 * sizes.len())
}
