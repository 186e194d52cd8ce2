// Lines behind each other in memory that is lent. A line's parts require room for it.
ghost use Rattle.std.specs.Prelude.{◌≡◌, ◌∷◌, ◌+◌, ◌*◌, ◌≤◌, ◌<◌};
ghost use Rattle.common.specs.Words.{[], length};
ghost use Rattle.digits.specs.Hex.{digits};
ghost use Rattle.digits.specs.Numbers.{in_bytes};
ghost use Rattle.frames.specs.Answers.{line_of};
ghost use Rattle.listing.specs.Lines.{task_line, queue_line, task_bytes, queue_bytes};
ghost use Rattle.listing.specs.Writer.{Put};

use digits::numbers::put_number;

// The memory, and where in it the next byte goes.
#[derive(Drop)]
pub struct Writer<'a> {
    pub out: &'a mut [u8],
    pub at: usize,
}

impl Writer<'_> {
    // A number in so many bytes, high byte first.
    pub fn number(&mut self, bytes: usize, number: u64)
        requires { self.old.at + 2 * bytes ≤ length self.old.out.now }
        ensures put { Put self.old (digits (in_bytes bytes number)) self.new }
        ensures behind { self.new.at ≡ self.old.at + 2 * bytes }
    {
        put_number(self.out, self.at, bytes, number);
        self.at += 2 * bytes;
    }

    pub fn end_line(&mut self)
        requires { self.old.at < length self.old.out.now }
        ensures { Put self.old (10 ∷ []) self.new }
    {
        self.out[self.at] = b'\n';
        self.at += 1;
    }

    // 01, period (2 bytes), deadline (2), priority (1).
    pub fn task(&mut self, period: u64, deadline: u64, priority: u8)
        requires { self.old.at + task_line ≤ length self.old.out.now }
        ensures { Put self.old (line_of (task_bytes period deadline priority)) self.new }
    {
        self.number(1, 0x01);
        self.number(2, period);
        self.number(2, deadline);
        self.number(1, u64::from(priority));
        self.end_line();
    }

    // 02, receiver (1 byte), sender mask (2).
    pub fn queue(&mut self, receiver: usize, mask: u64)
        requires { self.old.at + queue_line ≤ length self.old.out.now }
        ensures { Put self.old (line_of (queue_bytes receiver mask)) self.new }
    {
        self.number(1, 0x02);
        self.number(1, receiver as u64);
        self.number(2, mask);
        self.end_line();
    }

    // 03 alone.
    pub fn go(&mut self)
        requires { self.old.at + 3 ≤ length self.old.out.now }
        ensures { Put self.old (line_of (0x03 ∷ [])) self.new }
    {
        self.number(1, 0x03);
        self.end_line();
    }
}
