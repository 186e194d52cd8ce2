// What the rows of a text are of, and where the numbers stand that the crates above look up.

// What a row is of: its first number. Connections and queues have no rows of their own, but keys.
#[derive(Clone, Copy)]
pub enum Sort {
    Process = 1,
    Type = 2,
    Implementation = 3,
    Port = 4,
    Thread = 5,
    Link = 6,
    Connection = 7,
    Queue = 8,
}

// The columns of a thread's properties, and of its type's and its implementation's.
pub const PERIOD_COLUMN: usize = 5;

pub const DEADLINE_COLUMN: usize = 6;

pub const PROTOCOL_COLUMN: usize = 7;

pub const OFFSET_COLUMN: usize = 8;

pub const PRIORITY_COLUMN: usize = 9;
