// What the rows that a text declares are found by: a row has a key in each of three roles. A dictionary finds, for a key, the first row
// that has it.
#![tactic(auto)]

ghost use Rattle.std.specs.Prelude.{◌≡◌, ◌+◌, ◌*◌, ◌<◌, ◌≤◌};
ghost use Rattle.common.specs.Words.{length};
ghost use Rattle.rows.specs.Rows.{row_words};
ghost use Rattle.index.specs.Options.{row_of};
ghost use Rattle.index.specs.Index.{column, row_at, own_name, declared_key, key_by};

mod building;
mod dictionary;
mod held;

pub use building::build;
pub use dictionary::Dictionary;
pub use held::Rows;
use keys::Key;
use rows::{ROW, Sort};

// The roles of keys: what a row is declared as, a connection by its ends, and a connection by its queue. They are numbers and no enum: a
// dictionary has its role as a const parameter.
pub const DECLARED: usize = 0;

pub const CONNECTED: usize = 1;

pub const QUEUED: usize = 2;

// The row that an entry in memory means: its number counted from 1, or 0 for none.
pub fn row_in(entry: u32) -> Option<usize>
    ensures { result ≡ row_of entry }
{
    (entry as usize).checked_sub(1)
}

// A second name, which only an implementation has.
fn own_name(sort: usize, own: usize) -> usize
    ensures { result ≡ own_name sort own }
{
    if sort == Sort::Implementation as usize {
        own
    } else {
        0
    }
}

// What a row is declared as.
fn declared_key(sort: usize, within: usize, name: usize, own: usize) -> Key
    ensures { result ≡ declared_key sort within name own }
{
    if sort == Sort::Process as usize {
        return Key {
            sort: Sort::Process as usize,
            ..Key::NONE
        };
    }
    Key {
        sort,
        within,
        first: name,
        second: own_name(sort, own),
        third: 0,
    }
}

// A number of row k.
pub fn column(rows: &[usize], k: usize, c: usize) -> usize
    requires { (row_words * k + row_words ≤ length rows.now) × (c < row_words) }
    ensures { result ≡ column (row_at rows.now k) c }
{
    rows[ROW * k + c]
}

// The key of row k in a role.
pub fn key_at(rows: &[usize], role: usize, k: usize) -> Key
    requires { row_words * k + row_words ≤ length rows.now }
    ensures { result ≡ key_by role (row_at rows.now k) }
{
    let sort = column(rows, k, 0);
    let within = column(rows, k, 1);
    if role == DECLARED {
        return declared_key(sort, within, column(rows, k, 2), column(rows, k, 4));
    }
    if sort != Sort::Link as usize {
        return Key::NONE;
    }
    let receiver = column(rows, k, 6);
    let port = column(rows, k, 7);
    if role == CONNECTED {
        return Key {
            sort: Sort::Connection as usize,
            within,
            first: column(rows, k, 4),
            second: receiver,
            third: port,
        };
    }
    Key {
        sort: Sort::Queue as usize,
        within,
        first: receiver,
        second: port,
        third: 0,
    }
}
