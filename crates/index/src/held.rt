// Rows in memory that a caller lends, ten numbers for each.

ghost use Rattle.std.specs.Prelude.{◌≡◌, ◌*◌, ◌<◌, ◌≤◌};
ghost use Rattle.common.specs.Words.{length};
ghost use Rattle.rows.specs.Rows.{row_words};

use crate::column;

#[derive(Clone, Copy)]
pub struct Rows<'a> {
    pub memory: &'a [usize],
    pub count: usize,
    pub ghost held: { row_words * count ≤ length memory.now },
}

impl<'a> Rows<'a> {
    ghost use Rattle.index.specs.Index.{cell};
    ghost use Rattle.index.specs.Options.{value_of};
    ghost use Rattle.index.specs.Held.{rows_of};

    // A number of row k.
    pub fn cell(&self, k: usize, c: usize) -> usize
        requires { (k < self.now.count) × (c < row_words) }
        ensures { result ≡ cell (rows_of self.now) k c }
    {
        column(self.memory, k, c)
    }

    // What row k says in a column, where it says something: the number there is not 0.
    pub fn value(&self, k: usize, c: usize) -> Option<usize>
        requires { (k < self.now.count) × (c < row_words) }
        ensures { result ≡ value_of (cell (rows_of self.now) k c) }
    {
        let value = self.cell(k, c);
        if value == 0 { None } else { Some(value) }
    }
}
