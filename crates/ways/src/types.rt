// The way from a type to the types that this one extends, 8 types at most.

ghost use Rattle.std.specs.Prelude.{ℕ, ◌≡◌, ◌<◌, ◌≤◌, Option, IfSome};
ghost use Rattle.common.specs.Words.{get_or};
ghost use Rattle.ways.specs.Ways.{Bounded};
ghost use Rattle.ways.specs.Props.{bounded_prop};

use crate::above;
use index::Rows;

// How many types a way has at most, with the thread's own.
const MOST_TYPES: usize = 8;

// Rows, and for each the number of the type above it, which is there.
#[derive(Clone, Copy)]
pub struct Types<'a> {
    pub rows: Rows<'a>,
    pub above: &'a [u32],
    pub ghost bounded: { Bounded above.now rows.count } by { bounded_prop },
}

impl<'a> Types<'a> {
    ghost use Rattle.rows.specs.Rows.{row_words};
    ghost use Rattle.index.specs.Index.{cell};
    ghost use Rattle.index.specs.Held.{rows_of};
    ghost use Rattle.ways.specs.Ways.{most_types, way_by, first_in, first_some, ends};
    ghost use Rattle.index.specs.Options.{number_in, value_of};
    ghost use Rattle.ways.specs.Options.{end_at};

    // What the first has of the types on a way that have it.
    pub(crate) fn first_on_way<F: Fn(usize) -> Option<usize>>(
        &self,
        first: Option<usize>,
        has: F,
    ) -> Option<usize>
        requires within { IfSome first (λ k. k < self.now.rows.count) }
        requires callable { (j : ℕ) → j < self.now.rows.count → F.pre has j }
        ensures { (h : ℕ → Option ℕ) → ((j : ℕ) → j < self.now.rows.count → (r : Option ℕ) → F.post has j r → r ≡ h j) →
            result ≡ first_some h (way_by (λ (j : ℕ). get_or self.now.above.now j 0) most_types (number_in first)) }
    {
        let mut next = first;
        for turn in 0..MOST_TYPES {
            let j = next?;
            if let Some(found) = has(j) {
                return Some(found);
            }
            next = above(self.above, self.rows.count, j);
        }
        None
    }

    // What stands in a column of the first type on a way that has something there.
    pub(crate) fn value_on_way(&self, first: Option<usize>, c: usize) -> Option<usize>
        requires { IfSome first (λ k. k < self.now.rows.count) × (c < row_words) }
        ensures { result ≡ value_of (first_in (λ (j : ℕ). cell (rows_of self.now.rows) j c)
            (way_by (λ (j : ℕ). get_or self.now.above.now j 0) most_types (number_in first))) }
    {
        self.first_on_way(first, |j| self.rows.value(j, c))
    }

    // Whether the way from a type on comes to a type that extends none.
    pub fn way_ends(&self, first: Option<usize>) -> bool
        requires { IfSome first (λ k. k < self.now.rows.count) }
        ensures { result ≡ ends (rows_of self.now.rows) (way_by (λ (j : ℕ). get_or self.now.above.now j 0) most_types (number_in first)) }
    {
        self.first_on_way(first, |j| self.end(j)).is_some()
    }

    // Type j, where it extends none.
    fn end(&self, j: usize) -> Option<usize>
        requires { j < self.now.rows.count }
        ensures { result ≡ end_at (rows_of self.now.rows) j }
    {
        if self.rows.cell(j, 3) == 0 {
            Some(j)
        } else {
            None
        }
    }
}
