// A search from the front.
ghost use Rattle.std.specs.Prelude.{◌≡◌, ◌==◌, position};

pub(crate) fn first_place(row: usize, rows: &[usize]) -> Option<usize>
    ensures { result ≡ position (λ k. k == row) rows.now }
{
    rows.iter().position(|k| *k == row)
}
