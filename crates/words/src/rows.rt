// A row of numbers.
ghost use Rattle.std.specs.Prelude.{◌≡◌, slice_index};

// A number of a row, and 0 past its end.
pub fn number_at(row: &[usize], at: usize) -> usize
    ensures { result ≡ slice_index row.now at }
{
    row.get(at).copied().unwrap_or(0)
}
