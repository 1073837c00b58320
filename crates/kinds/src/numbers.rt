// Rows of numbers with 0 behind the last.
ghost use Rattle.std.specs.Prelude.{◌≡◌, ◌≤◌, length};
ghost use Rattle.kinds.specs.Numbers.{used};

// The numbers before the first 0. The two cases are the two of the definition.
pub fn used(row: &[u32]) -> &[u32]
    ensures value { result.now ≡ used row.now }
    ensures within { length result.now ≤ length row.now }
{
    match row.iter().position(|number| *number == 0) {
        Some(end) => &row[..end],
        None => row,
    }
}
