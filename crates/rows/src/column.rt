// A column of numbers, one to a task.
ghost use Rattle.std.specs.Prelude.{◌≡◌, slice_index};

// The number of a task, or 0 for one that the column does not have.
pub fn entry(column: &[u32], task: u8) -> u32
    ensures { result ≡ slice_index column.now task }
{
    column.get(usize::from(task)).copied().unwrap_or(0)
}
