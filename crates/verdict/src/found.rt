// L, as an argument says it, and as a job's first record has cells.
ghost use Rattle.std.specs.Prelude.{◌≡◌, ◌≤◌, cond, Some, None};
ghost use Rattle.machine.specs.State.{most_cells};
ghost use Rattle.verdict.specs.Length.{grown, goes_on, length_in, starts_at_zero, first_count};

// The number from 1 to the most that a byte makes after a value, if it is a digit that makes one.
fn grown(value: usize, b: u8, most: usize) -> Option<usize>
    requires { (value ≤ most) × (most ≤ most_cells) }
    ensures { result ≡ cond (goes_on most value b) (Some (grown value b)) None }
{
    if b.is_ascii_digit() {
        let next = 10 * value + (b - b'0') as usize;
        if 0 < next && next <= most {
            return Some(next);
        }
    }
    None
}

// The number from 1 to the most that an argument's digits make, or 0, as the definition `length_in` has it.
pub(crate) fn length_in(argument: &[u8], most: usize) -> usize
    requires { most ≤ most_cells }
    ensures { result ≡ length_in most argument.now }
{
    let mut value = 0;
    for b in argument {
        match grown(value, *b, most) {
            Some(next) => value = next,
            None => return 0,
        }
    }
    value
}

// Whether a job's first record is a run of cells from cell 0 on.
pub(crate) fn starts_at_zero(job: &[u8]) -> bool
    ensures { result ≡ starts_at_zero job.now }
{
    lent::number(job, 4, 2) == 1 && lent::number(job, 6, 2) == 0
}

// How many cells a job's first record has, if it is a run.
pub(crate) fn first_count(job: &[u8]) -> usize
    ensures { result ≡ first_count job.now }
{
    (lent::number(job, 0, 4).saturating_sub(2) / 4) as usize
}
