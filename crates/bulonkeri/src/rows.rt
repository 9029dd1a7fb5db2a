// Rows of numbers printed: a blank between two, a newline at the end of a row.
ghost use Rattle.std.specs.Prelude.{◌<◌, ◌≤◌, length, IfOk};

use crate::numbers::print_number;
use crate::printing::print;
use crate::refusals::refused;
use answers::Refusal;

fn after(i: usize, row: usize) -> u8
    requires { 0 < row }
{
    if i % row == row - 1 { b'\n' } else { b' ' }
}

// Stops where standard output takes no more.
pub fn print_rows<T: Copy + Into<u32>>(rt: &(impl Print + Eprint), numbers: &[T], row: usize)
    requires { 0 < row }
{
    for (i, number) in numbers.iter().enumerate() {
        if !print_number(rt, (*number).into(), after(i, row)) {
            return;
        }
    }
}

// What was counted of each entry, a line each, or why nothing was.
pub fn print_counted<T: Copy + Into<u32>>(
    rt: &(impl Print + Eprint),
    answer: Result<usize, Refusal>,
    out: &[T],
    heading: &[u8],
)
    requires { IfOk answer (λ count. count ≤ length out.now) }
{
    match answer {
        Ok(count) => {
            print(rt, heading);
            print_rows(rt, &out[..count], 1);
        }
        Err(refusal) => refused(rt, refusal),
    }
}
