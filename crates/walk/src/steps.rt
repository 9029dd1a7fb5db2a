// A step is five u32: reference, mark, statement, parent statement plus 1, hypothesis index.
ghost use Rattle.std.specs.Prelude.{◌≡◌, ◌+◌, ◌≤◌, length};
ghost use Rattle.defs.specs.Steps.{step_size};
ghost use Rattle.walk.specs.Steps.{step, with_step};

pub fn put_step(
    list: &mut [u32],
    at: usize,
    reference: u32,
    mark: u32,
    statement: u32,
    parent: u32,
    index: u32,
)
    requires { at + step_size ≤ length list.old }
    ensures { list.new ≡ with_step list.old at (step reference mark statement parent index) }
{
    list[at] = reference;
    list[at + 1] = mark;
    list[at + 2] = statement;
    list[at + 3] = parent;
    list[at + 4] = index;
}
