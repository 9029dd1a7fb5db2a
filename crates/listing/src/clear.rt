// Words of the working slice made zero.
ghost use Rattle.listing.specs.Clear.{Inside, Cleared};

pub fn clear(work: &mut [u32], from: usize, to: usize)
    requires { Inside from to work.old }
    ensures { Cleared from to work.old work.new }
{
    work[from..to].fill(0);
}
