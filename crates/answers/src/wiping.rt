// Any ending past test 14 leaves the working slices all zero, the whole of what was lent.
ghost use Rattle.std.specs.Prelude.{◌≡◌};
ghost use Rattle.laws.specs.Tools.{zeroed};

pub fn wipe(work: &mut [u32])
    ensures { work.new ≡ zeroed work.old }
{
    work.fill(0);
}

pub fn wipe_both(work: &mut [u32], sums: &mut [u16])
    ensures { (work.new ≡ zeroed work.old) × (sums.new ≡ zeroed sums.old) }
{
    work.fill(0);
    sums.fill(0);
}
