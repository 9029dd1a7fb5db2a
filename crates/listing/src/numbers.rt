// Number: place in the theorem's list (document 01). Kept plus 1, so that 0 says that a statement is not there.
ghost use Rattle.listing.specs.Labels.{LabelsReady, LabelsNumbered};
ghost use Rattle.listing.specs.Numbers.{Plain, Numbered};

// The numbers of the s statements stand from `from` on, and are zero before.
pub fn number_theorem(list: &[u32], work: &mut [u32], s: usize, from: usize)
    requires { Plain s from list.now work.old }
    ensures { Numbered s from list.now work.old work.new }
{
    for (i, k) in list.iter().enumerate() {
        work[from + *k as usize] = i as u32 + 1;
    }
}

// The label list stands from `at` on; its statements are numbered from `base` on, the length of the theorem's list.
pub fn number_labels(work: &mut [u32], base: u32, at: usize, many: usize, s: usize, from: usize)
    requires { LabelsReady base at many s from work.old }
    ensures { LabelsNumbered base at many s from work.old work.new }
{
    for i in 0..many {
        let k = work[at + i] as usize;
        work[from + k] = base + i as u32 + 1;
    }
}
