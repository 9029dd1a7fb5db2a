// Cost: label length + 1. Use count: its normal steps in the packed list.
ghost use Rattle.labels.specs.Weights.{WeighReady, Weighed};

use table::StatementNo;
use table::statements::label_length;

// The listed statements stand from `at` on, the use counts of all statements from `uses` on. By index, the costs go to `to`, and
// behind them the use counts.
pub fn weigh(statements: &[u32], work: &mut [u32], at: usize, many: usize, uses: usize, to: usize)
    requires { WeighReady statements.now at many uses to work.old }
    ensures { Weighed statements.now at many uses to work.old work.new }
{
    for i in 0..many {
        let k = work[at + i];
        let length = label_length(statements, StatementNo(k));
        let used = work[uses + k as usize];
        work[to + i] = length as u32 + 1;
        work[to + many + i] = used;
    }
}
