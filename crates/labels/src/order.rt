// The label list of a table, in the working slice: from `from` on there are eight arrays of s words. Listing left the first five; then
// come costs, use counts, which give way to the order, and room to order in.
ghost use Rattle.labels.specs.Weights.{NamesReady, Named};
ghost use Rattle.labels.specs.Ordered.{OrderReady, Ordered};
ghost use Rattle.std.specs.Prelude.{length};

use crate::floatings::count_floatings;
use crate::weights::weigh;
use blocks::order::label_order;
use listing::numbers::number_labels;
use table::header::read_header;
use table::sections::statement_section;
use theorem::hypotheses::theorem_list;

// The order says indices; each gives way to the statement that it names in the list from `at` on.
fn name_statements(work: &mut [u32], at: usize, order: usize, many: usize)
    requires { NamesReady at order many work.old }
    ensures { Named at order many work.old work.new }
{
    for i in 0..many {
        let index = work[order + i] as usize;
        work[order + i] = work[at + index];
    }
}

// Answers where the label list stands.
pub fn order_labels(
    words: &[u32],
    work: &mut [u32],
    from: usize,
    many: usize,
    width: usize,
    sums: &mut [u16],
) -> usize
    requires { OrderReady words.now from many width (length sums.old) work.old }
    ensures { Ordered words.now from many width result work.old work.new }
{
    let s = read_header(words).statements as usize;
    let statements = statement_section(words);
    let theorem = theorem_list(words);
    let floatings = count_floatings(statements, theorem);
    let list = from + 3 * s;
    let costs = from + 5 * s;
    let order = costs + many;
    let end = order + 2 * many;
    weigh(statements, work, list, many, from + s, costs);
    label_order(&mut work[costs..end], many, floatings, width, sums);
    name_statements(work, list, order, many);
    number_labels(work, theorem.len() as u32, order, many, s, from);
    order
}
