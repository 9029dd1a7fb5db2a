// What the compressed form is written from, in the working slice: the packed list; where it ends eight arrays of s words, of which the
// first has the numbers of the statements, and behind the first five stands the label list.
ghost use Rattle.std.specs.Prelude.{◌≡◌, [], ◌∷◌, false, length, eqb, ltb};
ghost use Rattle.laws.specs.Tools.{any};
ghost use Rattle.answers.specs.Refused.{answer_number};
ghost use Rattle.defs.specs.Table.{kind_in, label_length_in};
ghost use Rattle.defs.specs.Check.{first_of, ◌when◌};
ghost use Rattle.layout.specs.Layouts.{layout_of};
ghost use Rattle.lettering.specs.Said.{ListReady, ListWrote};
ghost use Rattle.theorem.specs.Goal.{InStatements};
ghost use Rattle.order.specs.Arrangement.{Listable, ListedIn, Arrangeable, Arranges};

use answers::Refusal;
use labels::order::order_labels;
use labels::refusals::{has_essential, has_longer};
use layout::Layout;
use lettering::put_steps;
use listing::list::list_statements;
use packing::pack::pack;
use table::header::read_header;
use table::limits::STEP_WORDS;
use table::sections::statement_section;
use theorem::hypotheses::{mixed, theorem_list};

// Where the packed list ends, and how many statements are listed.
#[derive(Clone, Copy, Debug, PartialEq, Eq)]
pub struct Listed {
    pub end: usize,
    pub count: usize,
}

#[derive(Clone, Copy, Debug, PartialEq, Eq)]
pub struct Arranged {
    // the packed list: where it stands, and how many steps it has
    pub start: usize,
    pub steps: usize,
    // where the numbers of the statements stand, plus 1
    pub numbers: usize,
    // the label list: where it stands, and how long it is
    pub labels: usize,
    pub listed: usize,
    // the lengths of the theorem's list and of the label list together
    pub both: u32,
}

impl Arranged {
    // The letters of the packed list. Lent an empty slice, it measures.
    pub(crate) fn put_letters(self, work: &[u32], out: &mut [u8]) -> usize
        requires { ListReady self.start self.steps self.numbers self.both work.now }
        ensures { ListWrote self.start self.steps self.numbers self.both result work.now out.old out.new }
    {
        put_steps(work, self.start, self.steps, self.numbers, self.both, out)
    }
}

// The packed list, and behind it what is listed of it.
fn list_packed(words: &[u32], work: &mut [u32]) -> Listed
    requires { Listable words.now (length work.old) }
    ensures { ListedIn words.now result work.new }
{
    let header = read_header(words);
    let end = pack(words, work, false, header.qed);
    let start = header.entries as usize + 1;
    let steps = (end - start) / STEP_WORDS;
    let statements = statement_section(words);
    let theorem = theorem_list(words);
    let s = header.statements as usize;
    let count = list_statements(statements, theorem, work, start, steps, end, s);
    Listed { end, count }
}

// Refusals 11 and 12 of the listed statements: no label may be longer than `most`.
fn test_listed(statements: &[u32], list: &[u32], most: usize) -> Result<(), Refusal>
    requires { InStatements statements.now list.now }
    ensures { answer_number result ≡ first_of (11 when any (λ k. eqb (kind_in statements.now k) 2) list.now
        ∷ 12 when any (λ k. ltb most (label_length_in statements.now k)) list.now ∷ []) }
{
    if has_essential(statements, list) {
        return Err(Refusal::StrayEssential);
    }
    if has_longer(statements, list, most) {
        return Err(Refusal::LongLabel);
    }
    Ok(())
}

// Tests 10 to 12; the table and the layout are tested already, and the working slices are long enough.
pub fn arrange(
    words: &[u32],
    layout: Layout,
    work: &mut [u32],
    sums: &mut [u16],
) -> Result<Arranged, Refusal>
    requires { Arrangeable words.now (layout_of layout) (length work.old) (length sums.old) }
    ensures { Arranges words.now (layout_of layout) result work.new }
{
    let statements = statement_section(words);
    let theorem = theorem_list(words);
    if mixed(statements, theorem) {
        return Err(Refusal::Mixed);
    }
    let width = layout.line_room();
    let header = read_header(words);
    let start = header.entries as usize + 1;
    let packed = list_packed(words, work);
    let end = packed.end;
    let listed = packed.count;
    let from = end + 3 * header.statements as usize;
    let to = from + listed;
    test_listed(statements, &work[from..to], width - 1)?;
    let labels = order_labels(words, work, end, listed, width, sums);
    Ok(Arranged {
        start,
        steps: (end - start) / STEP_WORDS,
        numbers: end,
        labels,
        listed,
        both: (theorem.len() + listed) as u32,
    })
}
