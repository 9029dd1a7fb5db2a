// One step of a replay: 16, 18, 15, or the state after it.
ghost use Rattle.std.specs.Prelude.{◌≡◌, ◌+◌, ◌*◌, ◌<◌, ◌≤◌, length};
ghost use Rattle.defs.specs.Table.{statements, hyp_count, max_references};
ghost use Rattle.defs.specs.Steps.{step_size};
ghost use Rattle.defs.specs.Replay.{one_step};
ghost use Rattle.replay.specs.Steps.{step_at};
ghost use Rattle.store.specs.Places.{StoreOk};
ghost use Rattle.replay.specs.Turns.{Readable, standing, turn_of, Grown, Referred, normal_turn};

use crate::stack::push;
use crate::steps::{read_step, step_right};
use answers::Refusal;
use store::place::{Store, find_or_append};
use table::sections::statement_section;
use table::statements::hyp_count;
use table::{EntryNo, StatementNo};

// Where a replay stands: what is built, the items on the stack, and the marks given.
// As it is: (a) no heap. The stack, the marks and what is built are fronts of slices lent by the caller.
#[derive(Clone, Copy, Debug, PartialEq, Eq)]
pub struct State {
    pub store: Store,
    pub height: usize,
    pub marks: usize,
}

#[tactic(auto, using(crate::proofs::TurnLaws::statement_in, crate::proofs::TurnLaws::hyp_count_is))]
fn hypotheses_of(words: &[u32], statement: StatementNo) -> usize
    requires readable { Readable words.now }
    requires statement_bound { statement.0 < statements words.now }
    ensures { (result ≡ hyp_count words.now statement.0) × (result ≤ max_references) }
{
    hyp_count(statement_section(words), statement)
}

// A reference pushes the entry its mark names.
fn refer(reference: u32, mark: u32, half: usize, work: &mut [u32], state: State) -> State
    requires height_lt_half { (state.height < half) × ((state.marks < half) × (half + half ≤ length work.old)) }
    requires le_reference { (1 ≤ reference) × (reference ≤ state.marks) }
    ensures { Referred reference mark half work.old work.new state result }
{
    let named = half + (reference as usize - 1);
    let e = EntryNo(work[named]);
    let marks = push(work, half, state.height, state.marks, e, mark);
    State {
        store: state.store,
        height: state.height + 1,
        marks,
    }
}

// A normal step pops its statement's hypothesis count, finds an exactly equal entry or appends one, pushes it.
fn normal_step(
    words: &[u32],
    statement: StatementNo,
    mark: u32,
    half: usize,
    work: &mut [u32],
    entries: &mut [u32],
    children: &mut [u32],
    state: State,
) -> Result<State, Refusal>
    requires readable { Readable words.now }
    requires statement_bound { statement.0 < statements words.now }
    requires height_lt_half { (state.height < half) × ((state.marks < half) × (half + half ≤ length work.old)) }
    requires store_ok { StoreOk entries.old children.old state.store }
    ensures { (turn_of half work.new entries.new children.new result
        ≡ normal_turn words.now (length entries.old) (length children.old)
        (standing half work.old entries.old children.old state) statement.0 mark)
        × Grown state entries.new children.new result }
{
    let count = hypotheses_of(words, statement);
    let height = state.height;
    if height < count {
        return Err(Refusal::BadStack);
    }
    let from = height - count;
    let place = find_or_append(
        statement,
        &work[from..height],
        entries,
        children,
        state.store,
    );
    let placed = place.ok_or(Refusal::ShortOutput)?;
    let marks = push(work, half, from, state.marks, placed.entry, mark);
    Ok(State {
        store: placed.store,
        height: from + 1,
        marks,
    })
}

// Step k of the list: per step 16, 18, 15.
// As it is: (d) a struct of the three lent slices asks of each function that takes it that each field is the slice lent.
pub fn one_step(
    words: &[u32],
    steps: &[u32],
    k: usize,
    half: usize,
    work: &mut [u32],
    entries: &mut [u32],
    children: &mut [u32],
    state: State,
) -> Result<State, Refusal>
    requires readable { Readable words.now }
    requires step_size_in_bounds { step_size * k + step_size ≤ length steps.now }
    requires height_lt_half { (state.height < half) × ((state.marks < half) × (half + half ≤ length work.old)) }
    requires store_ok { StoreOk entries.old children.old state.store }
    ensures { (turn_of half work.new entries.new children.new result
        ≡ one_step words.now (length entries.old) (length children.old)
        (standing half work.old entries.old children.old state) (step_at steps.now k))
        × Grown state entries.new children.new result }
{
    let step = read_step(steps, k);
    let statements = words[0];
    if !step_right(step, statements, state.marks) {
        return Err(Refusal::BadList);
    }
    let reference = step.reference;
    if reference != 0 {
        return Ok(refer(reference, step.mark, half, work, state));
    }
    let statement = StatementNo(step.statement);
    normal_step(
        words, statement, step.mark, half, work, entries, children, state,
    )
}
