// Letters are read one by one into steps. The steps are counted, and stored as far as the slice has room.
ghost use Rattle.std.specs.Prelude.{◌≡◌, List, ℕ, ◌+◌, ◌-◌, Some};
ghost use Rattle.defs.specs.Decode.{Reading, finish_code, lead_code, mark_step, one_letter, all_letters};
ghost use Rattle.decode.specs.Decoding.{Short, Ready, Keeps, Came, Wrote, beginning};

use crate::steps::{put_mark, put_step, step_named};
use letters::letter::{Letter, read_letter};
use letters::number::{finish, lead};

// Where the reading stands.
#[derive(Clone, Copy, Debug, PartialEq, Eq)]
pub struct Decoder {
    // What is kept of the value of the leading letters (0: none).
    pub pending: u32,
    // The last letter finished a code.
    pub finished: bool,
    // How many marks were given.
    pub given: u32,
    pub steps: usize,
}

// `A` to `T` finish a code; a number naming nothing yet is refused.
fn finish_code(
    hypotheses: &[u32],
    list: &[u32],
    state: Decoder,
    digit: u32,
    out: &mut [u32],
) -> Option<Decoder>
    requires { Short hypotheses.now list.now × Ready state }
    ensures { (reading : Reading) (x : ℕ) (before : List ℕ) → x - 65 ≡ digit → Keeps reading state before out.old
        → Came (finish_code hypotheses.now list.now reading x) result (state.steps + 1) before out.new }
{
    let v = finish(state.pending, digit)?;
    let names = hypotheses.len() + list.len() + state.given as usize;
    if names <= v as usize {
        return None;
    }
    put_step(step_named(hypotheses, list, v), state.steps, out);
    Some(Decoder {
        pending: 0,
        finished: true,
        given: state.given,
        steps: state.steps + 1,
    })
}

// `U` to `Y` lead.
fn lead_code(state: Decoder, digit: u32) -> Decoder
    ensures { (reading : Reading) (x : ℕ) (before after : List ℕ) → x - 84 ≡ digit → Keeps reading state before after
        → Came (lead_code reading x) (Some result) (state.steps + 1) before after }
{
    Decoder {
        pending: lead(state.pending, digit),
        finished: false,
        given: state.given,
        steps: state.steps,
    }
}

// `Z` marks the step just finished; not straight after a finished code it is refused.
fn mark_step(state: Decoder, out: &mut [u32]) -> Option<Decoder>
    requires { Ready state }
    ensures { (reading : Reading) (before : List ℕ) → Keeps reading state before out.old
        → Came (mark_step reading) result (state.steps + 1) before out.new }
{
    if !state.finished {
        return None;
    }
    let mark = state.given.checked_add(1)?;
    put_mark(mark, state.steps - 1, out);
    Some(Decoder {
        pending: 0,
        finished: false, // a second `Z` finds no code just finished
        given: mark,
        steps: state.steps,
    })
}

// One decision over the byte ranges for each letter; any other byte is refused.
fn one_letter(
    hypotheses: &[u32],
    list: &[u32],
    state: Decoder,
    byte: u8,
    out: &mut [u32],
) -> Option<Decoder>
    requires { Short hypotheses.now list.now × Ready state }
    ensures { (reading : Reading) (before : List ℕ) → Keeps reading state before out.old
        → Came (one_letter hypotheses.now list.now reading byte) result (state.steps + 1) before out.new }
{
    match read_letter(byte) {
        Letter::Finishing(digit) => finish_code(hypotheses, list, state, digit, out),
        Letter::Leading(digit) => Some(lead_code(state, digit)),
        Letter::Mark => mark_step(state, out),
        Letter::Other => None,
    }
}

// How many steps all letters say. They must not end inside a code.
pub fn all_letters(
    hypotheses: &[u32],
    list: &[u32],
    letters: &[u8],
    out: &mut [u32],
) -> Option<usize>
    requires { Short hypotheses.now list.now }
    ensures { Wrote (all_letters hypotheses.now list.now letters.now beginning) result out.old out.new }
{
    let mut state = Decoder {
        pending: 0,
        finished: false,
        given: 0,
        steps: 0,
    };
    for &byte in letters {
        state = one_letter(hypotheses, list, state, byte, out)?;
    }
    if state.pending != 0 {
        return None;
    }
    Some(state.steps)
}
