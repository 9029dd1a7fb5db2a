// The library for C and Rust. A slice is a pointer and a length; each function has the contract of the operation that it calls.
// The header is include/bulonkeri.h.
#![tactic(auto)]

ghost use Rattle.std.specs.Prelude.{true, false, [], ◌∷◌, ◌≡◌};
ghost use Rattle.answers.specs.Refused.{answer_number, answer_length, answer_first, answer_second};
ghost use Rattle.defs.specs.Check.{table_refusal};
ghost use Rattle.defs.specs.Outcome.{answer_one, answer_two, parents_outcome, distances_outcome, step_list_outcome, letters_outcome, text_outcome};
ghost use Rattle.defs.specs.Decode.{decode_outcome};
ghost use Rattle.defs.specs.Replay.{replay_outcome};

use answers::{Lengths, Refusal, Written, WrittenTwo};
use layout::Layout;

// What C is told of an answer: its number, and the length written.
fn told(answer: Result<usize, Refusal>, written: &mut u64) -> u32
    ensures { (result ≡ answer_number answer) × (written.new ≡ answer_length answer) }
{
    let Written { number, length } = Written::from(answer);
    *written = length as u64;
    number
}

fn told_both(answer: Result<Lengths, Refusal>, first: &mut u64, second: &mut u64) -> u32
    ensures { (result ≡ answer_number answer) × ((first.new ≡ answer_first answer) × (second.new ≡ answer_second answer)) }
{
    let both = WrittenTwo::from(answer);
    *first = both.first as u64;
    *second = both.second as u64;
    both.number
}

#[unsafe(no_mangle)]
pub extern "C" fn bulonkeri_check(words: &[u32], labels: &[u8]) -> u32
    ensures { result ≡ table_refusal words.now labels.now }
{
    match table_check::check(words, labels) {
        Ok(()) => 0,
        Err(refusal) => refusal.number(),
    }
}

#[unsafe(no_mangle)]
pub extern "C" fn bulonkeri_parents(
    words: &[u32],
    labels: &[u8],
    out: &mut [u32],
    written: &mut u64,
) -> u32
    ensures { answer_one result written.new [] out.new
        ≡ parents_outcome words.now labels.now out.old }
{
    let answer = counts::parents::parents(words, labels, out);
    told(answer, written)
}

#[unsafe(no_mangle)]
pub extern "C" fn bulonkeri_distances(
    words: &[u32],
    labels: &[u8],
    out: &mut [u16],
    written: &mut u64,
) -> u32
    ensures { answer_one result written.new [] out.new
        ≡ distances_outcome words.now labels.now out.old }
{
    let answer = counts::distances::distances(words, labels, out);
    told(answer, written)
}

#[unsafe(no_mangle)]
pub extern "C" fn bulonkeri_packed_list(
    words: &[u32],
    labels: &[u8],
    explicit: bool,
    work: &mut [u32],
    out: &mut [u32],
    written: &mut u64,
) -> u32
    ensures { answer_one result written.new (work.new ∷ []) out.new
        ≡ step_list_outcome words.now labels.now true explicit work.old out.old }
{
    let answer = lists::packed::packed_list(words, labels, explicit, work, out);
    told(answer, written)
}

#[unsafe(no_mangle)]
pub extern "C" fn bulonkeri_normal_list(
    words: &[u32],
    labels: &[u8],
    explicit: bool,
    work: &mut [u32],
    out: &mut [u32],
    written: &mut u64,
) -> u32
    ensures { answer_one result written.new (work.new ∷ []) out.new
        ≡ step_list_outcome words.now labels.now false explicit work.old out.old }
{
    let answer = lists::normal::normal_list(words, labels, explicit, work, out);
    told(answer, written)
}

#[unsafe(no_mangle)]
pub extern "C" fn bulonkeri_letters(
    words: &[u32],
    labels: &[u8],
    width: u32,
    indent: u32,
    first: u32,
    work: &mut [u32],
    sums: &mut [u16],
    list: &mut [u32],
    letters: &mut [u8],
    written_list: &mut u64,
    written_letters: &mut u64,
) -> u32
    ensures { answer_two result written_list.new written_letters.new (work.new ∷ sums.new ∷ [])
        list.new letters.new
        ≡ letters_outcome words.now labels.now (record { width = width; indent = indent; first = first })
        work.old sums.old list.old letters.old }
{
    let layout = Layout {
        width,
        indent,
        first,
    };
    let answer = order::label_letters(words, labels, layout, work, sums, list, letters);
    told_both(answer, written_list, written_letters)
}

#[unsafe(no_mangle)]
pub extern "C" fn bulonkeri_text(
    words: &[u32],
    labels: &[u8],
    style: u32,
    width: u32,
    indent: u32,
    first: u32,
    work: &mut [u32],
    sums: &mut [u16],
    out: &mut [u8],
    written: &mut u64,
) -> u32
    ensures { answer_one result written.new (work.new ∷ sums.new ∷ []) out.new
        ≡ text_outcome words.now labels.now style (record { width = width; indent = indent; first = first })
        work.old sums.old out.old }
{
    let layout = Layout {
        width,
        indent,
        first,
    };
    let answer = text::text(words, labels, style, layout, work, sums, out);
    told(answer, written)
}

#[unsafe(no_mangle)]
pub extern "C" fn bulonkeri_replay(
    words: &[u32],
    labels: &[u8],
    steps: &[u32],
    work: &mut [u32],
    entries: &mut [u32],
    children: &mut [u32],
    written_entries: &mut u64,
    written_children: &mut u64,
) -> u32
    ensures { answer_two result written_entries.new written_children.new (work.new ∷ []) entries.new children.new
        ≡ replay_outcome words.now labels.now steps.now work.old entries.old children.old }
{
    let answer = replay::replay(words, labels, steps, work, entries, children);
    told_both(answer, written_entries, written_children)
}

#[unsafe(no_mangle)]
pub extern "C" fn bulonkeri_decode(
    words: &[u32],
    labels: &[u8],
    list: &[u32],
    letters: &[u8],
    out: &mut [u32],
    written: &mut u64,
) -> u32
    ensures { answer_one result written.new [] out.new
        ≡ decode_outcome words.now labels.now list.now letters.now out.old }
{
    let answer = decode::decode(words, labels, list, letters, out);
    told(answer, written)
}
