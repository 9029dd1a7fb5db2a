// What the library answers: the number, the length and the hash of an output.
ghost use Rattle.std.specs.Prelude.{◌≡◌, true, false, ◌≤◌, length, map};
ghost use Rattle.layout.specs.Layouts.{layout_of};
ghost use Rattle.vectors.specs.Answers.{answer_of, parents_answer, distances_answer, list_answer, letters_answers, text_answer, is_stored};

use crate::hash::{Element, hash};
use answers::{Written, WrittenTwo};
use layout::Layout;

#[derive(Clone, Copy, Debug, PartialEq, Eq)]
pub struct Answer {
    pub number: u32,
    pub length: usize,
    pub hash: u64,
}

// Of an operation with two outputs.
#[derive(Clone, Copy, Debug, PartialEq, Eq)]
pub struct Answers {
    pub labels: Answer,
    pub letters: Answer,
}

// What was written into an output is hashed: its first elements, so many as the answer says.
fn of_output<T: Element>(number: u32, count: usize, out: &[T]) -> Answer
    requires { count ≤ length out.now }
    ensures { result ≡ answer_of number count (map T.number out.now) }
{
    Answer {
        number,
        length: count,
        hash: hash(&out[..count]),
    }
}

pub fn parents(words: &[u32], labels: &[u8], out: &mut [u32]) -> Answer
    ensures { result ≡ parents_answer words.now labels.now out.old }
{
    let answer = Written::from(counts::parents::parents(words, labels, out));
    of_output(answer.number, answer.length, &out[..])
}

pub fn distances(words: &[u32], labels: &[u8], out: &mut [u16]) -> Answer
    ensures { result ≡ distances_answer words.now labels.now out.old }
{
    let answer = Written::from(counts::distances::distances(words, labels, out));
    of_output(answer.number, answer.length, &out[..])
}

pub fn normal(
    words: &[u32],
    labels: &[u8],
    explicit: bool,
    work: &mut [u32],
    out: &mut [u32],
) -> Answer
    ensures { result ≡ list_answer words.now labels.now false explicit work.old out.old }
{
    let answer = Written::from(lists::normal::normal_list(words, labels, explicit, work, out));
    of_output(answer.number, answer.length, &out[..])
}

pub fn packed(
    words: &[u32],
    labels: &[u8],
    explicit: bool,
    work: &mut [u32],
    out: &mut [u32],
) -> Answer
    ensures { result ≡ list_answer words.now labels.now true explicit work.old out.old }
{
    let answer = Written::from(lists::packed::packed_list(words, labels, explicit, work, out));
    of_output(answer.number, answer.length, &out[..])
}

pub fn label_letters(
    words: &[u32],
    labels: &[u8],
    layout: Layout,
    work: &mut [u32],
    sums: &mut [u16],
    out: &mut [u32],
    bytes: &mut [u8],
) -> Answers
    ensures { result ≡ letters_answers words.now labels.now (layout_of layout)
        work.old sums.old out.old bytes.old }
{
    let answer = WrittenTwo::from(order::label_letters(
        words, labels, layout, work, sums, out, bytes,
    ));
    let labels = of_output(answer.number, answer.first, &out[..]);
    let letters = of_output(answer.number, answer.second, &bytes[..]);
    Answers { labels, letters }
}

pub fn text(
    words: &[u32],
    labels: &[u8],
    style: u32,
    layout: Layout,
    work: &mut [u32],
    sums: &mut [u16],
    bytes: &mut [u8],
) -> Answer
    ensures { result ≡ text_answer words.now labels.now style (layout_of layout)
        work.old sums.old bytes.old }
{
    let answer = Written::from(text::text(words, labels, style, layout, work, sums, bytes));
    of_output(answer.number, answer.length, &bytes[..])
}

// Whether an answer is the stored one.
#[tactic(auto, unfolding(crate::specs::Answers::is_stored))]
pub fn is_stored(answer: Answer, length: usize, hash: u64) -> bool
    ensures { result ≡ is_stored answer length hash }
{
    answer.number == 0 && answer.length == length && answer.hash == hash
}
