// The stored answers of one table, compared with the library's.
ghost use Rattle.std.specs.Prelude.{◌≡◌, ◌-◌, length};
ghost use Rattle.layout.specs.Layouts.{layout_of};
ghost use Rattle.vectors.specs.Asked.{counts_compared, lists_compared, texts_compared, layout_compared};
ghost use Rattle.vectors.specs.Tallies.{judged, compared};

use crate::operations;
use crate::operations::{Answer, is_stored};
use crate::tally::Tally;
use layout::Layout;
use table_file::{decode, word};

// An answer is stored as its length and its hash; this length is for one that the Rust does not give, or that is too long to compare.
const LEFT_OUT: u32 = 4294967295;

// The bytes from a place on.
fn left(stored: &[u8], at: usize) -> usize
    ensures { result ≡ length stored.now - at }
{
    stored.len().saturating_sub(at)
}

// Counts an answer as equal to the stored one or different from it.
fn judge(rt: &impl Print, tally: Tally, name: &str, answer: Answer, length: u32, hash: u32) -> Tally
    ensures { result ≡ judged tally answer length hash }
{
    if length == LEFT_OUT {
        return tally;
    }
    if is_stored(answer, length as usize, hash as u64) {
        return tally.with_equal();
    }
    tally.print_difference(rt, name);
    tally.with_different()
}

// Compares an answer with the stored one, which is the next in the data.
fn compare(rt: &impl Print, stored: &[u8], tally: Tally, name: &str, answer: Answer) -> Tally
    ensures { result ≡ compared stored.now tally answer }
{
    let at = tally.at;
    if left(stored, at) < 8 {
        return tally.malformed();
    }
    let length = word(stored, at);
    let hash = word(stored, at + 4);
    judge(rt, tally.moved_to(at + 8), name, answer, length, hash)
}

fn compare_counts(
    rt: &impl Print,
    stored: &[u8],
    tally: Tally,
    words: &[u32],
    labels: &[u8],
    sums: &mut [u16],
    out: &mut [u32],
) -> Tally
    ensures { result ≡ counts_compared stored.now tally words.now labels.now sums.old out.old }
{
    let parents = operations::parents(words, labels, out);
    let distances = operations::distances(words, labels, sums);
    let between = compare(rt, stored, tally, "parents", parents);
    compare(rt, stored, between, "distances", distances)
}

fn compare_lists(
    rt: &impl Print,
    stored: &[u8],
    tally: Tally,
    words: &[u32],
    labels: &[u8],
    work: &mut [u32],
    out: &mut [u32],
) -> Tally
    ensures { result ≡ lists_compared stored.now tally words.now labels.now work.old out.old }
{
    let normal = operations::normal(words, labels, false, work, out);
    let first = compare(rt, stored, tally, "normal list", normal);
    let explicit = operations::normal(words, labels, true, work, out);
    let second = compare(rt, stored, first, "explicit normal list", explicit);
    let packed = operations::packed(words, labels, false, work, out);
    let third = compare(rt, stored, second, "packed list", packed);
    let packed_explicit = operations::packed(words, labels, true, work, out);
    compare(rt, stored, third, "explicit packed list", packed_explicit)
}

const TEXT_NAMES: [&str; 5] = ["text0", "text1", "text2", "text3", "text4"];

// The five texts in one layout.
fn compare_texts(
    rt: &impl Print,
    stored: &[u8],
    tally: Tally,
    words: &[u32],
    labels: &[u8],
    layout: Layout,
    work: &mut [u32],
    sums: &mut [u16],
    bytes: &mut [u8],
) -> Tally
    ensures { result ≡ texts_compared stored.now tally words.now labels.now (layout_of layout)
        work.old sums.old bytes.old 5 }
{
    let mut now = tally;
    for (style, name) in TEXT_NAMES.iter().enumerate() {
        let answer = operations::text(words, labels, style as u32, layout, work, sums, bytes);
        now = compare(rt, stored, now, name, answer);
    }
    now
}

// Label list, letters and texts in the layout that is the next in the data.
fn compare_layout(
    rt: &impl Print,
    stored: &[u8],
    tally: Tally,
    words: &[u32],
    labels: &[u8],
    work: &mut [u32],
    sums: &mut [u16],
    out: &mut [u32],
    bytes: &mut [u8],
) -> Tally
    ensures { result ≡ layout_compared stored.now tally words.now labels.now
        work.old sums.old out.old bytes.old }
{
    let at = tally.at;
    if left(stored, at) < 12 {
        return tally.malformed();
    }
    let layout = Layout {
        width: word(stored, at),
        indent: word(stored, at + 4),
        first: word(stored, at + 8),
    };
    let begun = tally.moved_to(at + 12).with_layout();
    let both = operations::label_letters(words, labels, layout, work, sums, out, bytes);
    let listed = compare(rt, stored, begun, "label list", both.labels);
    let lettered = compare(rt, stored, listed, "letters", both.letters);
    compare_texts(
        rt, stored, lettered, words, labels, layout, work, sums, bytes,
    )
}

fn compare_layouts(
    rt: &impl Print,
    stored: &[u8],
    tally: Tally,
    layouts: u32,
    words: &[u32],
    labels: &[u8],
    work: &mut [u32],
    sums: &mut [u16],
    out: &mut [u32],
    bytes: &mut [u8],
) -> Tally {
    let mut now = tally;
    for _ in 0..layouts {
        now = compare_layout(rt, stored, now, words, labels, work, sums, out, bytes);
        if !now.well_formed {
            return now;
        }
    }
    now
}

fn compare_answers(
    rt: &impl Print,
    stored: &[u8],
    tally: Tally,
    layouts: u32,
    words: &[u32],
    labels: &[u8],
    work: &mut [u32],
    sums: &mut [u16],
    out: &mut [u32],
    bytes: &mut [u8],
) -> Tally {
    let counted = compare_counts(rt, stored, tally, words, labels, sums, out);
    let listed = compare_lists(rt, stored, counted, words, labels, work, out);
    compare_layouts(
        rt, stored, listed, layouts, words, labels, work, sums, out, bytes,
    )
}

// The table that is the next in the data: the number of its words, of its label bytes and of the layouts; its words and label bytes;
// then the answers.
pub fn compare_table(
    rt: &impl Print,
    stored: &[u8],
    tally: Tally,
    words: &mut [u32],
    work: &mut [u32],
    sums: &mut [u16],
    out: &mut [u32],
    bytes: &mut [u8],
) -> Tally {
    let at = tally.at;
    if left(stored, at) < 12 {
        return tally.malformed();
    }
    let count = word(stored, at) as usize;
    let size = word(stored, at + 4) as usize;
    let layouts = word(stored, at + 8);
    let start = at + 12;
    if words.len() < count {
        return tally.malformed();
    }
    if left(stored, start) / 4 < count {
        return tally.malformed();
    }
    let middle = start + 4 * count;
    if left(stored, middle) < size {
        return tally.malformed();
    }
    let end = middle + size;
    decode(&stored[start..middle], words);
    let begun = tally.moved_to(end).with_table();
    compare_answers(
        rt,
        stored,
        begun,
        layouts,
        &words[..count],
        &stored[middle..end],
        work,
        sums,
        out,
        bytes,
    )
}
