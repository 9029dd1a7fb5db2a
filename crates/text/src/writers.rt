// The text of one style, once the table, the layout, the style and the working slices are tested. Each measures with an empty slice, tests
// 15, then writes: a refusal leaves the output as it was.
ghost use Rattle.std.specs.Prelude.{◌≡◌, true, false, length};
ghost use Rattle.defs.specs.Text.{is_compressed, is_packed};
ghost use Rattle.defs.specs.Refusals.{bad13};
ghost use Rattle.layout.specs.Layouts.{layout_of};
ghost use Rattle.answers.specs.Refused.{answer_number, answer_length};
ghost use Rattle.order.specs.Arrangement.{Listable};
ghost use Rattle.text.specs.Styles.{number_of};
ghost use Rattle.text.specs.Late.{Writable, WritableSums, WroteText};

use crate::style::Style;
use answers::Refusal;
use compressed::places::Places;
use compressed::text::compressed_text;
use layout::Layout;
use lists::normal::{MAX_NORMAL_STEPS, count_steps};
use order::arrange;
use steptexts::named::pack_named;
use steptexts::normal::normal_text;
use steptexts::packed::packed_text;
use table::header::read_header;
use table::sections::{child_section, entry_section, statement_section};

// As it is: (d) of the writers below three measure, test 15 and write; one function lent them as a closure would state their contracts again.
// Style 0: tests 10 to 12 and 15.
fn write_compressed(
    words: &[u32],
    labels: &[u8],
    layout: Layout,
    work: &mut [u32],
    sums: &mut [u16],
    out: &mut [u8],
) -> Result<usize, Refusal>
    requires writable { Writable words.now labels.now (layout_of layout) (length work.old) }
    requires writable_sums { WritableSums words.now (layout_of layout) (length sums.old) }
    ensures { WroteText words.now labels.now 0 (layout_of layout) (answer_number result) (answer_length result) out.old out.new }
{
    let arranged = arrange(words, layout, work, sums)?;
    let places = Places {
        list: arranged.labels,
        listed: arranged.listed,
        steps: arranged.start,
        many: arranged.steps,
        numbers: arranged.numbers,
        both: arranged.both,
    };
    let statements = statement_section(words);
    let length = compressed_text(layout, statements, labels, &work[..], places, &mut out[..0]);
    if out.len() < length {
        return Err(Refusal::ShortOutput);
    }
    compressed_text(layout, statements, labels, &work[..], places, out);
    Ok(length)
}

// Styles 2 and 4: test 15.
fn write_packed(
    words: &[u32],
    labels: &[u8],
    style: Style,
    layout: Layout,
    work: &mut [u32],
    out: &mut [u8],
) -> Result<usize, Refusal>
    requires writable { Writable words.now labels.now (layout_of layout) (length work.old) }
    requires style_value { (is_compressed (number_of style) ≡ false) × (is_packed (number_of style) ≡ true) }
    ensures { WroteText words.now labels.now (number_of style) (layout_of layout) (answer_number result) (answer_length result) out.old out.new }
{
    let explicit = style.explicit();
    let places = pack_named(words, labels, explicit, work);
    let length = packed_text(
        words,
        labels,
        layout,
        explicit,
        &work[..],
        places,
        &mut out[..0],
    );
    if out.len() < length {
        return Err(Refusal::ShortOutput);
    }
    packed_text(words, labels, layout, explicit, &work[..], places, out);
    Ok(length)
}

// 13: more than 1,000,000 normal steps. They are counted in the working slice, before anything walks.
fn has_many_steps(words: &[u32], work: &mut [u32]) -> bool
    requires { Listable words.now (length work.old) }
    ensures { result ≡ bad13 words.now }
{
    let header = read_header(words);
    let entries = entry_section(words);
    let children = child_section(words);
    let steps = count_steps(entries, children, header.entries as usize, header.qed, work);
    MAX_NORMAL_STEPS < steps
}

// Styles 1 and 3: tests 13 and 15.
fn write_normal(
    words: &[u32],
    labels: &[u8],
    style: Style,
    layout: Layout,
    work: &mut [u32],
    out: &mut [u8],
) -> Result<usize, Refusal>
    requires writable { Writable words.now labels.now (layout_of layout) (length work.old) }
    requires style_value { (is_compressed (number_of style) ≡ false) × (is_packed (number_of style) ≡ false) }
    ensures { WroteText words.now labels.now (number_of style) (layout_of layout) (answer_number result) (answer_length result) out.old out.new }
{
    if has_many_steps(words, work) {
        return Err(Refusal::ManySteps);
    }
    let explicit = style.explicit();
    let length = normal_text(words, labels, layout, explicit, work, &mut out[..0]);
    if out.len() < length {
        return Err(Refusal::ShortOutput);
    }
    normal_text(words, labels, layout, explicit, work, out);
    Ok(length)
}

// The text of any style.
pub fn write_text(
    words: &[u32],
    labels: &[u8],
    style: Style,
    layout: Layout,
    work: &mut [u32],
    sums: &mut [u16],
    out: &mut [u8],
) -> Result<usize, Refusal>
    requires writable { Writable words.now labels.now (layout_of layout) (length work.old) }
    requires writable_sums { is_compressed (number_of style) ≡ true → WritableSums words.now (layout_of layout) (length sums.old) }
    ensures { WroteText words.now labels.now (number_of style) (layout_of layout) (answer_number result) (answer_length result) out.old out.new }
{
    if style.compressed() {
        return write_compressed(words, labels, layout, work, sums, out);
    }
    if style.packed() {
        return write_packed(words, labels, style, layout, work, out);
    }
    write_normal(words, labels, style, layout, work, out)
}
