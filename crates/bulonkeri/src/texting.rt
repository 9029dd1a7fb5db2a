// The command text: the text of the table in one of the five styles.
ghost use Rattle.layout.specs.Layouts.{layout_of};
ghost use Rattle.answers_said.specs.Lines.{Said};
ghost use Rattle.answers_said.specs.Texts.{text_room, text_said};

use crate::arguments::{argument_count, read_argument};
use crate::asked::{Command, Misuse};
use crate::layouts::layout_from;
use crate::limits::{TEXT_ANSWER_BYTES, WORK_SUMS, WORK_WORDS};
use crate::numbers::number_in;
use crate::printing::print;
use answers_said::texts::text_said;
use layout::Layout;
use std::env::Env;

#[derive(Clone, Copy, Debug, PartialEq, Eq)]
pub struct TextForm {
    pub style: u32,
    pub layout: Layout,
}

// A style by its name or by its number; whether a style has the number, the library says.
fn style_in(name: &[u8]) -> Option<u32> {
    match name {
        b"compressed" => Some(0),
        b"normal" => Some(1),
        b"packed" => Some(2),
        b"explicit" => Some(3),
        b"packed-explicit" => Some(4),
        _ => number_in(name),
    }
}

// The style, if any, is the third argument, and the layout, if any, the arguments after it.
fn form_arguments(rt: &impl Env) -> Option<TextForm> {
    if argument_count(rt) == 3 {
        return Some(TextForm {
            style: 0,
            layout: Layout::standard(),
        });
    }
    Some(TextForm {
        style: read_argument(rt, 3, style_in)?,
        layout: layout_from(rt, 4)?,
    })
}

pub fn read_command(rt: &impl Env) -> Result<Command, Misuse> {
    match form_arguments(rt) {
        Some(form) => Ok(Command::Text(form)),
        None => Err(Misuse::Expected(
            b"text FILE [STYLE [WIDTH INDENT FIRST]], STYLE compressed|normal|packed|explicit|packed-explicit or its number",
        )),
    }
}

// What is printed: the text, or why there is none. Answers how many bytes it is.
fn answer(
    words: &[u32],
    labels: &[u8],
    form: TextForm,
    work: &mut [u32],
    sums: &mut [u16],
    out: &mut [u8; TEXT_ANSWER_BYTES],
) -> usize
    ensures { Said (text_said words.now labels.now form.style (layout_of form.layout)
        work.old sums.old (text_room out.old)) result out.new }
{
    text_said(words, labels, form.style, form.layout, work, sums, out)
}

fn show(
    rt: &(impl Print + Eprint),
    words: &[u32],
    labels: &[u8],
    form: TextForm,
    work: &mut [u32],
    sums: &mut [u16],
    out: &mut [u8; TEXT_ANSWER_BYTES],
) {
    let length = answer(words, labels, form, work, sums, out);
    print(rt, &out[..length]);
}

pub fn run(rt: &(impl Print + Eprint), words: &[u32], labels: &[u8], form: TextForm) {
    let mut work = [0u32; WORK_WORDS];
    let mut sums = [0u16; WORK_SUMS];
    let mut out = [0u8; TEXT_ANSWER_BYTES];
    show(rt, words, labels, form, &mut work, &mut sums, &mut out);
}
