// Decoding (document 01, "Reading back"): a label list and letters, read into a step list.
#![tactic(auto)]

mod answer; // answer.rt: refusals 17 and 15, and the steps
mod labels; // labels.rt: refusal 16
mod reading; // reading.rt: the letters, one by one
mod steps; // steps.rt: the steps that numbers name, and their words

ghost use Rattle.std.specs.Prelude.{[], ◌≡◌};
ghost use Rattle.answers.specs.Refused.{answer_number, answer_length};
ghost use Rattle.defs.specs.Outcome.{answer_one};
ghost use Rattle.defs.specs.Decode.{decode_outcome};

use answer::write_steps;
use answers::Refusal;
use labels::list_wrong;
use table::header::read_header;
use table::sections::statement_section;
use table_check::check;
use theorem::hypotheses::{mixed, theorem_list};

// Tests 1 to 7, 10, 16, 17, 15. A refusal changes nothing, and success leaves the output past its end unchanged.
pub fn decode(
    words: &[u32],
    labels: &[u8],
    list: &[u32],
    letters: &[u8],
    out: &mut [u32],
) -> Result<usize, Refusal>
    ensures { answer_one (answer_number result) (answer_length result) [] out.new
        ≡ decode_outcome words.now labels.now list.now letters.now out.old }
{
    check(words, labels)?;
    let hypotheses = theorem_list(words);
    if mixed(statement_section(words), hypotheses) {
        return Err(Refusal::Mixed);
    }
    if list_wrong(read_header(words).statements, hypotheses, list) {
        return Err(Refusal::BadList);
    }
    write_steps(hypotheses, list, letters, out)
}
