// The packed list of a table: tests 1 to 7, 14, 15.
ghost use Rattle.std.specs.Prelude.{◌≡◌, [], ◌∷◌, true};
ghost use Rattle.answers.specs.Refused.{answer_number, answer_length};
ghost use Rattle.defs.specs.Outcome.{answer_one, step_list_outcome};

use crate::ending::ended;
use answers::Refusal;
use packing::pack::pack;
use slices::copy::copy;
use table::header::read_header;
use table_check::check;
use walk::room::working_words;

// The steps are walked into the working slice, so that 15 is known before the output is touched.
pub fn packed_list(
    words: &[u32],
    labels: &[u8],
    explicit: bool,
    work: &mut [u32],
    out: &mut [u32],
) -> Result<usize, Refusal>
    ensures { answer_one (answer_number result) (answer_length result) (work.new ∷ []) out.new
        ≡ step_list_outcome words.now labels.now true explicit work.old out.old }
{
    check(words, labels)?;
    if work.len() < working_words(words) {
        return Err(Refusal::ShortWork);
    }
    let header = read_header(words);
    let end = pack(words, work, explicit, header.qed);
    let start = header.entries as usize + 1;
    let length = end - start;
    if out.len() < length {
        return ended(work, Err(Refusal::ShortOutput));
    }
    copy(&mut out[..length], &work[start..end]);
    ended(work, Ok(length))
}
