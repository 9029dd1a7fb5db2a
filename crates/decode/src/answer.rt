// The last two tests and the answer: the letters are read twice, first with an empty slice.
// So 17 is known, and whether all steps fit, before the first word is written.
ghost use Rattle.std.specs.Prelude.{[], ◌≡◌};
ghost use Rattle.answers.specs.Refused.{answer_number, answer_length};
ghost use Rattle.defs.specs.Outcome.{answer_one};
ghost use Rattle.defs.specs.Decode.{all_letters};
ghost use Rattle.decode.specs.Decoding.{Short, beginning};
ghost use Rattle.decode.specs.Answer.{letters_outcome};

use crate::reading::all_letters;
use answers::Refusal;
use table::limits::STEP_WORDS;

pub fn write_steps(
    hypotheses: &[u32],
    list: &[u32],
    letters: &[u8],
    out: &mut [u32],
) -> Result<usize, Refusal>
    requires { Short hypotheses.now list.now }
    ensures { answer_one (answer_number result) (answer_length result) [] out.new
        ≡ letters_outcome (all_letters hypotheses.now list.now letters.now beginning) out.old }
{
    let measured = all_letters(hypotheses, list, letters, &mut out[..0]);
    let steps = measured.ok_or(Refusal::BadLetters)?;
    if out.len() / STEP_WORDS < steps {
        return Err(Refusal::ShortOutput);
    }
    all_letters(hypotheses, list, letters, out);
    Ok(STEP_WORDS * steps)
}
