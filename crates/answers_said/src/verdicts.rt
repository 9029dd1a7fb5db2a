// What comparing the three ways came to.
ghost use Rattle.std.specs.Prelude.{◌≡◌, ◌≤◌, ◌||◌, eqb};
ghost use Rattle.laws.specs.Puts.{Grows};
ghost use Rattle.answers_said.specs.Lines.{Said};
ghost use Rattle.answers_said.specs.Verdicts.{stage_line, room_line, refused_lines, verdict_lines};

use crate::lines::LINE_BYTES;
use crate::refusals::put_refusal;
use layout::bytes::put_piece;
use verify::{Stage, Verdict};

// What the stage gave.
#[tactic(auto, unfolding(crate::specs::Verdicts::stage_line, crate::specs::Bytes::bytes))]
fn stage_said(stage: Stage) -> &'static [u8]
    ensures { result.now ≡ stage_line stage }
{
    match stage {
        Stage::PackedList => b"the packed list, written\n",
        Stage::PackedRead => b"the packed list, read back\n",
        Stage::NormalList => b"the normal list, written\n",
        Stage::NormalRead => b"the normal list, read back\n",
        Stage::Letters => b"the letters, written\n",
        Stage::Decoded => b"the letters, decoded\n",
        Stage::LettersRead => b"the decoded letters, read back\n",
    }
}

// Which of the slices lent is too short.
#[tactic(auto, unfolding(crate::specs::Verdicts::room_line, crate::specs::Bytes::bytes))]
fn room_said(stage: Stage) -> &'static [u8]
    ensures { result.now ≡ room_line stage }
{
    match stage {
        Stage::PackedList => b"the packed list has more steps than 9600\n",
        Stage::PackedRead => b"the packed list does not fit when it is read back\n",
        Stage::NormalList => b"the normal list has more steps than 100000\n",
        Stage::NormalRead => b"the normal list does not fit when it is read back\n",
        Stage::Letters => b"statements plus 1, times width plus 1, are more than 196608\n",
        Stage::Decoded => b"the decoded letters do not fit\n",
        Stage::LettersRead => b"the decoded letters do not fit when they are read back\n",
    }
}

// 14 and 15 speak of the slices lent.
fn is_short(number: u32) -> bool
    ensures { result ≡ (eqb number 14 || eqb number 15) }
{
    number == 14 || number == 15
}

// The slices lent are the program's own arrays.
// As it is: (a) verdict_said and refused_said promise lines for every number, also for one that no refusal has.
fn put_refused(stage: Stage, number: u32, out: &mut [u8]) -> usize
    ensures grows { Grows (refused_lines stage number) 0 result out.old out.new }
    ensures upper_bound { result ≤ 200 }
{
    if is_short(number) {
        let begun = put_piece(b"too large: ", 0, out);
        return put_piece(room_said(stage), begun, out);
    }
    let refused = put_refusal(number, out);
    let named = put_piece(b"stage: ", refused, out);
    put_piece(stage_said(stage), named, out)
}

// Puts the lines of a verdict at the front where they fit, and answers how many bytes they are.
fn put_verdict(verdict: Verdict, out: &mut [u8]) -> usize
    ensures grows { Grows (verdict_lines verdict) 0 result out.old out.new }
    ensures upper_bound { result ≤ 200 }
{
    match verdict {
        Verdict::Agree => put_piece(
            b"done: normal list, packed list and letters are read back as the same entries\n",
            0,
            out,
        ),
        Verdict::Refused(stage, number) => put_refused(stage, number, out),
        Verdict::Differ(stage) => {
            let begun = put_piece(b"differ: ", 0, out);
            put_piece(stage_said(stage), begun, out)
        }
    }
}

// A refusal is said by its number, whichever it is: the caller may have made the verdict itself.
pub fn verdict_said(verdict: Verdict, line: &mut [u8; LINE_BYTES]) -> usize
    ensures { Said (verdict_lines verdict) result line.new }
{
    put_verdict(verdict, line)
}

// That the operation of a stage refused, by the number of its refusal.
pub fn refused_said(stage: Stage, number: u32, line: &mut [u8; LINE_BYTES]) -> usize
    ensures { Said (refused_lines stage number) result line.new }
{
    put_refused(stage, number, line)
}
