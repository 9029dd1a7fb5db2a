// The letters of the steps, each cut to the lines as soon as it is made.
ghost use Rattle.std.specs.Prelude.{◌≡◌, false};
ghost use Rattle.defs.specs.Layout.{bad8};
ghost use Rattle.layout.specs.Layouts.{layout_of};
ghost use Rattle.lettering.specs.Said.{StepReady, ListReady};
ghost use Rattle.compressed.specs.Stepped.{NearSteps, StepLaid, StepsLaid};

use crate::places::Places;
use layout::cuts::put_letters;
use layout::{Layout, Line};
use lettering::MOST_LETTERS;
use table::limits::STEP_WORDS;

// The letters of the step at `at`.
fn put_step(
    layout: Layout,
    line: Line,
    work: &[u32],
    at: usize,
    places: Places,
    out: &mut [u8],
) -> Line
    requires layout_value { bad8 (layout_of layout) ≡ false }
    requires near_steps { NearSteps 1 line × StepReady at places.numbers places.both work.now }
    ensures { StepLaid (layout_of layout) at places.numbers places.both line result work.now out.old out.new }
{
    let mut letters = [0u8; MOST_LETTERS];
    let end = lettering::put_step(work, at, places.numbers, places.both, 0, &mut letters);
    put_letters(layout, line, &letters[..end], out)
}

// Those of all steps.
pub fn put_steps(layout: Layout, line: Line, work: &[u32], places: Places, out: &mut [u8]) -> Line
    requires layout_value { bad8 (layout_of layout) ≡ false }
    requires near_steps { NearSteps places.many line × ListReady places.steps places.many places.numbers places.both work.now }
    ensures { StepsLaid (layout_of layout) places line result work.now out.old out.new }
{
    let mut laid = line;
    for i in 0..places.many {
        laid = put_step(
            layout,
            laid,
            work,
            places.steps + STEP_WORDS * i,
            places,
            out,
        );
    }
    laid
}
