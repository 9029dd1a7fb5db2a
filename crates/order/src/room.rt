// The u16 working slice of document 01.
ghost use Rattle.std.specs.Prelude.{◌≡◌, false};
ghost use Rattle.defs.specs.Checked.{HeaderOk};
ghost use Rattle.defs.specs.Layout.{bad8};
ghost use Rattle.defs.specs.Refusals.{need16};
ghost use Rattle.layout.specs.Layouts.{layout_of};

use layout::Layout;

// For label order also u16: (s+1)×(W+1).
pub fn working_sums(words: &[u32], layout: Layout) -> usize
    requires header_ok { HeaderOk words.now }
    requires layout_value { bad8 (layout_of layout) ≡ false }
    ensures { result ≡ need16 words.now (layout_of layout) }
{
    (words[0] as usize + 1) * (layout.line_room() + 1)
}
