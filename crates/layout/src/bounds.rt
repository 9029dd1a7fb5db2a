// Line width, indent and first position (document 01, "Styles and layout").
ghost use Rattle.std.specs.Prelude.{◌≡◌, false, ◌-◌};
ghost use Rattle.defs.specs.Layout.{bad8, line_room, standard};
ghost use Rattle.layout.specs.Layouts.{layout_of};

#[derive(Clone, Copy, Debug, PartialEq, Eq)]
pub struct Layout {
    pub width: u32,
    pub indent: u32,
    pub first: u32,
}

impl Layout {
    // Default width 79, indent 6, first position 0.
    pub const WIDTH: u32 = 79;

    pub const INDENT: u32 = 6;

    pub const FIRST: u32 = 0;

    // The widest line that may be asked for.
    pub const MAX_WIDTH: u32 = 255;

    pub fn standard() -> Self
        ensures { layout_of result ≡ standard }
    {
        Self {
            width: Self::WIDTH,
            indent: Self::INDENT,
            first: Self::FIRST,
        }
    }

    // Bounds: width at most 255, indent at least 1 and at most width − 2, first position below indent. An indent above a
    // first position is at least 1. The width is tested before 2 is taken from it, so that nothing wraps.
    pub fn is_bad(self) -> bool
        ensures { result ≡ bad8 (layout_of self) }
    {
        Self::MAX_WIDTH < self.width
            || self.width < 2
            || self.width - 2 < self.indent
            || self.indent <= self.first
    }

    // W = line width − indent + 1.
    pub fn line_room(self) -> usize
        requires { bad8 (layout_of self) ≡ false }
        ensures { result ≡ line_room (layout_of self) }
    {
        (self.width - self.indent + 1) as usize
    }

    // What is left of the line from a position on: nothing at the width and past it.
    pub fn left(self, at: usize) -> usize
        ensures { result ≡ self.width - at }
    {
        (self.width as usize).saturating_sub(at)
    }
}
