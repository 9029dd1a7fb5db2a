// A layout as three arguments: width, indent, first position.
ghost use Rattle.std.specs.Prelude.{◌<◌};

use crate::arguments::{argument_count, read_argument};
use crate::numbers::number_in;
use layout::Layout;
use std::env::Env;

// The layout of the three arguments from i on.
fn layout_arguments(rt: &impl Env, i: usize) -> Option<Layout>
    requires { i < 1000 }
{
    Some(Layout {
        width: read_argument(rt, i, number_in)?,
        indent: read_argument(rt, i + 1, number_in)?,
        first: read_argument(rt, i + 2, number_in)?,
    })
}

// The layout of all arguments from i on: the standard one where there are none.
pub fn layout_from(rt: &impl Env, i: usize) -> Option<Layout>
    requires { i < 1000 }
{
    let count = argument_count(rt);
    if count == i {
        return Some(Layout::standard());
    }
    if count != i + 3 {
        return None;
    }
    layout_arguments(rt, i)
}
