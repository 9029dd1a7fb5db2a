// Text printed. Where standard output takes no more, the rest is not printed: the program has no other place to say so.
use std::fmt::Display;

pub fn print(rt: &impl Print, text: impl Display + Drop) {
    let _ = rt.print(text);
}
