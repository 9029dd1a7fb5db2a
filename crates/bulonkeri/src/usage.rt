// How the program is called, and how each command is.
use crate::asked::Misuse;
use crate::printing::print;

fn usage(rt: &(impl Print + Eprint)) {
    print(
        rt,
        b"usage: bulonkeri COMMAND FILE ..

  check FILE                           is it a good table?
  parents FILE                         how many parents each entry has
  distances FILE                       how far each entry is from QED; 65535 where it cannot be reached
  list FILE KIND                       a step list, normal, packed, explicit or packed-explicit: five numbers
                                       a step, reference, mark, statement, parent statement plus 1, hypothesis
  letters FILE [WIDTH INDENT FIRST]    the label list and the letters; without a layout 79 6 0
  text FILE [STYLE [WIDTH INDENT FIRST]]
                                       the text, compressed, normal, packed, explicit or packed-explicit, or the
                                       style's number; without a style compressed
  verify FILE [WIDTH INDENT FIRST]     are the normal list, the packed list and the letters read back as the same
                                       entries, and do the letters decode to the packed list?
  clean FILE NEWFILE                   the packed list, read back and written as a new table file

FILE is a table file: a count of words and that many words, all u32 little-endian, then the label bytes.
The first word printed says what came of it: done, differ (of verify), refused (with document 01's number and
its reason), too large (for the program's memory), error (in the arguments or with a file) or usage.

Limits: 262144 label bytes, normal lists of 65536 steps, texts of 393216 bytes; else those of document 01.
For verify: normal lists of 100000 steps, packed lists of 9600 steps, and statements plus 1 times width plus 1
up to 196608.
",
    );
}

// One line says what was expected.
fn expected(rt: &(impl Print + Eprint), form: &[u8]) {
    print(rt, b"error: expected ");
    print(rt, form);
    print(rt, b"\n");
}

pub fn misused(rt: &(impl Print + Eprint), misuse: Misuse) {
    match misuse {
        Misuse::NoCommand => usage(rt),
        Misuse::Expected(form) => expected(rt, form),
    }
}
