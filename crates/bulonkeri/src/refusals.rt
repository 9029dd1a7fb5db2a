// A refusal: its number, and document 01's reason in words.
use crate::printing::print;
use answers::Refusal;
use answers_said::lines::LINE_BYTES;
use answers_said::refusals::refusal_said;

pub fn refused(rt: &(impl Print + Eprint), refusal: Refusal) {
    let mut line = [0u8; LINE_BYTES];
    let length = refusal_said(refusal.number(), &mut line);
    print(rt, &line[..length]);
}
