// An answer as C has it: a number, 0 for success, and the lengths written, in elements of each output slice; a refusal's lengths are 0.
ghost use Rattle.std.specs.Prelude.{◌≡◌};
ghost use Rattle.answers.specs.Left.{refusal, success, refusal_two, success_two};
ghost use Rattle.answers.specs.Refused.{written_of, written_two_of};

use crate::refusals::Refusal;

#[derive(Clone, Copy)]
pub struct Written {
    pub number: u32,
    pub length: usize,
}

// The answer of an operation with two outputs.
#[derive(Clone, Copy)]
pub struct WrittenTwo {
    pub number: u32,
    pub first: usize,
    pub second: usize,
}

// What an operation with two outputs wrote of each.
#[derive(Clone, Copy, Debug, PartialEq, Eq)]
pub struct Lengths {
    pub first: usize,
    pub second: usize,
}

pub fn refused(number: u32) -> Written
    ensures { result ≡ refusal number }
{
    Written { number, length: 0 }
}

pub fn done(length: usize) -> Written
    ensures { result ≡ success length }
{
    Written { number: 0, length }
}

pub fn refused_both(number: u32) -> WrittenTwo
    ensures { result ≡ refusal_two number }
{
    WrittenTwo {
        number,
        first: 0,
        second: 0,
    }
}

pub fn done_both(first: usize, second: usize) -> WrittenTwo
    ensures { result ≡ success_two first second }
{
    WrittenTwo {
        number: 0,
        first,
        second,
    }
}

impl From<Result<usize, Refusal>> for Written {
    ghost from_gives = { λ answer written. written ≡ written_of answer };

    fn from(answer: Result<usize, Refusal>) -> Self {
        match answer {
            Ok(length) => done(length),
            Err(refusal) => refused(refusal.number()),
        }
    }
}

impl From<Result<Lengths, Refusal>> for WrittenTwo {
    ghost from_gives = { λ answer written. written ≡ written_two_of answer };

    fn from(answer: Result<Lengths, Refusal>) -> Self {
        match answer {
            Ok(lengths) => done_both(lengths.first, lengths.second),
            Err(refusal) => refused_both(refusal.number()),
        }
    }
}
