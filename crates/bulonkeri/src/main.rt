// The program `bulonkeri COMMAND FILE ..`: reads a table file and prints what an operation of the library answers.
// Its exit status is 0 always, and the first word of its output says which it was: done, differ, refused, too (large), error, or usage.
#![tactic(auto)]

mod arguments; // arguments.rt: the program's arguments
mod asked; // asked.rt: which command is asked for
mod checking; // checking.rt: the command check
mod clean; // clean.rt: the command clean
mod distances; // distances.rt: the command distances
mod errors; // errors.rt: lines that say why nothing was answered
mod layouts; // layouts.rt: a layout as three arguments
mod limits; // limits.rt: the sizes of the program's arrays
mod list; // list.rt: the command list
mod numbers; // numbers.rt: numbers as decimals, printed and read
mod parents; // parents.rt: the command parents
mod printing; // printing.rt: bytes printed
mod reading; // reading.rt: a table file read
mod refusals; // refusals.rt: document 01's reasons in words
mod rows; // rows.rt: rows of numbers printed
mod spelling; // spelling.rt: the command letters
mod texting; // texting.rt: the command text
mod usage; // usage.rt: how the program is called
mod verifying; // verifying.rt: the command verify
mod writing; // writing.rt: a table file written

use asked::Command;
use limits::{LABEL_BYTES, TABLE_WORDS};
use std::env::Env;
use std::fs::Files;

fn answer(
    rt: &(impl Env + Files + Print + Eprint),
    command: Command,
    words: &[u32],
    labels: &[u8],
) {
    match command {
        Command::Check => checking::run(rt, words, labels),
        Command::Parents => parents::run(rt, words, labels),
        Command::Distances => distances::run(rt, words, labels),
        Command::List(kind) => list::run(rt, words, labels, kind),
        Command::Letters(layout) => spelling::run(rt, words, labels, layout),
        Command::Text(form) => texting::run(rt, words, labels, form),
        Command::Verify(layout) => verifying::run(rt, words, labels, layout),
        Command::Clean => clean::run(rt, words, labels),
    }
}

fn load_and_answer(
    rt: &(impl Env + Files + Print + Eprint),
    command: Command,
    words: &mut [u32],
    labels: &mut [u8],
) {
    if let Some(loaded) = reading::load(rt, words, labels) {
        answer(
            rt,
            command,
            &words[..loaded.words],
            &labels[..loaded.labels],
        );
    }
}

// There is no heap: a table stands in two arrays.
fn run(rt: &(impl Env + Files + Print + Eprint), command: Command) {
    let mut words = [0u32; TABLE_WORDS];
    let mut labels = [0u8; LABEL_BYTES];
    load_and_answer(rt, command, &mut words, &mut labels);
}

fn main(rt: HostRuntime) {
    match asked::read_command(&rt) {
        Ok(command) => run(&rt, command),
        Err(misuse) => usage::misused(&rt, misuse),
    }
}
