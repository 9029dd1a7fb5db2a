// Which command is asked for.
use crate::arguments::{argument_count, read_argument};
use crate::list::ListKind;
use crate::texting::TextForm;
use crate::{list, spelling, texting, verifying};
use layout::Layout;
use std::env::Env;

#[derive(Clone, Copy, Debug, PartialEq, Eq)]
pub enum Command {
    Check,
    Parents,
    Distances,
    List(ListKind),
    Letters(Layout),
    Text(TextForm),
    Verify(Layout),
    Clean,
}

// What the first argument says.
#[derive(Clone, Copy, Debug, PartialEq, Eq)]
enum Name {
    Check,
    Parents,
    Distances,
    List,
    Letters,
    Text,
    Verify,
    Clean,
}

// Why nothing is done: no command is named, or what is said is not of this form.
#[derive(Clone, Copy)]
pub enum Misuse {
    NoCommand,
    Expected(&'static [u8]),
}

// Any of the commands.
const COMMANDS: &[u8] = b"check, parents, distances, list, letters, text, verify or clean";

// A command that takes so many arguments; the program's name and the command's are counted too.
fn with_arguments(
    rt: &impl Env,
    count: usize,
    command: Command,
    form: &'static [u8],
) -> Result<Command, Misuse> {
    if argument_count(rt) != count {
        return Err(Misuse::Expected(form));
    }
    Ok(command)
}

fn name_in(name: &[u8]) -> Option<Name> {
    match name {
        b"check" => Some(Name::Check),
        b"parents" => Some(Name::Parents),
        b"distances" => Some(Name::Distances),
        b"list" => Some(Name::List),
        b"letters" => Some(Name::Letters),
        b"text" => Some(Name::Text),
        b"verify" => Some(Name::Verify),
        b"clean" => Some(Name::Clean),
        _ => None,
    }
}

fn command_named(rt: &impl Env, name: Name) -> Result<Command, Misuse> {
    match name {
        Name::Check => with_arguments(rt, 3, Command::Check, b"check FILE"),
        Name::Parents => with_arguments(rt, 3, Command::Parents, b"parents FILE"),
        Name::Distances => with_arguments(rt, 3, Command::Distances, b"distances FILE"),
        Name::List => list::read_command(rt),
        Name::Letters => spelling::read_command(rt),
        Name::Text => texting::read_command(rt),
        Name::Verify => verifying::read_command(rt),
        Name::Clean => with_arguments(rt, 4, Command::Clean, b"clean FILE NEWFILE"),
    }
}

pub fn read_command(rt: &impl Env) -> Result<Command, Misuse> {
    if argument_count(rt) < 2 {
        return Err(Misuse::NoCommand);
    }
    match read_argument(rt, 1, name_in) {
        Some(name) => command_named(rt, name),
        None => Err(Misuse::Expected(COMMANDS)),
    }
}
