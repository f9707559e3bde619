//! The commands of the program, with their words and their help.

ghost use Rattle.std.specs.Prelude.{◌≡◌, [], IfOk, map};
ghost use Rattle.clap.specs.Words.{app_of, new_app, rule_of, shape_of};
ghost use Rattle.protoref_arguments.specs.Program.{bare, program, rule_of_row, shape_of_words};

use crate::help;
use clap::{Arg, ArgAction, Command};
use proto_base::NoMemory;
use std::alloc::Global;

/// An argument of a command, by its identifier and its help.
enum Argument {
    /// One word, which has to stand there.
    One(&'static str, &'static str),
    /// Any number of words.
    Many(&'static str, &'static str),
}

/// A command: its name, what it does, what stands below its help, and its arguments in their order.
struct Words {
    name: &'static str,
    about: &'static str,
    below: &'static str,
    arguments: &'static [Argument],
}

const ROOT: Argument = Argument::One("ROOT", "The folder of the schemas");

const FILE: Argument = Argument::One("FILE", "The path of the schema below the folder");

const COMMANDS: &[Words] = &[
    Words {
        name: "compile",
        about: "Prints the descriptors of the schemas as JSON",
        below: help::COMPILE,
        arguments: &[ROOT],
    },
    Words {
        name: "lint",
        about: "Prints what lint rules find in the schemas",
        below: help::LINT,
        arguments: &[
            ROOT,
            Argument::Many("RULE", "The rules that are asked; all, where none is named"),
        ],
    },
    Words {
        name: "rename",
        about: "Gives a symbol a new simple name, where it is declared and in each reference",
        below: help::RENAME,
        arguments: &[
            ROOT,
            Argument::One("NAME", "The full name of a symbol, without a dot before it"),
            Argument::One("TO", "The new simple name"),
        ],
    },
    Words {
        name: "delete-field",
        about: "Deletes a field, and reserves its number and name",
        below: help::DELETE_FIELD,
        arguments: &[
            ROOT,
            Argument::One("NAME", "The full name of a field, without a dot before it"),
        ],
    },
    Words {
        name: "add-import",
        about: "Adds an import to a schema",
        below: help::ADD_IMPORT,
        arguments: &[
            ROOT,
            FILE,
            Argument::One("PATH", "The path of the schema that it is to import"),
        ],
    },
    Words {
        name: "drop-import",
        about: "Takes an import out of a schema",
        below: help::DROP_IMPORT,
        arguments: &[
            ROOT,
            FILE,
            Argument::One("PATH", "The path that it is to import no longer"),
        ],
    },
    Words {
        name: "undo",
        about: "Undoes the last entry of the journal",
        below: help::UNDO,
        arguments: &[ROOT],
    },
    Words {
        name: "log",
        about: "Prints the entries of the journal, with the files that each of them changed, and its edit",
        below: help::LOG,
        arguments: &[ROOT],
    },
    Words {
        name: "recover",
        about: "Rolls the files of an open entry back, which an edit or an undo that was cut off has left",
        below: help::RECOVER,
        arguments: &[ROOT],
    },
    Words {
        name: "migrate",
        about: "Writes a journal of the first version anew in the second, as each edit does",
        below: help::MIGRATE,
        arguments: &[ROOT],
    },
];

/// The program, with all its commands.
pub(crate) fn program<'a>(alloc: Global) -> Result<Command<'a>, NoMemory>
    ensures { IfOk result (λ c. app_of c ≡ program) }
{
    let commands = commands_of(alloc, COMMANDS)?;
    let alone = program_alone(alloc)?;
    Ok(alone.subcommands(commands)?)
}

// The program, with no command yet. Usage has its own name, since another word may stand first.
fn program_alone<'a>(alloc: Global) -> Result<Command<'a>, NoMemory>
    ensures { IfOk result (λ c. app_of c ≡ record { top = bare; subs = [] }) }
{
    let alone = Command::new(alloc, "protoref")
        .about("Compiles, lints and edits Protocol Buffers schemas")
        .after_help(help::PROGRAM)
        .disable_help_subcommand(true)
        .subcommand_required(true);
    Ok(alone.bin_name("protoref")?)
}

// The commands of a table.
fn commands_of<'a>(alloc: Global, table: &[Words]) -> Result<Vec<Command<'a>>, NoMemory>
    ensures { IfOk result (λ v. map shape_of v.items ≡ map shape_of_words table.now) }
{
    let mut commands = Vec::new(alloc);
    for words in table {
        commands.push(command_of(alloc, words)?)?;
    }
    Ok(commands)
}

fn command_of<'a>(alloc: Global, words: &Words) -> Result<Command<'a>, NoMemory>
    ensures { IfOk result (λ c. shape_of c ≡ shape_of_words words.now) }
{
    let arguments = arguments_of(alloc, words.arguments)?;
    Ok(command_alone(alloc, words).args(arguments)?)
}

// The command, with no argument yet.
fn command_alone<'a>(alloc: Global, words: &Words) -> Command<'a>
    ensures { app_of result ≡ new_app words.now.name.now }
{
    Command::new(alloc, words.name)
        .about(words.about)
        .after_help(words.below)
}

fn arguments_of<'a>(alloc: Global, rows: &[Argument]) -> Result<Vec<Arg<'a>>, NoMemory>
    ensures { IfOk result (λ v. map rule_of v.items ≡ map rule_of_row rows.now) }
{
    let mut arguments = Vec::new(alloc);
    for argument in rows {
        arguments.push(argument_of(alloc, argument))?;
    }
    Ok(arguments)
}

fn argument_of<'a>(alloc: Global, argument: &Argument) -> Arg<'a>
    ensures { rule_of result ≡ rule_of_row argument.now }
{
    match argument {
        Argument::One(id, help) => Arg::new(alloc, id)
            .help(help)
            .required(true)
            .action(ArgAction::Set),
        Argument::Many(id, help) => Arg::new(alloc, id)
            .help(help)
            .num_args(0..)
            .action(ArgAction::Append),
    }
}
