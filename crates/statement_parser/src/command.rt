//! The words that lines begin with, but for names.

ghost use Rattle.std.specs.Prelude.{◌≡◌, find, bytes_eq};
ghost use Rattle.statement_parser.specs.Commands.{command_text, has_command, find_command, command_named as command_of_name};
ghost use Rattle.statement_parser.specs.Views.{manner_of};

use crate::rows::Rows;

/// A line that begins with a word of its own.
#[derive(Clone, Copy, Debug, PartialEq, Eq)]
pub enum Command {
    Model,
    Procedure,
    Paint,
    New,
    Drop,
    Label,
    Symbol,
    Undo,
    Branch,
    Value,
    Grid,
    Show,
    Legend,
    Table,
    Stamps,
    List,
    Quit,
}

/// All commands.
const COMMANDS: [Command; 17] = [
    Command::Model,
    Command::Procedure,
    Command::Paint,
    Command::New,
    Command::Drop,
    Command::Label,
    Command::Symbol,
    Command::Undo,
    Command::Branch,
    Command::Value,
    Command::Grid,
    Command::Show,
    Command::Legend,
    Command::Table,
    Command::Stamps,
    Command::List,
    Command::Quit,
];

/// The word of a command.
fn command_word(command: Command) -> &'static [u8]
    ensures { result.now ≡ command_text command }
{
    match command {
        Command::Model => b"model",
        Command::Procedure => b"procedure",
        Command::Paint => b"paint",
        Command::New => b"new",
        Command::Drop => b"drop",
        Command::Label => b"label",
        Command::Symbol => b"symbol",
        Command::Undo => b"undo",
        Command::Branch => b"branch",
        Command::Value => b"value",
        Command::Grid => b"grid",
        Command::Show => b"show",
        Command::Legend => b"legend",
        Command::Table => b"table",
        Command::Stamps => b"stamps",
        Command::List => b"list",
        Command::Quit => b"quit",
    }
}

/// The first of these commands that has this word.
fn named_among(commands: &[Command], word: &[u8]) -> Option<Command>
    ensures { result ≡ find (λ c. bytes_eq (command_text c) word.now) commands.now }
{
    commands
        .iter()
        .copied()
        .find(|command| command_word(*command) == word)
}

/// The command of a word, whether it is there or not.
#[tactic(auto, unfolding(crate::specs::Commands::find_command))]
fn known_command(word: &[u8]) -> Option<Command>
    ensures { result ≡ find_command word.now }
{
    named_among(&COMMANDS, word)
}

/// Whether one of these commands has this word.
fn is_among(commands: &[Command], word: &[u8]) -> bool
    ensures { result ≡ has_command commands.now word.now }
{
    commands
        .iter()
        .any(|command| command_word(*command) == word)
}

/// The command of a word, where it is there.
#[tactic(auto, unfolding(crate::specs::Commands::command_named))]
pub fn command_named(rows: &Rows<'_>, word: &[u8]) -> Option<Command>
    ensures { result ≡ command_of_name (manner_of rows.now) word.now }
{
    if !is_among(rows.commands, word) {
        return None;
    }
    known_command(word)
}
