//! Scripts: commands in numbered lines, each of a session.
ghost use Rattle.std.specs.Prelude.{◌≡◌};
ghost use Rattle.script_text.specs.Scripts.{IsScript};

use edit_rules::Edit;
use std::marker::Model;
use units::Name;

/// What a line of a script asks for.
#[derive(Debug, Drop, PartialEq)]
pub enum Command {
    /// Edits the diagram.
    Edit(Edit),
    /// Takes the last edit that stands back.
    Undo,
    /// Lays the diagram out, once.
    Layout,
    /// Asks where the item of this name stands.
    Where(Name),
}

/// A command line of a script.
#[derive(Debug, Drop, PartialEq)]
pub struct Line {
    /// The number of the line in the script: the first command line has number 2.
    pub number: u32,
    /// The session that plays the line: 1 to 8.
    pub session: u8,
    pub command: Command,
}

/// A script: its command lines, in order. Its type keeps that it is one: at most 2,000 lines, numbered 2, 3 and
/// so on without a gap, of sessions 1 to 8, of commands with names that are names, numbers of at most 9 digits, and texts
/// of at most 2,048 bytes. Contracts see the list of lines.
#[derive(Drop)]
pub struct Script {
    lines: Vec<Line>,
}

impl Model for Script {
    ghost use Rattle.std.specs.Prelude.{List};
    ghost use Rattle.script_text.specs.declared.scripts.Line.{Line};
    ghost use Rattle.script_text.specs.Scripts.{IsScript};

    ghost Value = { List Line };

    ghost view = { λ a. a.lines.items };

    ghost invariant = { λ a. IsScript a.lines.items };
}

impl Script {
    /// The script with these lines, which are those of a script; `read` is the test of bytes, and makes one of them.
    pub fn of(lines: Vec<Line>) -> Script
        requires { IsScript lines.items }
        ensures { result ≡ lines.items }
    {
        Script { lines }
    }

    /// The command lines, in order.
    pub fn lines(&self) -> &[Line]
        ensures value { result.now ≡ self.now }
        ensures kept { IsScript self.now }
    {
        &self.lines
    }
}
