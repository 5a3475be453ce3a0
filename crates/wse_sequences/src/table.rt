// What standard input asks for.
ghost use Rattle.wse_uri.specs.FileUrl.{IsPlainFileUrl};

use crate::limits::limits_in;
use std::alloc::Global;
use url::Url;
use wse_json::read_command;
use wse_path::{Command, Limits, Memory};
use wse_uri::root_of;

/// A named sequence of commands over an empty tree.
#[derive(Drop)]
pub struct Row {
    /// The line that begins it.
    pub name: String,
    pub limits: Limits,
    pub commands: Vec<Command>,
}

/// The commands that come first, those of which sequences are made, and rows.
#[derive(Drop)]
pub struct Table {
    pub first: Vec<Command>,
    pub commands: Vec<Command>,
    pub rows: Vec<Row>,
}

/// Why there is no table.
#[derive(Drop)]
pub enum TableRefused {
    /// The line, counted from 1, is no command.
    Line { number: usize },
    /// There was no memory.
    Memory,
}

impl From<Memory> for TableRefused {
    fn from(_: Memory) -> TableRefused {
        TableRefused::Memory
    }
}

/// Where a command belongs.
#[derive(Clone, Copy)]
enum Part {
    First,
    Commands,
    Rows,
}

impl Table {
    fn add_row(&mut self, alloc: Global, line: &[u8]) -> Result<(), Memory> {
        let header = std::str::from_utf8(line).unwrap_or("#");
        let row = Row {
            name: String::from_str(alloc, header)?,
            limits: limits_in(header),
            commands: Vec::new(alloc),
        };
        self.rows.push(row)?;
        Ok(())
    }

    fn add(&mut self, part: Part, command: Command) -> Result<(), Memory> {
        match part {
            Part::First => self.first.push(command)?,
            Part::Commands => self.commands.push(command)?,
            Part::Rows => {
                if let Some(row) = self.rows.last_mut() {
                    row.commands.push(command)?;
                }
            }
        }
        Ok(())
    }

    /// Adds what the line says: that a row begins, that the commands of the sequences begin, or a command.
    fn add_line(
        &mut self,
        alloc: Global,
        root: &Url,
        part: Part,
        number: usize,
        line: &[u8],
    ) -> Result<Part, TableRefused>
        requires { IsPlainFileUrl root.now }
    {
        if line.is_empty() {
            return Ok(Part::Commands);
        }
        if line.starts_with(b"#") {
            self.add_row(alloc, line)?;
            return Ok(Part::Rows);
        }
        match read_command(alloc, root, line) {
            Ok(command) => {
                self.add(part, command)?;
                Ok(part)
            }
            Err(_) => Err(TableRefused::Line { number }),
        }
    }
}

fn read_lines(alloc: Global, root: &Url, lines: &[u8]) -> Result<Table, TableRefused>
    requires { IsPlainFileUrl root.now }
{
    let mut table = Table {
        first: Vec::new(alloc),
        commands: Vec::new(alloc),
        rows: Vec::new(alloc),
    };
    let mut part = Part::First;
    let mut number: usize = 0;
    for line in lines.split(|byte| *byte == b'\n') {
        number = number.saturating_add(1);
        part = table.add_line(alloc, root, part, number, line)?;
    }
    Ok(table)
}

/// The table of these lines. Its commands are read below `file:///w`.
pub fn read_table(alloc: Global, lines: &[u8]) -> Result<Table, TableRefused> {
    match root_of(alloc, "file:///w") {
        Ok(root) => read_lines(alloc, &root, lines),
        Err(_) => Err(TableRefused::Memory),
    }
}
