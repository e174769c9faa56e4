//! The line of a layout's text on which each shape is drawn: that of the command of the main level that gives it.

use crate::drawn_shapes::{Symbols, shapes_of};
use crate::judged::JudgedLayout;
use crate::text_lines::command_lines;
use crate::untold::Untold;
use cif_text::{CifCommand, read_commands};
use std::alloc::Global;

// The first shape of a command of the main level that draws some, and the line on which the command begins.
#[derive(Clone, Copy)]
struct Run {
    first: u64,
    line: u32,
}

/// The lines on which the shapes of a layout are drawn.
#[derive(Drop)]
pub(crate) struct ShapeLines {
    runs: Vec<Run>,
}

// How far the commands have come: the symbols that are defined, the one that is being defined, how many shapes it and the main level have, and what draws these.
#[derive(Drop)]
struct Level {
    symbols: Symbols,
    open: Option<u64>,
    inner: u64,
    outer: u64,
    runs: Vec<Run>,
}

impl Level {
    // Takes a command that draws so many shapes.
    fn draw(&mut self, count: u64, line: u32) -> Result<(), Untold> {
        if self.open.is_some() {
            self.inner = self.inner.saturating_add(count);
            return Ok(());
        }
        if count == 0 {
            return Ok(());
        }
        let first = self.outer;
        self.runs.push(Run { first, line })?;
        self.outer = self.outer.saturating_add(count);
        Ok(())
    }

    // Takes the end of a definition.
    fn finish(&mut self) -> Result<(), Untold> {
        if let Some(symbol) = self.open {
            let _ = self.symbols.insert(symbol, self.inner)?;
        }
        self.open = None;
        self.inner = 0;
        Ok(())
    }

    // Takes a command that begins on this line.
    fn take(&mut self, alloc: Global, command: &CifCommand, line: u32) -> Result<(), Untold> {
        match command {
            CifCommand::Start { n, .. } => {
                self.open = Some(*n);
                self.inner = 0;
                Ok(())
            }
            CifCommand::Finish => self.finish(),
            _ => {
                let count = shapes_of(alloc, &self.symbols, command)?;
                self.draw(count, line)
            }
        }
    }
}

// The lines of all shapes, of which there are to be so many.
fn lines_in(alloc: Global, text: &[u8], count: u64) -> Result<ShapeLines, Untold> {
    let Ok(commands) = read_commands(alloc, text) else {
        return Err(Untold);
    };
    let lines = command_lines(alloc, text)?;
    let mut level = Level {
        symbols: Symbols::new(alloc),
        open: None,
        inner: 0,
        outer: 0,
        runs: Vec::new(alloc),
    };
    for (command, line) in commands.as_slice().iter().zip(lines.as_slice()) {
        level.take(alloc, command, *line)?;
    }
    if level.outer != count {
        return Err(Untold);
    }
    Ok(ShapeLines { runs: level.runs })
}

/// The lines on which the shapes of a layout are drawn, where its text is there and draws just so many.
pub(crate) fn shape_lines(alloc: Global, judged: &JudgedLayout<'_>) -> Option<ShapeLines> {
    let count = judged.layout.shapes.items().len() as u64;
    lines_in(alloc, judged.text?, count).ok()
}

impl ShapeLines {
    /// The line on which a shape is drawn.
    pub(crate) fn line_of(&self, shape: u32) -> Option<u32> {
        let shape = u64::from(shape);
        let behind = self
            .runs
            .as_slice()
            .partition_point(|run| run.first <= shape);
        match self.runs.as_slice().get(behind.wrapping_sub(1)) {
            Some(run) => Some(run.line),
            None => None,
        }
    }
}
