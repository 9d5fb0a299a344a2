//! A sheet of lines, each by a worker or by none.
ghost use Rattle.std.specs.Prelude.{◌≡◌, ◌++◌, ◌∷◌, [], MatchBool, length};

use rn_desk::Kept;
use std::alloc::Global;

/// A line of a sheet. Worker 0 stands for none.
#[derive(Drop)]
pub struct Line {
    pub worker: u32,
    pub round: u32,
}

#[derive(Drop)]
pub struct Sheet {
    pub title: u64,
    pub lines: Vec<Line>,
}

impl Kept for Sheet {
    type Item = Line;

    type Fixed = u64;

    ghost entries = { λ s. s.lines.items };

    ghost author = { λ l. l.worker };

    ghost fixed = { λ s. s.title };

    fn length(&self) -> u64 {
        self.lines.len() as u64
    }
}

impl Sheet {
    pub fn new(alloc: Global, title: u64) -> Sheet
        ensures title { result.title ≡ title }
        ensures lines { result.lines.items ≡ [] }
    {
        Sheet {
            title,
            lines: Vec::new(alloc),
        }
    }

    /// Adds a line, or changes nothing where memory runs out. Returns whether it did.
    pub fn write(&mut self, line: Line) -> bool
        ensures title { self.new.title ≡ self.old.title }
        ensures lines { MatchBool result (self.new.lines.items ≡ self.old.lines.items ++ line ∷ []) (self.new.lines.items ≡ self.old.lines.items) }
    {
        self.lines.push(line).is_ok()
    }
}
