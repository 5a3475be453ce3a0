// The lines of what a source gives, up to a limit.
ghost use Rattle.std.specs.Prelude.{◌≡◌, ◌≢◌, ◌⊎◌, ◌^◌, ◌+◌, ◌<◌, ◌≤◌, ℕ, List, [], false, IfOk, IfSome, OnOk, length, take, drop, vec_len, Ok, Err};
ghost use Rattle.wse_path.specs.Causes.{Rose, HasCause};
ghost use Rattle.wse_io.specs.Stream.{Takes, read_by};
ghost use Rattle.wse_io.specs.Lines.{lines};
ghost use Rattle.wse_io.specs.Reader.{Hands, HandsOut, Fills, AsksInNeed, without_held};

use crate::held::Held;
use crate::source::{ReadFailed, Source};
use std::alloc::Global;
use std::marker::Model;
use wse_path::{Bytes, Memory};

/// The most bytes that are asked for in one read.
const CHUNK: usize = 65536;

/// What a reader of lines hands out.
#[derive(Drop)]
pub enum Line {
    /// A line, without its `\n`.
    Text(Bytes),
    /// A line of so many bytes, without its `\n`. They are more than the most, and weren't kept.
    TooLong { bytes: u64 },
    /// The source ended, and every line was handed out.
    End,
}

/// Why no line is handed out.
#[derive(Debug, Clone, Copy, PartialEq, Eq)]
pub enum LineFault {
    /// The source failed.
    Read,
    /// The source gave one byte past the limit.
    InputLimit { taken: u64 },
    /// There was no memory for the line.
    Memory,
}

/// What comes behind the lines that are held. Contracts see it.
#[derive(Debug, Clone, Copy, PartialEq, Eq)]
pub enum Ahead {
    /// More is to be read.
    Open,
    /// The end of the input.
    Over,
    /// A fault.
    Failed(LineFault),
}

/// Reads lines, which end at `\n`. At most one byte more than `max_input` is taken from the source. What was handed out is
/// not kept, nor is a line of more than `max_line` bytes: at most `max_line + 1` bytes are held.
#[derive(Drop)]
pub struct Lines {
    max_line: usize,
    max_input: u64,
    taken: u64,
    // What one read may fill. It is made before the first.
    chunk: Vec<u8>,
    held: Held,
    ahead: Ahead,
}

impl Model for Lines {
    ghost use Rattle.wse_io.specs.Reader.{Reader, IsReader};

    ghost Value = { Reader };

    ghost view = { λ a. record { max_line = a.max_line; max_input = a.max_input; taken = a.taken; held = a.held; ahead = a.ahead } };

    ghost invariant = { λ a. IsReader (record { max_line = a.max_line; max_input = a.max_input; taken = a.taken; held = a.held; ahead = a.ahead }) };
}

impl Lines {
    /// A reader that has taken nothing. Lines are handed out of the first `max_input` bytes, and one of more than
    /// `max_line` bytes is too long.
    pub fn new(alloc: Global, max_line: usize, max_input: u64) -> Lines
        requires some { 1 ≤ max_input }
        requires countable { max_input ≤ 2 ^ 62 }
        ensures line { result.max_line ≡ max_line }
        ensures limit { result.max_input ≡ max_input }
        ensures taken { result.taken ≡ 0 }
        ensures held { result.held ≡ [] }
        ensures open { result.ahead ≡ Ahead.Open }
    {
        Lines {
            max_line,
            max_input,
            taken: 0,
            chunk: Vec::new(alloc),
            held: Held::new(alloc),
            ahead: Ahead::Open,
        }
    }

    /// The next line of the first `max_input` bytes, or why there is none. After a fault, and after End, each call answers
    /// the same without reading.
    pub fn next<S: Source>(&mut self, source: &mut S) -> Result<Line, LineFault>
        ensures hands { (read : List ℕ) × Hands (S.left source.old) (S.left source.new) self.old self.new read result }

        // Nothing is read where a line is held whole, and where the end or a fault is known.
        ensures ready { lines self.old.held false ≢ [] → source.new ≡ source.old }
        ensures settled { self.old.ahead ≢ Ahead.Open → source.new ≡ source.old }
        // Each read of the call begins where no line is held whole.
        ensures waits { (source.new ≡ source.old) ⊎ AsksInNeed (S.left source.old) (S.left_before source.new) self.old }

        ensures later { S.faults source.old ≤ S.faults source.new }
        // The count rises only in a call that answers a fault of the source.
        ensures kept { result ≢ Err LineFault.Read → S.faults source.new ≡ S.faults source.old }
        // A fault of the source is known only where its count rose, in this or an earlier call.
        ensures cause { self.new.ahead ≡ Ahead.Failed LineFault.Read
            → (self.old.ahead ≡ Ahead.Failed LineFault.Read) ⊎ Rose (S.faults source.old) (S.faults source.new) }
    {
        // How many bytes of the line were dropped.
        let mut dropped = 0;
        loop {
            if let Some(end) = self.held.line_end() {
                return self.hand_out(dropped, end);
            }
            match self.ahead {
                Ahead::Open => {
                    dropped = self.drop_long(dropped);
                    self.fill(source);
                }
                Ahead::Over => return self.last(dropped),
                Ahead::Failed(fault) => return Err(fault),
            }
        }
    }

    // Drops what is held of a line, of which so many bytes were dropped before, where it is too long already. Answers how many
    // are dropped now.
    fn drop_long(&mut self, dropped: u64) -> u64
        requires counted { dropped + length self.old.held ≤ self.old.taken }
        ensures short { dropped + length self.old.held ≤ self.old.max_line
            → (result ≡ dropped) × (self.new ≡ self.old) }
        ensures long { self.old.max_line < dropped + length self.old.held
            → (result ≡ dropped + length self.old.held) × (self.new ≡ without_held self.old) }
    {
        let bytes = dropped + self.held.len() as u64;
        if bytes <= self.max_line as u64 {
            return dropped;
        }
        self.held.forget();
        bytes
    }

    // Takes what one read gives, of which at most `max_line + 1` bytes are held then.
    fn fill<S: Source>(&mut self, source: &mut S)
        requires ahead { self.old.ahead ≡ Ahead.Open }
        requires short { length self.old.held ≤ self.old.max_line }
        ensures fills { (read : List ℕ) × Fills (S.left source.old) (S.left source.new) self.old self.new read }
        ensures line { self.new.max_line ≡ self.old.max_line }
        // No more joined what is held than was taken.
        ensures most { length self.new.held + self.old.taken ≤ length self.old.held + self.new.taken }
        ensures began { (source.new ≡ source.old) ⊎ (S.left_before source.new ≡ S.left source.old) }
        ensures later { S.faults source.old ≤ S.faults source.new }
        ensures kept { self.new.ahead ≢ Ahead.Failed LineFault.Read → S.faults source.new ≡ S.faults source.old }
        ensures cause { self.new.ahead ≡ Ahead.Failed LineFault.Read → Rose (S.faults source.old) (S.faults source.new) }
        ensures still { self.new.ahead ≡ Ahead.Failed LineFault.Read → self.new.held ≡ self.old.held }
    {
        if make_chunk(&mut self.chunk).is_err() {
            self.held.forget();
            self.ahead = Ahead::Failed(LineFault::Memory);
            return;
        }
        let room = self.room();
        match read_front(source, &mut self.chunk, room) {
            Err(ReadFailed) => self.ahead = Ahead::Failed(LineFault::Read),
            Ok(0) => self.ahead = Ahead::Over,
            Ok(count) => {
                let kept = (count as u64).min(self.max_input - self.taken) as usize;
                self.taken += count as u64;
                if self.held.append(&self.chunk[..kept]).is_err() {
                    self.ahead = Ahead::Failed(LineFault::Memory);
                } else if self.taken > self.max_input {
                    self.ahead = Ahead::Failed(LineFault::InputLimit { taken: self.taken });
                }
            }
        }
    }

    // How many bytes may be taken.
    fn room(&self) -> u64
        requires ahead { self.now.ahead ≡ Ahead.Open }
        requires short { length self.now.held ≤ self.now.max_line }
        ensures some { 0 < result }
        ensures input { result + self.now.taken ≤ self.now.max_input + 1 }
        ensures line { result + length self.now.held ≤ self.now.max_line + 1 }
    {
        let line = (self.max_line - self.held.len()).saturating_add(1) as u64;
        line.min(self.max_input + 1 - self.taken)
    }

    // The bytes before the place `end`, as a line, of which so many bytes before these were dropped.
    fn hand_out(&mut self, dropped: u64, end: usize) -> Result<Line, LineFault>
        requires end { end ≤ length self.old.held }
        requires counted { dropped + length self.old.held ≤ self.old.taken }
        ensures { HandsOut dropped (take end self.old.held) (drop (end + 1) self.old.held) self.old self.new result }
    {
        let most = self.max_line as u64;
        let bytes = dropped + end as u64;
        if bytes > most {
            self.held.drop_line(end);
            return Ok(Line::TooLong { bytes });
        }
        match self.held.take_line(end) {
            Ok(line) => Ok(Line::Text(line)),
            Err(Memory) => {
                self.ahead = Ahead::Failed(LineFault::Memory);
                Err(LineFault::Memory)
            }
        }
    }

    // What is held at the end of the input, as the last line, of which so many bytes before these were dropped.
    fn last(&mut self, dropped: u64) -> Result<Line, LineFault>
        requires counted { dropped + length self.old.held ≤ self.old.taken }
        ensures none { dropped + length self.old.held ≡ 0 → (result ≡ Ok Line.End) × (self.new ≡ self.old) }
        ensures some { 0 < dropped + length self.old.held → HandsOut dropped self.old.held [] self.old self.new result }
    {
        let len = self.held.len();
        if dropped == 0 && len == 0 {
            return Ok(Line::End);
        }
        self.hand_out(dropped, len)
    }
}

// Makes the chunk, where it is not there yet.
fn make_chunk(chunk: &mut Vec<u8>) -> Result<(), Memory>
    ensures { OnOk result (0 < vec_len chunk.new) }
{
    if chunk.is_empty() {
        chunk.resize(CHUNK, 0)?;
    }
    Ok(())
}

// One read of `most` bytes at most, into the front of the chunk.
fn read_front<S: Source>(source: &mut S, chunk: &mut [u8], most: u64) -> Result<usize, ReadFailed>
    requires asked { 0 < most }
    requires made { 0 < length chunk.old }
    ensures count { IfOk result (λ n. (n ≤ most) × (n ≤ length chunk.old)) }
    ensures taken { Takes (S.left source.old) (S.left source.new) (read_by result chunk.new) }
    ensures began { S.left_before source.new ≡ S.left source.old }
    ensures ended { IfOk result (λ n. n ≡ 0 → IfSome (S.left source.new) (λ rest. rest ≡ [])) }
    ensures cause { HasCause (S.faults source.old) (S.faults source.new) result }
{
    let room = (chunk.len() as u64).min(most) as usize;
    source.read(&mut chunk[..room])
}
