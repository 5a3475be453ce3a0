// A source and a sink in memory, which fail where they are told to.
ghost use Rattle.std.specs.Prelude.{◌≡◌, ◌<◌, ◌≤◌, ◌&&◌, ℕ, List, [], ◌∷◌, ◌++◌, Some, true, not, map, min, length, IsErr, IfOk, IfSome, OnOk, OnErr, is_ok, is_err, if◌then◌else◌};
ghost use Rattle.wse_path.specs.Causes.{HasCause};
ghost use Rattle.wse_io.specs.Stream.{Takes, read_by, Adds, piece_by, bytes_of};
ghost use Rattle.wse_disk.specs.CallCounts.{uncalled, next_fails, called, after_call, is_starved};
ghost use Rattle.wse_io.specs.Mem.{mark_of};

use crate::sink::{Sink, WriteFailed};
use crate::source::{ReadFailed, Source};
use std::alloc::Global;
use std::marker::Model;
use wse_disk::{CallCounts, Disk};
use wse_path::Memory;

/// A source that gives bytes from memory. A read fails exactly where its number, counted from 1, is among those that were
/// told. Also a read into an empty buffer counts.
#[derive(Drop)]
pub struct MemSource {
    bytes: Vec<u8>,
    at: usize,
    // Where the last read began.
    began: usize,
    chunk: usize,
    counts: CallCounts,
}

impl Model for MemSource {
    ghost use Rattle.std.specs.Prelude.{◌≤◌, drop, length};
    ghost use Rattle.wse_io.specs.Mem.{MemSourceState};

    ghost Value = { MemSourceState };

    ghost view = { λ a. record { left = drop a.at a.bytes.items; before = drop a.began a.bytes.items; chunk = a.chunk; counts = a.counts } };

    ghost invariant = { λ a. (1 ≤ a.chunk) × (a.at ≤ length a.bytes.items) × (a.began ≤ length a.bytes.items) };
}

impl MemSource {
    /// Gives these bytes, at most `chunk` in a read. The reads with the numbers in `fails` fail.
    pub fn new(bytes: Vec<u8>, chunk: usize, fails: Vec<u64>) -> MemSource
        requires { 1 ≤ chunk }
        ensures left { result.left ≡ bytes.items }
        ensures before { result.before ≡ bytes.items }
        ensures chunk { result.chunk ≡ chunk }
        ensures counts { result.counts ≡ uncalled fails.items }
    {
        MemSource {
            bytes,
            at: 0,
            began: 0,
            chunk,
            counts: CallCounts::new(fails),
        }
    }

    /// The bytes left.
    pub fn left(&self) -> &[u8]
        ensures { result.now ≡ self.now.left }
    {
        &self.bytes[self.at..]
    }

    /// The bytes that were left when the last read began, and at first all.
    pub fn left_before(&self) -> &[u8]
        ensures { result.now ≡ self.now.before }
    {
        &self.bytes[self.began..]
    }

    /// How many reads failed. It stops at 2^64-1.
    pub fn faults(&self) -> u64
        ensures { result ≡ self.now.counts.faults }
    {
        self.counts.faults()
    }
}

impl Source for MemSource {
    ghost left = { λ source. Some source.left };

    ghost left_before = { λ source. Some source.before };

    ghost faults = { λ source. source.counts.faults };

    fn read(&mut self, buf: &mut [u8]) -> Result<usize, ReadFailed>
        ensures failed { is_err result ≡ next_fails self.old.counts }
        ensures amount { IfOk result (λ n. n ≡ min self.old.chunk (min (length buf.old) (length self.old.left))) }
        ensures counts { self.new.counts ≡ called self.old.counts }
        ensures same { self.new.chunk ≡ self.old.chunk }

        // As each source.
        ensures taken { Takes (Some self.old.left) (Some self.new.left) (read_by result buf.new) }
        ensures began { self.new.before ≡ self.old.left }
        ensures ended { IfOk result (λ n. n ≡ 0 → 0 < length buf.old → self.new.left ≡ []) }
        ensures cause { HasCause self.old.counts.faults self.new.counts.faults result }
    {
        self.began = self.at;
        if self.counts.call() {
            return Err(ReadFailed);
        }
        let rest = &self.bytes[self.at..];
        let count = self.chunk.min(buf.len()).min(rest.len());
        buf[..count].copy_from_slice(&rest[..count]);
        self.at += count;
        Ok(count)
    }
}

/// How many bytes a piece has, and the moment of the disk that it was shown.
#[derive(Clone, Copy)]
pub struct Mark {
    pub count: usize,
    pub moment: u64,
}

/// A sink that keeps its pieces in memory. An emit fails exactly where its number, counted from 1, is among those that were
/// told, or for want of memory. Also an emit of no bytes counts.
#[derive(Drop)]
pub struct MemSink {
    bytes: Vec<u8>,
    marks: Vec<Mark>,
    chunk: usize,
    counts: CallCounts,
}

impl Model for MemSink {
    ghost use Rattle.std.specs.Prelude.{◌≡◌, ◌≤◌, length, sum_by};
    ghost use Rattle.wse_io.specs.Mem.{MemSinkState, pieces_in};

    ghost Value = { MemSinkState };

    ghost view = { λ a. record { pieces = pieces_in a.marks.items a.bytes.items; chunk = a.chunk; counts = a.counts } };

    ghost invariant = { λ a. (1 ≤ a.chunk) × (sum_by (λ m. m.count) a.marks.items ≡ length a.bytes.items) };
}

impl MemSink {
    /// A sink without pieces, which takes at most `chunk` bytes a piece. The emits with the numbers in `fails` fail.
    pub fn new(alloc: Global, chunk: usize, fails: Vec<u64>) -> MemSink
        requires { 1 ≤ chunk }
        ensures pieces { result.pieces ≡ [] }
        ensures chunk { result.chunk ≡ chunk }
        ensures counts { result.counts ≡ uncalled fails.items }
    {
        MemSink {
            bytes: Vec::new(alloc),
            marks: Vec::new(alloc),
            chunk,
            counts: CallCounts::new(fails),
        }
    }

    /// All bytes emitted so far, in order.
    pub fn bytes(&self) -> &[u8]
        ensures { result.now ≡ bytes_of self.now.pieces }
    {
        &self.bytes
    }

    /// How many bytes each piece has, and its moment.
    pub fn marks(&self) -> &[Mark]
        ensures { result.now ≡ map mark_of self.now.pieces }
    {
        &self.marks
    }

    /// How many emits failed. It stops at 2^64-1.
    pub fn faults(&self) -> u64
        ensures { result ≡ self.now.counts.faults }
    {
        self.counts.faults()
    }

    /// How many emits failed for want of memory. It stops at 2^64-1.
    pub fn starved(&self) -> u64
        ensures { result ≡ self.now.counts.starved }
    {
        self.counts.starved()
    }
}

impl Sink for MemSink {
    ghost pieces = { λ sink. Some sink.pieces };

    ghost faults = { λ sink. sink.counts.faults };

    fn emit<D: Disk>(&mut self, disk: &D, bytes: &[u8]) -> Result<usize, WriteFailed>
        ensures listed { next_fails self.old.counts ≡ true → IsErr result }
        ensures empty { bytes.now ≡ [] → is_err result ≡ next_fails self.old.counts }
        ensures amount { IfOk result (λ n. n ≡ min self.old.chunk (length bytes.now)) }
        ensures counts { self.new.counts ≡ after_call self.old.counts (is_starved self.old.counts result) }
        ensures same { self.new.chunk ≡ self.old.chunk }

        // As each sink.
        ensures some { IfOk result (λ n. 0 < length bytes.now → 0 < n) }
        ensures added { Adds (Some self.old.pieces) (Some self.new.pieces) (piece_by result bytes.now (D.moment_of disk.now)) }
        ensures cause { HasCause self.old.counts.faults self.new.counts.faults result }
    {
        if self.counts.call() {
            return Err(WriteFailed);
        }
        let count = self.chunk.min(bytes.len());
        if count == 0 {
            return Ok(0);
        }
        if put_piece(
            &mut self.bytes,
            &mut self.marks,
            &bytes[..count],
            disk.moment(),
        )
        .is_err()
        {
            self.counts.starve();
            return Err(WriteFailed);
        }
        Ok(count)
    }
}

// Puts a piece behind the others. After Memory all is as it was.
fn put_piece(
    bytes: &mut Vec<u8>,
    marks: &mut Vec<Mark>,
    piece: &[u8],
    moment: u64,
) -> Result<(), Memory>
    ensures bytes { bytes.new.items ≡ (if is_ok result then bytes.old.items ++ piece.now else bytes.old.items) }
    ensures marks { marks.new.items ≡ (if is_ok result then marks.old.items ++ (record { count = length piece.now; moment = moment }) ∷ [] else marks.old.items) }
{
    let len = bytes.len();
    bytes.extend_from_slice(piece)?;
    let mark = Mark {
        count: piece.len(),
        moment,
    };
    if marks.push(mark).is_err() {
        bytes.truncate(len);
        return Err(Memory);
    }
    Ok(())
}
