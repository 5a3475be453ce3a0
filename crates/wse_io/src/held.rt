// Bytes that were taken and are not handed out yet.
ghost use Rattle.std.specs.Prelude.{◌≡◌, ◌+◌, ◌≤◌, ◌++◌, [], length, take, drop, position, vec_len, IfOk, OnOk, OnErr};
ghost use Rattle.wse_io.specs.Lines.{is_line_end};

use std::alloc::Global;
use std::marker::Model;
use wse_path::{Bytes, Items, Memory};

/// Bytes in order. They stand in one vector from `start` on; what stands before that was handed out, and is left behind
/// when bytes come in. Contracts see the bytes alone.
#[derive(Drop)]
pub struct Held {
    alloc: Global,
    bytes: Vec<u8>,
    start: usize,
    // No line ends between `start` and this place.
    searched: usize,
}

impl Model for Held {
    ghost use Rattle.std.specs.Prelude.{List, ℕ, drop};
    ghost use Rattle.wse_io.specs.Held.{IsSearched};

    ghost Value = { List ℕ };

    ghost view = { λ a. drop a.start a.bytes.items };

    ghost invariant = { λ a. IsSearched a.bytes.items a.start a.searched };
}

impl Held {
    /// No bytes. Takes no memory.
    pub fn new(alloc: Global) -> Held
        ensures { result ≡ [] }
    {
        Held {
            alloc,
            bytes: Vec::new(alloc),
            start: 0,
            searched: 0,
        }
    }

    /// How many bytes there are.
    pub fn len(&self) -> usize
        ensures { result ≡ length self.now }
    {
        self.bytes.len() - self.start
    }

    /// The place of the first line end. Bytes that were searched are not searched again.
    pub fn line_end(&mut self) -> Option<usize>
        ensures place { result ≡ position is_line_end self.old }
        ensures same { self.new ≡ self.old }
    {
        match first_line_end(&self.bytes[self.searched..]) {
            Some(at) => {
                self.searched += at;
                Some(self.searched - self.start)
            }
            None => {
                self.searched = self.bytes.len();
                None
            }
        }
    }

    /// A copy of the bytes before the place `end`. They leave, and with them the byte at that place, where there is one.
    /// After Memory nothing is held.
    pub fn take_line(&mut self, end: usize) -> Result<Bytes, Memory>
        requires { end ≤ length self.old }
        ensures line { IfOk result (λ line. line ≡ take end self.old) }
        ensures left { OnOk result (self.new ≡ drop (end + 1) self.old) }
        ensures memory { OnErr result (self.new ≡ []) }
    {
        let line = &self.bytes[self.start..self.start + end];
        match line.to_vec(self.alloc) {
            Ok(line) => {
                self.drop_line(end);
                Ok(Items::new(line))
            }
            Err(_) => {
                self.forget();
                Err(Memory)
            }
        }
    }

    /// Lets go of the bytes before the place `end`, and of the byte at that place, where there is one. Takes no memory.
    pub fn drop_line(&mut self, end: usize)
        requires { end ≤ length self.old }
        ensures { self.new ≡ drop (end + 1) self.old }
    {
        self.start = (self.start + end + 1).min(self.bytes.len());
        self.searched = self.start;
    }

    /// Puts the bytes behind those that are held. After Memory nothing is held.
    pub fn append(&mut self, more: &[u8]) -> Result<(), Memory>
        ensures ok { OnOk result (self.new ≡ self.old ++ more.now) }
        ensures memory { OnErr result (self.new ≡ []) }
    {
        drop_front(&mut self.bytes, self.start);
        self.searched -= self.start;
        self.start = 0;
        if self.bytes.extend_from_slice(more).is_err() {
            self.forget();
            return Err(Memory);
        }
        Ok(())
    }

    /// Lets go of all bytes and of their memory.
    pub fn forget(&mut self)
        ensures { self.new ≡ [] }
    {
        *self = Held::new(self.alloc);
    }
}

fn first_line_end(bytes: &[u8]) -> Option<usize>
    ensures { result ≡ position is_line_end bytes.now }
{
    bytes.iter().position(|b| *b == b'\n')
}

// Takes away the first bytes.
fn drop_front(bytes: &mut Vec<u8>, count: usize)
    requires { count ≤ vec_len bytes.old }
    ensures { bytes.new.items ≡ drop count bytes.old.items }
{
    if count > 0 {
        let rest = bytes.len() - count;
        bytes.copy_within(count.., 0);
        bytes.truncate(rest);
    }
}
