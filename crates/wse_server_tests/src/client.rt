// A client that sends a line and waits for its answer.
use std::cell::Cell;
use wse_disk::Disk;
use wse_io::{ReadFailed, Sink, Source, WriteFailed};

/// What the client sends. It notes whether it was asked for a line while an answer was owed.
#[derive(Drop)]
pub struct Sent<'a> {
    pub lines: &'a [&'a [u8]],
    pub sent: usize,
    pub answers: &'a Cell<u64>,
    pub early: bool,
}

impl<'a> Source for Sent<'a> {
    ghost faults = { λ _. 0 };

    fn read(&mut self, buf: &mut [u8]) -> Result<usize, ReadFailed> {
        if self.answers.get() < self.sent as u64 {
            self.early = true;
        }
        let Some(line) = self.lines.get(self.sent) else {
            return Ok(0);
        };
        self.sent = self.sent.saturating_add(1);
        let count = line.len().min(buf.len());
        buf[..count].copy_from_slice(&line[..count]);
        Ok(count)
    }
}

/// What the client gets. It counts the answers, by their ends.
#[derive(Drop)]
pub struct Got<'a> {
    pub answers: &'a Cell<u64>,
}

impl<'a> Sink for Got<'a> {
    ghost faults = { λ _. 0 };

    fn emit<D: Disk>(&mut self, _disk: &D, bytes: &[u8]) -> Result<usize, WriteFailed> {
        for byte in bytes {
            if *byte == b'\n' {
                self.answers.set(self.answers.get().saturating_add(1));
            }
        }
        Ok(bytes.len())
    }
}
