// How often lines read.
use crate::lines::{gives, repeats};
use std::alloc::Global;
use std::test::Fail;
use wse_io::{LineFault, Lines, MemSource, ReadFailed, Source};

// A source that counts its reads.
#[derive(Drop)]
struct Counting {
    source: MemSource,
    reads: u64,
}

impl Source for Counting {
    ghost faults = { λ counting. counting.source.counts.faults };

    fn read(&mut self, buf: &mut [u8]) -> Result<usize, ReadFailed> {
        self.reads = self.reads.saturating_add(1);
        self.source.read(buf)
    }
}

// The second read fails, and a third would find a line.
fn stops_at_a_fault(alloc: Global) -> Result<bool, Fail> {
    let source = MemSource::new(b"{}\n{}\n".to_vec(alloc)?, 3, [2].to_vec(alloc)?);
    let mut counting = Counting { source, reads: 0 };
    let mut lines = Lines::new(alloc, 1000, 1000);
    let given = gives(&mut lines, &mut counting, &[b"{}"]);
    let failed = repeats(&mut lines, &mut counting, LineFault::Read);
    Ok(given && failed && counting.reads == 2)
}

#[test]
fn a_failed_read_is_not_tried_again(rt: HostRuntime) -> Result<(), Fail> {
    assert!(rt; stops_at_a_fault(rt.alloc())?);
    Ok(())
}

// Each read gives a line. The second waits until the first was handed out.
fn waits_for_each_line(alloc: Global) -> Result<bool, Fail> {
    let source = MemSource::new(b"{}\n{}\n".to_vec(alloc)?, 3, Vec::new(alloc));
    let mut counting = Counting { source, reads: 0 };
    let mut lines = Lines::new(alloc, 1000, 1000);
    let first = gives(&mut lines, &mut counting, &[b"{}"]) && counting.reads == 1;
    let second = gives(&mut lines, &mut counting, &[b"{}"]) && counting.reads == 2;
    Ok(first && second)
}

#[test]
fn a_line_is_handed_out_before_more_is_read(rt: HostRuntime) -> Result<(), Fail> {
    assert!(rt; waits_for_each_line(rt.alloc())?);
    Ok(())
}

// The one read gives two lines.
fn reads_once_for_two_lines(alloc: Global) -> Result<bool, Fail> {
    let source = MemSource::new(b"{}\n{}\n".to_vec(alloc)?, 65536, Vec::new(alloc));
    let mut counting = Counting { source, reads: 0 };
    let mut lines = Lines::new(alloc, 1000, 1000);
    Ok(gives(&mut lines, &mut counting, &[b"{}", b"{}"]) && counting.reads == 1)
}

#[test]
fn lines_that_are_held_are_not_read_for(rt: HostRuntime) -> Result<(), Fail> {
    assert!(rt; reads_once_for_two_lines(rt.alloc())?);
    Ok(())
}
