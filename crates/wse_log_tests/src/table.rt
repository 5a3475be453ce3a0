// The worked journal, cut at each length and with each byte changed, against a plain reading.
use crate::journal::{changed, cut, pieces};
use crate::plain::pieces_plainly;
use std::alloc::Global;
use std::test::Fail;

fn reads_alike(alloc: Global, bytes: Vec<u8>) -> Result<bool, Fail> {
    let plain = pieces_plainly(alloc, &bytes)?;
    let scanned = pieces(alloc, bytes)?;
    Ok(scanned.as_slice() == plain.as_slice())
}

fn cut_reads_alike(alloc: Global, count: usize) -> Result<bool, Fail> {
    reads_alike(alloc, cut(alloc, count)?)
}

fn changed_reads_alike(alloc: Global, place: usize) -> Result<bool, Fail> {
    Ok(
        reads_alike(alloc, changed(alloc, place, 0)?)?
            && reads_alike(alloc, changed(alloc, place, 0xff)?)?,
    )
}

#[test]
fn each_cut_of_the_journal_reads_as_the_definition_says(rt: HostRuntime) -> Result<(), Fail> {
    let alloc = rt.alloc();
    for count in 0..93 {
        assert!(rt; cut_reads_alike(alloc, count)?, "{count}");
    }
    Ok(())
}

#[test]
fn each_changed_byte_reads_as_the_definition_says(rt: HostRuntime) -> Result<(), Fail> {
    let alloc = rt.alloc();
    for place in 0..92 {
        assert!(rt; changed_reads_alike(alloc, place)?, "{place}");
    }
    Ok(())
}
