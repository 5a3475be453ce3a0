// One piece of a journal.
ghost use Rattle.std.specs.Prelude.{◌≡◌, ◌≤◌, ◌<◌, ◌+◌, ◌^◌, length, IfOk, None};
ghost use Rattle.wse_disk.specs.Calls.{ReadsLength};
ghost use Rattle.wse_log.specs.Reads.{HasScanCause};
ghost use Rattle.wse_log.specs.Found.{ReadsHeader};
ghost use Rattle.wse_log.specs.Scan.{IsAtPiece, GivesPiece, GivesInOrder, CanScanOn, LiesAt, entry_of};

use crate::gate::{check_settled, is_open};
use crate::header::header_fault;
use crate::record::{Found, record_at};
use crate::step::{ScanFault, Step};
use std::alloc::Global;
use wse_disk::{Area, Disk};

// The record behind the gate as a step.
fn entry(found: Found, gate: u64) -> Step
    requires { gate + 6 + length found.body < 2 ^ 64 }
    ensures { result ≡ entry_of gate found.body found.mark }
{
    let settled = found.is_settled();
    let next = gate + 6 + found.body.len() as u64;
    Step::Entry {
        body: found.body,
        gate,
        settled,
        next,
    }
}

// The first record, in an area of `len` bytes that begins with the header.
fn first_record<D: Disk>(
    alloc: Global,
    disk: &mut D,
    area: Area,
    len: u64,
) -> Result<Step, ScanFault>
    requires header { ReadsHeader (D.told disk.old) area None }
    requires length { ReadsLength (D.told disk.old) area len }
    requires short { len < 2 ^ 63 }
    ensures piece { GivesPiece (D.told disk.old) area 0 result }
    ensures places { IfOk result (LiesAt 0) }
    ensures same { D.told disk.new ≡ D.told disk.old }
    ensures later { D.moment_of disk.old ≤ D.moment_of disk.new }
    ensures cause { HasScanCause (D.faults disk.old) (D.faults disk.new) result }
{
    if !is_open(disk, area, len, 8)? {
        return Err(ScanFault::NotALog { at: 8 });
    }
    let found = record_at(alloc, disk, area, len, 8)?;
    if !found.is_settled() {
        let at = 13 + found.body.len() as u64;
        return Err(ScanFault::NotALog { at });
    }
    Ok(entry(found, 8))
}

// The piece at 0, in an area of `len` bytes.
fn scan_first<D: Disk>(alloc: Global, disk: &mut D, area: Area, len: u64) -> Result<Step, ScanFault>
    requires length { ReadsLength (D.told disk.old) area len }
    requires short { len < 2 ^ 63 }
    ensures piece { GivesPiece (D.told disk.old) area 0 result }
    ensures places { IfOk result (LiesAt 0) }
    ensures same { D.told disk.new ≡ D.told disk.old }
    ensures later { D.moment_of disk.old ≤ D.moment_of disk.new }
    ensures cause { HasScanCause (D.faults disk.old) (D.faults disk.new) result }
{
    match header_fault(disk, area, len)? {
        Some(at) => Err(ScanFault::NotALog { at }),
        None => first_record(alloc, disk, area, len),
    }
}

// The piece at a later gate, in an area of `len` bytes.
fn scan_later<D: Disk>(
    alloc: Global,
    disk: &mut D,
    area: Area,
    len: u64,
    gate: u64,
) -> Result<Step, ScanFault>
    requires length { ReadsLength (D.told disk.old) area len }
    requires short { len < 2 ^ 63 }
    requires later { 0 < gate }
    ensures piece { GivesPiece (D.told disk.old) area gate result }
    ensures places { IfOk result (LiesAt gate) }
    ensures same { D.told disk.new ≡ D.told disk.old }
    ensures later { D.moment_of disk.old ≤ D.moment_of disk.new }
    ensures cause { HasScanCause (D.faults disk.old) (D.faults disk.new) result }
{
    if !is_open(disk, area, len, gate)? {
        return Ok(Step::End { gate });
    }
    check_settled(disk, area, len, gate)?;
    let found = record_at(alloc, disk, area, len, gate)?;
    Ok(entry(found, gate))
}

/// Reads one piece of the journal in the area: at 0 its first record, at a later gate's place the record behind that
/// gate, or that the gate is closed. From 0, and then from the place that each record tells, this gives the records of
/// the journal in order and then its end, or `NotALog` with the first place where the area is no journal.
///
/// Only the bytes of the piece are read: the header, where it is the first; the gate; where that is open the byte in
/// front of it, and the length, the body and the settled byte behind it. Memory is taken for the body alone, and only
/// where the area has all its bytes. On every disk the places are below 2^63. This project's own format.
pub fn scan<D: Disk>(alloc: Global, disk: &mut D, area: Area, at: u64) -> Result<Step, ScanFault>
    requires { IsAtPiece (D.told disk.old) area at }
    ensures piece { GivesPiece (D.told disk.old) area at result }
    ensures in_order { GivesInOrder (D.told disk.old) area at result }
    ensures goes_on { IfOk result (CanScanOn (D.told disk.new) area) }
    ensures places { IfOk result (LiesAt at) }
    ensures same { D.told disk.new ≡ D.told disk.old }
    ensures later { D.moment_of disk.old ≤ D.moment_of disk.new }
    ensures cause { HasScanCause (D.faults disk.old) (D.faults disk.new) result }
{
    let len = disk.area_len(area)?;
    if at == 0 {
        scan_first(alloc, disk, area, len)
    } else {
        scan_later(alloc, disk, area, len, at)
    }
}
