// The bytes of the areas.
ghost use Rattle.std.specs.Prelude.{◌≡◌, ◌+◌, ◌≤◌, ◌<◌, ◌^◌, length, slice_range, IfOk, OnOk, OnErr, [], vec_len};
ghost use Rattle.wse_disk.specs.Reading.{area_of, patched};
ghost use Rattle.wse_disk.specs.Reading.Write.{Patches};
ghost use Rattle.wse_disk.specs.Replay.{held, laid, laid_bytes};
ghost use Rattle.wse_path.specs.Tree.{Entries};

use crate::area::Area;
use std::alloc::Global;
use wse_path::Memory;

/// The bytes of each area.
#[derive(Drop)]
pub struct Areas {
    pub switch: Vec<u8>,
    pub log_a: Vec<u8>,
    pub log_b: Vec<u8>,
}

impl Areas {
    /// Areas without bytes.
    pub fn new(alloc: Global) -> Areas
        ensures switch { result.switch.items ≡ [] }
        ensures log_a { result.log_a.items ≡ [] }
        ensures log_b { result.log_b.items ≡ [] }
    {
        Areas {
            switch: Vec::new(alloc),
            log_a: Vec::new(alloc),
            log_b: Vec::new(alloc),
        }
    }

    /// The bytes of one area.
    pub fn bytes(&self, area: Area) -> &[u8]
        ensures { (files : Entries) → result.now ≡ area_of area (held files self.now) }
    {
        match area {
            Area::Switch => &self.switch,
            Area::LogA => &self.log_a,
            Area::LogB => &self.log_b,
        }
    }

    /// How many bytes one area has.
    pub fn len(&self, area: Area) -> usize
        ensures len { (files : Entries) → result ≡ length (area_of area (held files self.now)) }
        ensures bounded { result < 2 ^ 63 }
    {
        match area {
            Area::Switch => self.switch.len(),
            Area::LogA => self.log_a.len(),
            Area::LogB => self.log_b.len(),
        }
    }

    /// Writes over what is there and past the end, a gap before the place being zeros. After Memory all is as it was.
    pub fn patch(&mut self, area: Area, at: usize, bytes: &[u8]) -> Result<(), Memory>
        ensures ok { OnOk result ((files : Entries) → held files self.new ≡ laid (Patches area at bytes.now) (held files self.old)) }
        ensures err { OnErr result ((files : Entries) → held files self.new ≡ held files self.old) }
        ensures bounded { OnOk result (at + length bytes.now < 2 ^ 63) }
    {
        match area {
            Area::Switch => lay(&mut self.switch, at, bytes),
            Area::LogA => lay(&mut self.log_a, at, bytes),
            Area::LogB => lay(&mut self.log_b, at, bytes),
        }
    }

    /// Areas with the same bytes.
    pub fn duplicate(&self, alloc: Global) -> Result<Areas, Memory>
        ensures { IfOk result (λ copy. (files : Entries) → held files copy ≡ held files self.now) }
    {
        Ok(Areas {
            switch: self.switch.to_vec(alloc)?,
            log_a: self.log_a.to_vec(alloc)?,
            log_b: self.log_b.to_vec(alloc)?,
        })
    }
}

// Writes over what is there and past the end, a gap before the place being zeros. After Memory all is as it was.
fn lay(area: &mut Vec<u8>, at: usize, bytes: &[u8]) -> Result<(), Memory>
    ensures ok { OnOk result (area.new.items ≡ laid_bytes at bytes.now area.old.items) }
    ensures err { OnErr result (area.new.items ≡ area.old.items) }
    ensures bounded { OnOk result (at + length bytes.now < 2 ^ 63) }
{
    if at > area.len() {
        return lay_far(area, at, bytes);
    }
    lay_near(area, at, bytes)
}

// Where there is a gap.
fn lay_far(area: &mut Vec<u8>, at: usize, bytes: &[u8]) -> Result<(), Memory>
    requires { vec_len area.old < at }
    ensures ok { OnOk result (area.new.items ≡ laid_bytes at bytes.now area.old.items) }
    ensures err { OnErr result (area.new.items ≡ area.old.items) }
    ensures bounded { OnOk result (at + length bytes.now < 2 ^ 63) }
{
    let len = area.len();
    area.resize(at, 0)?;
    if area.extend_from_slice(bytes).is_err() {
        area.truncate(len);
        return Err(Memory);
    }
    Ok(())
}

// Where there is none.
fn lay_near(area: &mut Vec<u8>, at: usize, bytes: &[u8]) -> Result<(), Memory>
    requires { at ≤ vec_len area.old }
    ensures ok { OnOk result (area.new.items ≡ laid_bytes at bytes.now area.old.items) }
    ensures err { OnErr result (area.new.items ≡ area.old.items) }
    ensures bounded { OnOk result (at + length bytes.now < 2 ^ 63) }
{
    let over = bytes.len().min(area.len() - at);
    area.extend_from_slice(&bytes[over..])?;
    overwrite(area, at, &bytes[..over]);
    Ok(())
}

fn overwrite(bytes: &mut [u8], at: usize, new: &[u8])
    requires { at + length new.now ≤ length bytes.old }
    ensures { bytes.new ≡ patched at new.now bytes.old }
{
    bytes[at..at + new.len()].copy_from_slice(new);
}
