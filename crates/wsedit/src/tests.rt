// The program as it is started, in an environment that is made up.
use super::*;
use std::alloc::Global;
use std::env::FillError;
use std::io::Cursor;
use std::test::Fail;
use wse_disk::MemDisk;
use wse_path::Tree;

// An environment with these words, which spaces part, the program's name first.
#[derive(Drop)]
struct Given {
    line: &'static str,
}

impl Env for Given {
    fn arg(&self, i: usize, buf: &mut [u8]) -> Result<usize, FillError> {
        let Some(word) = self.line.split(' ').nth(i) else {
            return Err(FillError::NotPresent);
        };
        if word.len() > buf.len() {
            return Err(FillError::TooLong);
        }
        buf[..word.len()].copy_from_slice(word.as_bytes());
        Ok(word.len())
    }

    fn var(&self, _name: &str, _buf: &mut [u8]) -> Result<usize, FillError> {
        Err(FillError::NotPresent)
    }

    fn var_at(&self, _i: usize, _buf: &mut [u8]) -> Result<usize, FillError> {
        Err(FillError::NotPresent)
    }
}

// Whether the program ends so over an empty disk, started with that line and no input.
fn ends(alloc: Global, line: &'static str, status: u8, told: &[u8]) -> Result<bool, Fail> {
    let disk = MemDisk::never_failing(alloc, Tree::new(alloc));
    let input = Cursor::new(Vec::new(alloc));
    let mut output = Vec::new(alloc);
    let mut errors = Vec::new(alloc);
    let code = start(
        &(Given { line }, alloc),
        disk,
        input,
        &mut output,
        &mut errors,
    );
    let streams = output.is_empty() && errors.as_slice() == told;
    Ok(code == ExitCode::from(status) && streams)
}

const USAGE: &[u8] = b"wsedit: words not understood
usage: wsedit init TREE STORE
usage: wsedit run TREE STORE ROOT [--adopt] [--max-input N]
usage: wsedit show TREE STORE
";

#[test]
fn the_program_ends_with_the_status_of_its_run(rt: HostRuntime) -> Result<(), Fail> {
    let alloc = rt.alloc();
    let none = b"wsedit: not a store: byte 0\n".as_slice();
    assert!(rt; ends(alloc, "wsedit init t s", 0, b"")?);
    assert!(rt; ends(alloc, "wsedit run t s file:///w", 7, none)?);
    assert!(rt; ends(alloc, "wsedit show t s", 7, none)?);
    assert!(rt; ends(alloc, "wsedit run t s", 2, USAGE)?);
    Ok(())
}

#[test]
fn no_word_is_left_out(rt: HostRuntime) -> Result<(), Fail> {
    let alloc = rt.alloc();
    assert!(rt; ends(alloc, "wsedit", 2, USAGE)?);
    assert!(rt; ends(alloc, "wsedit init t s x", 2, USAGE)?);
    assert!(rt; ends(alloc, "wsedit run t s file:///w x", 2, USAGE)?);
    Ok(())
}
