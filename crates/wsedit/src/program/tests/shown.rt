// What a store is shown to hold.
use super::*;

const SHOWN: &str = r#"{"bytes":0,"path":"a","version":1}
{"done":true,"id":1,"label":"","origin":1,"parts":[["a","live",true]],"splits":false}
"#;

const SHOWN_UNDONE: &str = r#"{"bytes":null,"path":"a","version":2}
{"done":false,"id":1,"label":"","origin":1,"parts":[["a","live",true]],"splits":false}
"#;

const SHOWN_UNKNOWN: &str = r#"{"bytes":0,"path":"a","version":1}
{"bytes":1,"path":"b","version":0}
{"bytes":0,"path":"c","version":1}
"#;

/// The disk after this is shown of its store, where nothing is read.
fn shows(alloc: Global, disk: MemDisk, out: &'static str) -> Result<MemDisk, Fail> {
    ended(alloc, &case_of("show t s"), disk, CREATE_A, done(out))
}

#[test]
fn paths_and_elements_are_shown(rt: HostRuntime) -> Result<(), Fail> {
    let alloc = rt.alloc();
    let case = case_of(GOOD_WORDS);
    let disk = shows(alloc, empty_store(alloc)?, "")?;
    let disk = ended(alloc, &case, disk, CREATE_A, done(CREATED))?;
    let disk = shows(alloc, disk, SHOWN)?;
    let disk = ended(alloc, &case, disk, UNDO_A, done(UNDONE))?;
    let _ = shows(alloc, disk, SHOWN_UNDONE)?;
    Ok(())
}

/// A store over `a` and `c`, beside which another program put `b`.
fn with_another_file(alloc: Global) -> Result<MemDisk, Fail> {
    let mut tree = Tree::new(alloc);
    put(alloc, &mut tree, "a", "")?;
    put(alloc, &mut tree, "c", "")?;
    let mut disk = store_over(alloc, tree)?;
    let path = path_of(alloc, "b")?;
    if !disk.has_room(&path) {
        return Err(Fail::new("no room for the file"));
    }
    disk.store(&path, b"q")?;
    Ok(disk)
}

#[test]
fn a_file_without_a_version_is_shown(rt: HostRuntime) -> Result<(), Fail> {
    let alloc = rt.alloc();
    let disk = with_another_file(alloc)?;
    let _ = shows(alloc, disk, SHOWN_UNKNOWN)?;
    Ok(())
}

fn is_refused(
    alloc: Global,
    disk: MemDisk,
    out_fails: u64,
    status: u8,
    errs: &'static str,
) -> Result<MemDisk, Fail> {
    let case = Case {
        out_fails,
        ..case_of("show t s")
    };
    let out = "";
    ended(alloc, &case, disk, "", End { status, out, errs })
}

#[test]
fn what_cannot_be_shown_has_its_status(rt: HostRuntime) -> Result<(), Fail> {
    let alloc = rt.alloc();
    let blank = MemDisk::never_failing(alloc, Tree::new(alloc));
    let _ = is_refused(alloc, blank, 0, 7, "wsedit: not a store: byte 0\n")?;
    let disk = changed_outside(alloc)?;
    let _ = is_refused(alloc, disk, 0, 10, "wsedit: differs: a\n")?;
    let disk = with_another_file(alloc)?;
    let _ = is_refused(alloc, disk, 1, 4, "wsedit: writing failed\n")?;
    Ok(())
}
