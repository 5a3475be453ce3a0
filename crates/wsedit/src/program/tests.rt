// The statuses of runs and their lines at errs, over objects in memory; and where the disk is placed.
mod shown;

use super::*;
use std::test::Fail;
use wse_apply::are_within_standard;
use wse_disk::{Area, Disk, Failed, MemDisk, ReadErr};
use wse_io::{MemSink, MemSource};
use wse_path::{Bytes, RelPath, Tree};

const GOOD_WORDS: &str = "run t s file:///w";

const CREATE_A: &str =
    r#"{"do":"edit","edit":{"documentChanges":[{"kind":"create","uri":"file:///w/a"}]}}
"#;

const CREATE_A_TWICE: &str =
    r#"{"do":"edit","edit":{"documentChanges":[{"kind":"create","uri":"file:///w/a"}]}}
{"do":"edit","edit":{"documentChanges":[{"kind":"create","uri":"file:///w/a"}]}}
"#;

const CREATED: &str = r#"{"applied":true,"changed":{"a":1},"element":1,"n":1,"skipped":[]}
"#;

const CREATED_THEN_EXISTS: &str =
    r#"{"applied":true,"changed":{"a":1},"element":1,"n":1,"skipped":[]}
{"applied":false,"changed":{},"element":null,"failedChange":0,"failureReason":"exists","n":2,"skipped":[]}
"#;

const UNDO_A: &str = r#"{"do":"undo","uri":"file:///w/a"}
"#;

const UNDONE: &str = r#"{"changed":{"a":2},"element":1,"n":1,"result":"done"}
"#;

const LOOK_AT_A: &str = r#"{"do":"look","uri":"file:///w/a"}
"#;

const ADOPTED: &str =
    r#"{"bytes":1,"future":null,"holder":null,"n":1,"past":1,"text":"q","version":2}
"#;

const NO_VERB: &str = "{\"at\":\"/do\",\"n\":1,\"refused\":\"field\"}\n";

const UNKNOWN_WORDS: &str = "wsedit: words not understood
usage: wsedit init TREE STORE
usage: wsedit run TREE STORE ROOT [--adopt] [--max-input N]
usage: wsedit show TREE STORE
";

/// What a run works on, beside its disk and its input. The call with the number of a `fails` fails; 0 is none.
#[derive(Clone, Copy)]
struct Case {
    words: &'static str,
    limits: Limits,
    source_fails: u64,
    out_fails: u64,
    errs_fails: u64,
}

/// How a run ends: its status, its answers and its line at errs.
#[derive(Clone, Copy)]
struct End {
    status: u8,
    out: &'static str,
    errs: &'static str,
}

fn case_of(words: &'static str) -> Case {
    Case {
        words,
        limits: Limits::standard(),
        source_fails: 0,
        out_fails: 0,
        errs_fails: 0,
    }
}

fn done(out: &'static str) -> End {
    End {
        status: 0,
        out,
        errs: "",
    }
}

/// The words of a command line, which spaces part.
fn words_of(alloc: Global, line: &str) -> Result<Vec<String>, Fail> {
    let mut words = Vec::new(alloc);
    for word in line.split(' ') {
        words.push(String::from_str(alloc, word)?)?;
    }
    Ok(words)
}

fn sink_of(alloc: Global, fails: u64) -> Result<MemSink, Fail> {
    Ok(MemSink::new(alloc, 65_536, [fails].to_vec(alloc)?))
}

fn source_of(alloc: Global, input: &str, fails: u64) -> Result<MemSource, Fail> {
    let bytes = input.as_bytes().to_vec(alloc)?;
    Ok(MemSource::new(bytes, 65_536, [fails].to_vec(alloc)?))
}

/// The disk after the run of the case over it, if it ended so.
fn ended<D: Place + Drop>(
    alloc: Global,
    case: &Case,
    disk: D,
    input: &str,
    end: End,
) -> Result<D, Fail> {
    let words = words_of(alloc, case.words)?;
    let mut source = source_of(alloc, input, case.source_fails)?;
    let mut out = sink_of(alloc, case.out_fails)?;
    let mut errs = sink_of(alloc, case.errs_fails)?;
    if !are_within_standard(&case.limits) {
        return Err(Fail::new("limits above the program's"));
    }
    let Ended { status, disk } = run_within(
        alloc,
        &words,
        &mut source,
        &mut out,
        &mut errs,
        disk,
        case.limits,
    );
    if status != end.status {
        return Err(Fail::new("another status"));
    }
    if out.bytes() != end.out.as_bytes() {
        return Err(Fail::new("other answers"));
    }
    if errs.bytes() != end.errs.as_bytes() {
        return Err(Fail::new("another line at errs"));
    }
    Ok(disk)
}

/// A disk on which a store was made over the tree.
fn store_over(alloc: Global, tree: Tree) -> Result<MemDisk, Fail> {
    let disk = MemDisk::never_failing(alloc, tree);
    ended(alloc, &case_of("init t s"), disk, "", done(""))
}

fn empty_store(alloc: Global) -> Result<MemDisk, Fail> {
    store_over(alloc, Tree::new(alloc))
}

const OTHER_WORDS: &str = "run t s
run t t/s file:///w
run t s http://h/
run t s w
run t s file:///w x
run t s file:///w --max-input 0
init t t/s
show t
show t t/s
show t s file:///w
ran t s file:///w
";

fn touch_nothing(alloc: Global, words: &'static str) -> Result<(), Fail> {
    let end = End {
        status: 2,
        out: "",
        errs: UNKNOWN_WORDS,
    };
    let disk = MemDisk::never_failing(alloc, Tree::new(alloc));
    let _ = ended(alloc, &case_of(words), disk, CREATE_A, end)?;
    Ok(())
}

#[test]
fn words_that_are_not_understood_touch_nothing(rt: HostRuntime) -> Result<(), Fail> {
    for words in OTHER_WORDS.lines() {
        touch_nothing(rt.alloc(), words)?;
    }
    Ok(())
}

const ROOTS: &str = "run t s file:///w
run t s file:///w/
run t s file://localhost/w
run t s file:///%77 --adopt
";

const CREATE_A_BY_ANOTHER_NAME: &str =
    r#"{"do":"edit","edit":{"documentChanges":[{"kind":"create","uri":"file:///w/x/../%61"}]}}
"#;

fn has_the_root(alloc: Global, words: &'static str) -> Result<(), Fail> {
    let disk = empty_store(alloc)?;
    let _ = ended(
        alloc,
        &case_of(words),
        disk,
        CREATE_A_BY_ANOTHER_NAME,
        done(CREATED),
    )?;
    Ok(())
}

#[test]
fn any_file_url_is_a_root(rt: HostRuntime) -> Result<(), Fail> {
    for words in ROOTS.lines() {
        has_the_root(rt.alloc(), words)?;
    }
    Ok(())
}

fn second_read_fails(
    alloc: Global,
    input: &'static str,
    out: &'static str,
) -> Result<MemDisk, Fail> {
    let case = Case {
        source_fails: 2,
        ..case_of(GOOD_WORDS)
    };
    let end = End {
        status: 3,
        out,
        errs: "wsedit: reading failed\n",
    };
    ended(alloc, &case, empty_store(alloc)?, input, end)
}

fn second_answer_fails(alloc: Global) -> Result<MemDisk, Fail> {
    let case = Case {
        out_fails: 2,
        ..case_of(GOOD_WORDS)
    };
    let end = End {
        status: 4,
        out: CREATED,
        errs: "wsedit: writing failed\n",
    };
    ended(alloc, &case, empty_store(alloc)?, CREATE_A_TWICE, end)
}

fn disk_fails(alloc: Global, errs_fails: u64, errs: &'static str) -> Result<MemDisk, Fail> {
    let case = Case {
        errs_fails,
        ..case_of("init t s")
    };
    let end = End {
        status: 5,
        out: "",
        errs,
    };
    let disk = MemDisk::new(alloc, Tree::new(alloc), [1].to_vec(alloc)?);
    ended(alloc, &case, disk, "", end)
}

fn input_is_too_long(alloc: Global) -> Result<MemDisk, Fail> {
    let end = End {
        status: 9,
        out: NO_VERB,
        errs: "wsedit: input past 5 bytes\n",
    };
    let case = case_of("run t s file:///w --max-input 5");
    ended(alloc, &case, empty_store(alloc)?, "{}\n{}\n", end)
}

#[test]
fn a_fault_has_its_status_and_line(rt: HostRuntime) -> Result<(), Fail> {
    let alloc = rt.alloc();
    let _ = second_read_fails(alloc, CREATE_A_TWICE, CREATED_THEN_EXISTS)?;
    let _ = second_answer_fails(alloc)?;
    let _ = disk_fails(alloc, 0, "wsedit: disk failed\n")?;
    let _ = disk_fails(alloc, 1, "")?;
    let _ = input_is_too_long(alloc)?;
    Ok(())
}

fn path_of(alloc: Global, name: &str) -> Result<RelPath, Fail> {
    Ok(RelPath::from_text(alloc, name)?)
}

fn put(alloc: Global, tree: &mut Tree, name: &str, bytes: &str) -> Result<(), Fail> {
    let path = path_of(alloc, name)?;
    if !tree.fits(&path) {
        return Err(Fail::new("no room for the file"));
    }
    tree.put(path, Bytes::new(bytes.as_bytes().to_vec(alloc)?))?;
    Ok(())
}

fn two_files(alloc: Global) -> Result<Tree, Fail> {
    let mut tree = Tree::new(alloc);
    put(alloc, &mut tree, "a", "")?;
    put(alloc, &mut tree, "b", "")?;
    Ok(tree)
}

fn is_too_big(alloc: Global, words: &'static str, disk: MemDisk) -> Result<MemDisk, Fail> {
    let limits = Limits {
        files: 1,
        ..Limits::standard()
    };
    let case = Case {
        limits,
        ..case_of(words)
    };
    let end = End {
        status: 8,
        out: "",
        errs: "wsedit: too big: files 2\n",
    };
    ended(alloc, &case, disk, CREATE_A, end)
}

#[test]
fn a_tree_that_is_too_big_has_status_8(rt: HostRuntime) -> Result<(), Fail> {
    let alloc = rt.alloc();
    let tree = two_files(alloc)?;
    let _ = is_too_big(alloc, "init t s", MemDisk::never_failing(alloc, tree))?;
    let tree = two_files(alloc)?;
    let _ = is_too_big(alloc, GOOD_WORDS, store_over(alloc, tree)?)?;
    Ok(())
}

#[test]
fn a_run_goes_on_from_the_last(rt: HostRuntime) -> Result<(), Fail> {
    let alloc = rt.alloc();
    let case = case_of(GOOD_WORDS);
    let disk = ended(alloc, &case, empty_store(alloc)?, CREATE_A, done(CREATED))?;
    let disk = ended(alloc, &case, disk, "", done(""))?;
    let _ = ended(alloc, &case, disk, UNDO_A, done(UNDONE))?;
    Ok(())
}

/// A store whose file `a` another program changed.
fn changed_outside(alloc: Global) -> Result<MemDisk, Fail> {
    let case = case_of(GOOD_WORDS);
    let mut disk = ended(alloc, &case, empty_store(alloc)?, CREATE_A, done(CREATED))?;
    let path = path_of(alloc, "a")?;
    if !disk.has_room(&path) {
        return Err(Fail::new("no room for the file"));
    }
    disk.store(&path, b"q")?;
    disk.sync()?;
    Ok(disk)
}

#[test]
fn what_differs_is_adopted_where_the_words_say_so(rt: HostRuntime) -> Result<(), Fail> {
    let alloc = rt.alloc();
    let end = End {
        status: 10,
        out: "",
        errs: "wsedit: differs: a\n",
    };
    let disk = changed_outside(alloc)?;
    let disk = ended(alloc, &case_of(GOOD_WORDS), disk, LOOK_AT_A, end)?;
    let case = case_of("run t s file:///w --adopt");
    let _ = ended(alloc, &case, disk, LOOK_AT_A, done(ADOPTED))?;
    Ok(())
}

/// A disk without files, which keeps nothing. It counts how often it is placed, compares the words, and knows whether it
/// was synced before that.
#[derive(Drop)]
struct Blank {
    faults: u64,
    places: u8,
    as_said: bool,
    used_too_early: bool,
}

impl Disk for Blank {
    ghost moment_of = { λ _. 0 };

    ghost faults = { λ d. d.faults };

    ghost reads_an_image = { λ _. tt };

    ghost counts_moments = { λ _. tt };

    fn moment(&self) -> u64 {
        0
    }

    fn names(&mut self, _alloc: Global, into: &mut Vec<RelPath>) -> Result<(), ReadErr> {
        into.clear();
        Ok(())
    }

    fn size(&mut self, _path: &RelPath) -> Result<Option<u64>, Failed> {
        Ok(None)
    }

    fn load(
        &mut self,
        _alloc: Global,
        _path: &RelPath,
        _into: &mut Vec<u8>,
    ) -> Result<bool, ReadErr> {
        Ok(false)
    }

    fn store(&mut self, _path: &RelPath, _bytes: &[u8]) -> Result<(), Failed> {
        Ok(())
    }

    fn erase(&mut self, _path: &RelPath) -> Result<(), Failed> {
        Ok(())
    }

    fn area_len(&mut self, _area: Area) -> Result<u64, Failed> {
        Ok(0)
    }

    fn area_read(&mut self, _area: Area, _at: u64, _into: &mut [u8]) -> Result<(), Failed> {
        Ok(())
    }

    fn area_write(&mut self, _area: Area, _at: u64, _bytes: &[u8]) -> Result<(), Failed> {
        self.faults = self.faults.saturating_add(1);
        Err(Failed)
    }

    fn sync(&mut self) -> Result<(), Failed> {
        self.used_too_early = self.used_too_early || self.places == 0;
        Ok(())
    }
}

impl Place for Blank {
    fn place(&mut self, tree: &str, store: &str) -> Result<(), Failed> {
        self.places = self.places.saturating_add(1);
        self.as_said = tree == "t" && store == "s";
        Ok(())
    }
}

fn placed_by(alloc: Global, words: &str) -> Result<Blank, Fail> {
    let words = words_of(alloc, words)?;
    let disk = Blank {
        faults: 0,
        places: 0,
        as_said: false,
        used_too_early: false,
    };
    let mut source = source_of(alloc, CREATE_A, 0)?;
    let mut out = sink_of(alloc, 0)?;
    let mut errs = sink_of(alloc, 0)?;
    let Ended { status: _, disk } = run(alloc, &words, &mut source, &mut out, &mut errs, disk);
    Ok(disk)
}

fn is_placed_once_as_said(alloc: Global, words: &str) -> Result<bool, Fail> {
    let disk = placed_by(alloc, words)?;
    Ok(disk.places == 1 && disk.as_said && !disk.used_too_early)
}

fn is_not_placed(alloc: Global) -> Result<bool, Fail> {
    let disk = placed_by(alloc, "run t s w")?;
    Ok(disk.places == 0)
}

#[test]
fn the_disk_is_placed_once_where_the_words_say(rt: HostRuntime) -> Result<(), Fail> {
    assert!(rt; is_placed_once_as_said(rt.alloc(), GOOD_WORDS)?);
    assert!(rt; is_placed_once_as_said(rt.alloc(), "init t s")?);
    assert!(rt; is_placed_once_as_said(rt.alloc(), "show t s")?);
    assert!(rt; is_not_placed(rt.alloc())?);
    Ok(())
}
