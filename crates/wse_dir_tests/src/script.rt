// Calls on a disk over real folders, told by the words of a text.
use std::io::ErrorKind;
use std::test::Fail;
use std::{env, fs, io};
use wse_dir::DirDisk;
use wse_disk::{Area, Disk, Failed, Place};
use wse_path::RelPath;

/// A new folder, which is empty.
pub fn new_folder(rt: HostRuntime) -> Result<String, Fail> {
    let above = env::temp_dir(&rt)?;
    let above = above.as_str();
    for i in 0..10_000u32 {
        let place = format!(in rt.alloc(); "{above}/wse_dir_tests-{i}")?;
        match fs::create_dir(&rt, place.as_str()) {
            Ok(()) => return Ok(place),
            Err(e) => {
                if e.kind() != ErrorKind::AlreadyExists {
                    return Err(Fail::from(e));
                }
            }
        }
    }
    Err(Fail::from(io::Error::from(ErrorKind::AlreadyExists)))
}

/// Removes the folder with what is below it.
pub fn remove(rt: HostRuntime, folder: &str) -> Result<(), Fail> {
    fs::remove_dir_all(&rt, folder)?;
    Ok(())
}

/// What the name is below the folder.
pub fn below(rt: HostRuntime, folder: &str, name: &str) -> Result<String, Fail> {
    Ok(format!(in rt.alloc(); "{folder}/{name}")?)
}

/// Whether something is there.
pub fn is_there(rt: HostRuntime, folder: &str, name: &str) -> Result<bool, Fail> {
    let place = below(rt, folder, name)?;
    Ok(fs::symlink_metadata(&rt, place.as_str()).is_ok())
}

/// Makes a folder below the folder, with those above it.
pub fn make(rt: HostRuntime, folder: &str, name: &str) -> Result<(), Fail> {
    let place = below(rt, folder, name)?;
    fs::create_dir_all(&rt, place.as_str())?;
    Ok(())
}

/// Makes a link below the folder.
pub fn link(rt: HostRuntime, folder: &str, name: &str, target: &str) -> Result<(), Fail> {
    let place = below(rt, folder, name)?;
    std::os::unix::fs::symlink(&rt, target, place.as_str())?;
    Ok(())
}

/// A disk over the folders `tree` and `store` below the folder.
pub fn placed(rt: HostRuntime, folder: &str) -> Result<DirDisk<HostRuntime>, Fail> {
    let tree = below(rt, folder, "tree")?;
    let store = below(rt, folder, "store")?;
    let mut disk = DirDisk::new(rt);
    disk.place(tree.as_str(), store.as_str())?;
    Ok(disk)
}

/// Tells `.` or a fault, `!`.
fn tell_done(answer: Result<(), Failed>, told: &mut String) -> Result<(), Fail> {
    match answer {
        Ok(()) => told.push('.')?,
        Err(Failed) => told.push('!')?,
    }
    Ok(())
}

/// Tells bytes, each 0 as `0`.
fn tell_bytes(bytes: &[u8], told: &mut String) -> Result<(), Fail> {
    for byte in bytes {
        if *byte == 0 {
            told.push('0')?;
        } else {
            told.push(char::from(*byte))?;
        }
    }
    Ok(())
}

/// Tells the paths with a comma behind each.
fn tell_names(
    rt: HostRuntime,
    disk: &mut DirDisk<HostRuntime>,
    told: &mut String,
) -> Result<(), Fail> {
    let mut names = Vec::new(rt.alloc());
    if disk.names(rt.alloc(), &mut names).is_err() {
        told.push('!')?;
        return Ok(());
    }
    for name in names.iter() {
        told.push_str(name.to_string(rt.alloc())?.as_str())?;
        told.push(',')?;
    }
    Ok(())
}

/// Tells the content, or `-` where there is no file.
fn tell_file(
    rt: HostRuntime,
    disk: &mut DirDisk<HostRuntime>,
    path: &RelPath,
    told: &mut String,
) -> Result<(), Fail> {
    let mut bytes = Vec::new(rt.alloc());
    match disk.load(rt.alloc(), path, &mut bytes) {
        Ok(true) => tell_bytes(bytes.as_slice(), told)?,
        Ok(false) => told.push('-')?,
        Err(_) => told.push('!')?,
    }
    Ok(())
}

/// Tells how many bytes the file has, or `-` where there is none.
fn tell_size(
    rt: HostRuntime,
    disk: &mut DirDisk<HostRuntime>,
    path: &RelPath,
    told: &mut String,
) -> Result<(), Fail> {
    match disk.size(path) {
        Ok(Some(size)) => told.push_str(size.to_string(rt.alloc())?.as_str())?,
        Ok(None) => told.push('-')?,
        Err(Failed) => told.push('!')?,
    }
    Ok(())
}

/// Tells how many bytes log A has.
fn tell_length(
    rt: HostRuntime,
    disk: &mut DirDisk<HostRuntime>,
    told: &mut String,
) -> Result<(), Fail> {
    match disk.area_len(Area::LogA) {
        Ok(length) => told.push_str(length.to_string(rt.alloc())?.as_str())?,
        Err(Failed) => told.push('!')?,
    }
    Ok(())
}

/// Tells four bytes of log A from the place on.
fn tell_part(disk: &mut DirDisk<HostRuntime>, at: u64, told: &mut String) -> Result<(), Fail> {
    let mut bytes = [0u8; 4];
    match disk.area_read(Area::LogA, at, &mut bytes) {
        Ok(()) => tell_bytes(&bytes, told)?,
        Err(Failed) => told.push('!')?,
    }
    Ok(())
}

/// Makes the call on log A that the word tells.
fn act_on_area(
    rt: HostRuntime,
    disk: &mut DirDisk<HostRuntime>,
    parts: (&str, &str, &str),
    told: &mut String,
) -> Result<(), Fail> {
    let (kind, at, content) = parts;
    let at: u64 = at.parse().unwrap_or(u64::MAX);
    match kind {
        "length" => tell_length(rt, disk, told),
        "part" => tell_part(disk, at, told),
        _ => tell_done(disk.area_write(Area::LogA, at, content.as_bytes()), told),
    }
}

/// Makes the call on a path that the word tells.
fn act_on_path(
    rt: HostRuntime,
    disk: &mut DirDisk<HostRuntime>,
    parts: (&str, &str, &str),
    told: &mut String,
) -> Result<(), Fail> {
    let (kind, name, content) = parts;
    let path = RelPath::from_text(rt.alloc(), name)?;
    match kind {
        "store" => tell_done(disk.store(&path, content.as_bytes()), told),
        "erase" => tell_done(disk.erase(&path), told),
        "size" => tell_size(rt, disk, &path, told),
        _ => tell_file(rt, disk, &path, told),
    }
}

/// Makes the call that the word tells.
fn act(
    rt: HostRuntime,
    disk: &mut DirDisk<HostRuntime>,
    word: &str,
    told: &mut String,
) -> Result<(), Fail> {
    let mut parts = word.split(':');
    let kind = parts.next().unwrap_or("");
    let name = parts.next().unwrap_or("");
    let content = parts.next().unwrap_or("");
    match kind {
        "names" => tell_names(rt, disk, told),
        "sync" => tell_done(disk.sync(), told),
        "write" | "part" | "length" => act_on_area(rt, disk, (kind, name, content), told),
        _ => act_on_path(rt, disk, (kind, name, content), told),
    }
}

/// Makes the calls that the words tell, one after another, and tells what each answers. They are `store:PATH:CONTENT`,
/// `erase:PATH`, `load:PATH`, `size:PATH`, `names`, `sync`, and on log A `write:AT:BYTES`, `part:AT` for four bytes, and
/// `length`.
pub fn told(rt: HostRuntime, disk: &mut DirDisk<HostRuntime>, words: &str) -> Result<String, Fail> {
    let mut told = String::new(rt.alloc());
    for word in words.split(' ') {
        if !told.is_empty() {
            told.push(' ')?;
        }
        act(rt, disk, word, &mut told)?;
    }
    Ok(told)
}

/// Whether the calls answer so.
pub fn answers(
    rt: HostRuntime,
    disk: &mut DirDisk<HostRuntime>,
    words: &str,
    want: &str,
) -> Result<bool, Fail> {
    Ok(told(rt, disk, words)?.as_str() == want)
}
