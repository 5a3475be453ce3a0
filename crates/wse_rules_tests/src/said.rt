// A ruling in words.
use std::alloc::Global;
use std::test::Fail;
use wse_path::Files;
use wse_rules::{Cause, Ruling};

fn paths(alloc: Global, files: &Files) -> Result<String, Fail> {
    let mut text = String::new(alloc);
    for file in files {
        text.push_str(" ")?;
        text.push_str(file.text(alloc)?.as_str())?;
    }
    Ok(text)
}

fn cause_word(cause: Cause) -> &'static str {
    match cause {
        Cause::Removed => "removed",
        Cause::Changed => "changed",
        Cause::Locked => "locked",
        Cause::Invalid => "invalid",
        Cause::Chosen => "chosen",
        Cause::Meantime => "meantime",
    }
}

/// What the ruling says, each file with a space before it.
pub fn said(alloc: Global, ruling: &Ruling) -> Result<String, Fail> {
    match ruling {
        Ruling::Nothing => Ok(String::from_str(alloc, "nothing")?),
        Ruling::Cancelled { id } => Ok(format!(in alloc; "cancelled {id}")?),
        Ruling::Go { id } => Ok(format!(in alloc; "go {id}")?),
        Ruling::Split { id, cause, files } => {
            let cause = cause_word(*cause);
            let files = paths(alloc, files)?;
            Ok(format!(in alloc; "split {id} {cause}:{}", files.as_str())?)
        }
        Ruling::Flush {
            cause,
            files,
            dropped,
        } => {
            let cause = cause_word(*cause);
            let files = paths(alloc, files)?;
            let dropped = paths(alloc, dropped)?;
            Ok(format!(in alloc;
                "flush {cause}:{} dropped:{}",
                files.as_str(),
                dropped.as_str()
            )?)
        }
        Ruling::Locked { files } => {
            let files = paths(alloc, files)?;
            Ok(format!(in alloc; "locked:{}", files.as_str())?)
        }
    }
}
