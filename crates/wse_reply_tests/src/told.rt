// Answers that tell a result, and what is known of a path.
use crate::given::{changed, files, path, reads};
use std::alloc::Global;
use std::test::Fail;
use wse_history::Answer;
use wse_path::{Hit, Text, Which};

const RESULTS: [(&str, &str); 12] = [
    ("taken", r#"{"n":7,"result":"taken"}"#),
    ("held", r#"{"files":["a","b/c"],"n":7,"result":"held"}"#),
    ("freed", r#"{"n":7,"result":"freed"}"#),
    ("not held", r#"{"file":"b/c","n":7,"result":"not held"}"#),
    ("left", r#"{"n":7,"result":"left"}"#),
    (
        "recorded",
        r#"{"changed":{"a":2},"n":7,"result":"recorded"}"#,
    ),
    ("same", r#"{"n":7,"result":"same"}"#),
    (
        "in the way",
        r#"{"files":["a","b/c"],"n":7,"result":"in the way"}"#,
    ),
    (
        "limit",
        r#"{"n":7,"result":"limit","which":"serial","would_be":9}"#,
    ),
    ("forgotten", r#"{"n":7,"result":"forgotten"}"#),
    ("nothing", r#"{"n":7,"result":"nothing"}"#),
    (
        "nothing known",
        r#"{"bytes":null,"future":null,"holder":null,"n":7,"past":null,"text":null,"version":0}"#,
    ),
];

const KNOWN: &str =
    r#"{"bytes":2,"future":null,"holder":4294967295,"n":7,"past":5,"text":"a\n","version":6}"#;

fn told(alloc: Global, name: &str) -> Result<Answer, Fail> {
    let answer = match name {
        "taken" => Answer::Taken,
        "held" => Answer::Held {
            files: files(alloc, "a b/c")?,
        },
        "freed" => Answer::Freed,
        "not held" => Answer::NotHeld {
            file: path(alloc, "b/c")?,
        },
        "left" => Answer::Left,
        "recorded" => Answer::Recorded {
            changed: changed(alloc, "a")?,
        },
        "same" => Answer::Same,
        _ => told_of_files(alloc, name)?,
    };
    Ok(answer)
}

fn told_of_files(alloc: Global, name: &str) -> Result<Answer, Fail> {
    let answer = match name {
        "in the way" => Answer::OutsideInTheWay {
            files: files(alloc, "a b/c")?,
        },
        "limit" => Answer::Refused {
            hit: Hit {
                which: Which::Serial,
                would_be: 9,
            },
        },
        "forgotten" => Answer::Forgotten,
        "nothing" => Answer::NothingThere,
        _ => Answer::Look {
            bytes: None,
            text: None,
            version: 0,
            past: None,
            future: None,
            holder: None,
        },
    };
    Ok(answer)
}

fn is_told(alloc: Global, name: &str, text: &str) -> Result<bool, Fail> {
    let answer = told(alloc, name)?;
    reads(alloc, answer, text)
}

fn looks(alloc: Global, text: &str) -> Result<bool, Fail> {
    let answer = Answer::Look {
        bytes: Some(2),
        text: Some(Text::new(String::from_str(alloc, "a\n")?)),
        version: 6,
        past: Some(5),
        future: None,
        holder: Some(4_294_967_295),
    };
    reads(alloc, answer, text)
}

#[test]
fn results_are_told_by_their_names(rt: HostRuntime) -> Result<(), Fail> {
    let alloc = rt.alloc();
    for (name, text) in &RESULTS {
        assert!(rt; is_told(alloc, name, text)?);
    }
    Ok(())
}

#[test]
fn a_look_tells_what_is_known(rt: HostRuntime) -> Result<(), Fail> {
    let alloc = rt.alloc();
    assert!(rt; looks(alloc, KNOWN)?);
    Ok(())
}
