// What lists of words ask for, row by row.
use std::test::Fail;
use wse_words::{Places, Words, read_words, usage_text};

/// TREE and STORE, told.
fn tell_places(places: &Places<'_>, told: &mut String) -> Result<(), Fail> {
    told.push_str(places.tree)?;
    told.push(' ')?;
    told.push_str(places.store)?;
    Ok(())
}

/// What is asked for, told.
fn tell(rt: HostRuntime, words: &Words<'_>, told: &mut String) -> Result<(), Fail> {
    match words {
        Words::Init(places) => {
            told.push_str("init ")?;
            tell_places(places, told)
        }
        Words::Show(places) => {
            told.push_str("show ")?;
            tell_places(places, told)
        }
        Words::Run {
            places,
            root,
            options,
        } => {
            tell_places(places, told)?;
            let adopt = options.adopt;
            let max_input = options.max_input;
            let root = root.as_str();
            let run = format!(in rt.alloc(); " {root} {adopt} {max_input}")?;
            told.push_str(run.as_str())?;
            Ok(())
        }
    }
}

/// Whether the line's words, parted by single spaces, ask for this. Nothing is told where they aren't understood.
fn asks(rt: HostRuntime, line: &str, want: &str) -> Result<bool, Fail> {
    let mut words = Vec::new(rt.alloc());
    for word in line.split(' ') {
        words.push(String::from_str(rt.alloc(), word)?)?;
    }
    let mut told = String::new(rt.alloc());
    if let Some(words) = read_words(rt.alloc(), words.as_slice())? {
        tell(rt, &words, &mut told)?;
    }
    Ok(told.as_str() == want)
}

#[test]
fn places_are_those_of_the_words(rt: HostRuntime) -> Result<(), Fail> {
    assert!(rt; asks(rt, "init t s", "init t s")?);
    assert!(rt; asks(rt, "show a/tree// ../store", "show a/tree// ../store")?);
    assert!(rt; asks(rt, "init t tt", "init t tt")?);
    assert!(rt; asks(rt, "init t/s t", "init t/s t")?);
    Ok(())
}

#[test]
fn places_that_cannot_be_are_refused(rt: HostRuntime) -> Result<(), Fail> {
    assert!(rt; asks(rt, "init t t", "")?);
    assert!(rt; asks(rt, "init t// t/", "")?);
    assert!(rt; asks(rt, "init t/ t/s", "")?);
    assert!(rt; asks(rt, "show -t s", "")?);
    assert!(rt; asks(rt, "show t ", "")?);
    Ok(())
}

#[test]
fn a_run_takes_its_options_in_either_order(rt: HostRuntime) -> Result<(), Fail> {
    assert!(rt; asks(rt, "run t s file:///w", "t s file:///w false 4294967296")?);
    assert!(rt;
        asks(
            rt,
            "run t s file:///w --adopt",
            "t s file:///w true 4294967296"
        )?
    );
    assert!(rt;
        asks(
            rt,
            "run t s file:///w --max-input 5",
            "t s file:///w false 5"
        )?
    );
    assert!(rt;
        asks(
            rt,
            "run t s file:///w --adopt --max-input 5",
            "t s file:///w true 5"
        )?
    );
    assert!(rt;
        asks(
            rt,
            "run t s file:///w --max-input 5 --adopt",
            "t s file:///w true 5"
        )?
    );
    Ok(())
}

#[test]
fn an_option_comes_once_and_whole(rt: HostRuntime) -> Result<(), Fail> {
    assert!(rt; asks(rt, "run t s file:///w --adopt --adopt", "")?);
    assert!(rt; asks(rt, "run t s file:///w --max-input", "")?);
    assert!(rt; asks(rt, "run t s file:///w --adopt --max-input", "")?);
    assert!(rt; asks(rt, "run t s file:///w --max-input 5 --max-input 5", "")?);
    assert!(rt; asks(rt, "run t s --adopt file:///w", "")?);
    Ok(())
}

#[test]
fn the_limit_of_input_is_a_number_from_1_to_2_62(rt: HostRuntime) -> Result<(), Fail> {
    let most = "run t s file:///w --max-input 4611686018427387904";
    assert!(rt; asks(rt, most, "t s file:///w false 4611686018427387904")?);
    assert!(rt; asks(rt, "run t s file:///w --max-input 4611686018427387905", "")?);
    assert!(rt; asks(rt, "run t s file:///w --max-input 0", "")?);
    assert!(rt; asks(rt, "run t s file:///w --max-input +5", "")?);
    assert!(rt; asks(rt, "run t s file:///w --max-input 05", "")?);
    Ok(())
}

#[test]
fn a_root_is_a_plain_file_url(rt: HostRuntime) -> Result<(), Fail> {
    assert!(rt; asks(rt, "run t s", "")?);
    assert!(rt; asks(rt, "run t s http://h/", "")?);
    assert!(rt; asks(rt, "run t s file://h/w", "")?);
    assert!(rt; asks(rt, "run t s file:///w?q", "")?);
    assert!(rt; asks(rt, "run t t/s file:///w", "")?);
    Ok(())
}

#[test]
fn other_words_ask_for_nothing(rt: HostRuntime) -> Result<(), Fail> {
    assert!(rt; asks(rt, "", "")?);
    assert!(rt; asks(rt, "init t", "")?);
    assert!(rt; asks(rt, "show t s x", "")?);
    assert!(rt; asks(rt, "--help", "")?);
    assert!(rt; asks(rt, "Init t s", "")?);
    Ok(())
}

#[test]
fn no_words_ask_for_nothing_and_the_usage_has_a_line_each(rt: HostRuntime) -> Result<(), Fail> {
    assert!(rt; read_words(rt.alloc(), &[])?.is_none());
    assert!(rt; usage_text().lines().count() == 3);
    Ok(())
}
