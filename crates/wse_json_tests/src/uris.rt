// URIs below a root, and those that are written. A row is a URI or a segment, ` => `, and what comes of it.
use std::alloc::Global;
use std::test::Fail;
use wse_path::RelPath;
use wse_uri::{RootRefused, UriRefused, path_of, root_of, uri_of};

/// The path of one segment.
fn path_with(alloc: Global, segment: &str) -> Result<RelPath, Fail> {
    Ok(RelPath::new(vec![in alloc; String::from_str(alloc, segment)?]?)?)
}

const NAMES: &str = "file:///w/a%20b => a b
file://localhost/w/a => a
file:///w/x/../a => a";

/// Whether the row's URI names the path of the row's segment.
fn names(alloc: Global, root: &str, row: &str) -> Result<bool, Fail> {
    let (uri, segment) = row.split_once(" => ").ok_or("a row without an arrow")?;
    let root = root_of(alloc, root)?;
    Ok(path_of(alloc, &root, uri)? == path_with(alloc, segment)?)
}

fn all_name(alloc: Global, root: &str) -> Result<bool, Fail> {
    for row in NAMES.lines() {
        if !names(alloc, root, row)? {
            return Ok(false);
        }
    }
    Ok(true)
}

#[test]
fn uris_below_the_root_name_paths(rt: HostRuntime) -> Result<(), Fail> {
    assert!(rt; all_name(rt.alloc(), "file:///w/")?);
    assert!(rt; all_name(rt.alloc(), "file:///w")?);
    Ok(())
}

const REFUSALS: &str = "w/a => NotUrl
http://h/w/a => NotFile
file://h/w/a => HasHost
file:///w/a? => HasQuery
file:///w/a#x => HasFragment
file:///v/a => OutsideRoot
file:///w/ => IsRoot
file:///w/%FF => Escape { segment: 0 }
file:///w/a//b => Path(Segment { index: 1 })
file:///w/a%2Fb => Path(Segment { index: 0 })";

/// Whether the row's URI is refused as the row says.
fn is_refused(alloc: Global, root: &str, row: &str) -> Result<bool, Fail> {
    let (uri, want) = row.split_once(" => ").ok_or("a row without an arrow")?;
    let root = root_of(alloc, root)?;
    match path_of(alloc, &root, uri) {
        Ok(_) => Ok(false),
        Err(why) => Ok(format!(in alloc; "{why:?}")?.as_str() == want),
    }
}

fn all_are_refused(alloc: Global, root: &str) -> Result<bool, Fail> {
    for row in REFUSALS.lines() {
        if !is_refused(alloc, root, row)? {
            return Ok(false);
        }
    }
    Ok(true)
}

#[test]
fn each_refusal_comes_in_its_case(rt: HostRuntime) -> Result<(), Fail> {
    assert!(rt; all_are_refused(rt.alloc(), "file:///w/")?);
    assert!(rt; all_are_refused(rt.alloc(), "file:///w")?);
    Ok(())
}

const WORDS: &str = "w/a => not a URL
http://h/w/a => not a file URI
file://h/w/a => has a host
file:///w/a? => has a query
file:///w/a#x => has a fragment
file:///v/a => outside the root
file:///w/ => is the root
file:///w/%FF => segment 0 is not UTF-8
file:///w/a//b => segment 1 is not a name";

/// Whether the row's URI is refused in the row's words.
fn is_refused_in_words(alloc: Global, root: &str, row: &str) -> Result<bool, Fail> {
    let (uri, want) = row.split_once(" => ").ok_or("a row without an arrow")?;
    let root = root_of(alloc, root)?;
    match path_of(alloc, &root, uri) {
        Ok(_) => Ok(false),
        Err(why) => Ok(why.to_string(alloc)?.as_str() == want),
    }
}

fn all_are_refused_in_words(alloc: Global, root: &str) -> Result<bool, Fail> {
    for row in WORDS.lines() {
        if !is_refused_in_words(alloc, root, row)? {
            return Ok(false);
        }
    }
    Ok(true)
}

#[test]
fn refusals_have_their_words(rt: HostRuntime) -> Result<(), Fail> {
    assert!(rt; all_are_refused_in_words(rt.alloc(), "file:///w/")?);
    Ok(())
}

/// The path that the URI names below the root, the root being a text too.
fn path_below(alloc: Global, root: &str, uri: &str) -> Result<RelPath, UriRefused> {
    let root = root_of(alloc, root)?;
    path_of(alloc, &root, uri)
}

#[test]
fn without_a_root_a_uri_is_outside(rt: HostRuntime) {
    let refused = path_below(rt.alloc(), "http://h/", "file:///w/a").err();
    assert!(rt; refused == Some(UriRefused::OutsideRoot));
}

const NO_ROOTS: &str = "w
http://h/
http://h/w
file://h/w
file:///w?
file:///w#";

fn is_no_root(alloc: Global, text: &str) -> bool {
    root_of(alloc, text).err() == Some(RootRefused::NotARoot)
}

fn are_no_roots(alloc: Global, texts: &str) -> bool {
    for text in texts.lines() {
        if !is_no_root(alloc, text) {
            return false;
        }
    }
    true
}

#[test]
fn no_other_text_is_a_root(rt: HostRuntime) {
    assert!(rt; are_no_roots(rt.alloc(), NO_ROOTS));
}

fn says_why(alloc: Global, text: &str, words: &str) -> Result<bool, Fail> {
    match root_of(alloc, text) {
        Ok(_) => Ok(false),
        Err(why) => Ok(format!(in alloc; "{why}")?.as_str() == words),
    }
}

#[test]
fn why_a_text_is_no_root_is_shown(rt: HostRuntime) -> Result<(), Fail> {
    let words = "not a file URL without host, query and fragment";
    assert!(rt; says_why(rt.alloc(), "http://h/", words)?);
    Ok(())
}

const ESCAPES: &str = "a b => file:///w/a%20b
aZ09-._~ => file:///w/aZ09-._~
é?#% => file:///w/%C3%A9%3F%23%25";

/// Whether the URI that is written for the row's segment is the row's.
fn is_written(alloc: Global, root: &str, row: &str) -> Result<bool, Fail> {
    let (segment, want) = row.split_once(" => ").ok_or("a row without an arrow")?;
    let root = root_of(alloc, root)?;
    let path = path_with(alloc, segment)?;
    Ok(uri_of(alloc, &root, &path)?.as_str() == want)
}

fn all_are_written(alloc: Global, root: &str) -> Result<bool, Fail> {
    for row in ESCAPES.lines() {
        if !is_written(alloc, root, row)? {
            return Ok(false);
        }
    }
    Ok(true)
}

#[test]
fn all_but_unreserved_characters_are_escaped(rt: HostRuntime) -> Result<(), Fail> {
    assert!(rt; all_are_written(rt.alloc(), "file:///w/")?);
    assert!(rt; all_are_written(rt.alloc(), "file:///w")?);
    Ok(())
}

/// Whether the URI that is written for the path is read as a URL with the same text, and names the path.
fn is_read_back(alloc: Global, root: &str, path: &RelPath) -> Result<bool, Fail> {
    let root = root_of(alloc, root)?;
    let uri = uri_of(alloc, &root, path)?;
    let url = root_of(alloc, uri.as_str())?;
    Ok(url.as_str() == uri.as_str() && path_of(alloc, &root, uri.as_str())? == *path)
}

fn segment_is_read_back(alloc: Global, root: &str, character: char) -> Result<bool, Fail> {
    let mut segment = String::new(alloc);
    segment.push(character)?;
    let path = path_with(alloc, segment.as_str())?;
    is_read_back(alloc, root, &path)
}

/// A segment of this character alone, which may be none.
fn character_is_read_back(alloc: Global, root: &str, character: char) -> Result<bool, Fail> {
    if character == '/' || character == '.' {
        return Ok(true);
    }
    segment_is_read_back(alloc, root, character)
}

fn ascii_is_read_back(alloc: Global, root: &str) -> Result<bool, Fail> {
    for code in 1..128 {
        if !character_is_read_back(alloc, root, char::from(code))? {
            return Ok(false);
        }
    }
    Ok(true)
}

fn all_is_read_back(alloc: Global, root: &str) -> Result<bool, Fail> {
    Ok(
        ascii_is_read_back(alloc, root)?
            && character_is_read_back(alloc, root, 'é')?
            && character_is_read_back(alloc, root, '😀')?,
    )
}

#[test]
fn the_url_parser_reads_uris_back(rt: HostRuntime) -> Result<(), Fail> {
    assert!(rt; all_is_read_back(rt.alloc(), "file:///w")?);
    assert!(rt; all_is_read_back(rt.alloc(), "file:///w/")?);
    assert!(rt; all_is_read_back(rt.alloc(), "file:///a/b")?);
    Ok(())
}
