// Paths below the root.
ghost use Rattle.std.specs.Prelude.{◌≡◌, ◌↔◌, ◌≤◌, ℕ, List, None, Some, IfOk, IfErr, OnOk, IsTrue, All, length, position, slice_get, string_bytes};
ghost use Rattle.std.specs.Option.{option_copied};
ghost use Rattle.std.specs.Str.{IsUtf8};
ghost use Rattle.wse_path.specs.Path.{bytes_of, has_bad_byte, is_bad, text_of, refusal, IsPath, is_under};

use crate::items::Duplicate;
use crate::memory::Memory;
use crate::text::Text;
use std::alloc::Global;
use std::cmp::Ordering;
use std::hash::{Hash, Hasher};
use std::marker::Model;

/// The most segments of a path.
const MAX_DEPTH: usize = 64;

/// The most bytes of a segment.
const MAX_SEGMENT: usize = 255;

/// The most bytes of a path's text.
const MAX_TEXT: usize = 4096;

/// Why segments are no path. The first cause in this order counts. This project's own rule.
#[derive(Debug, Clone, Copy, PartialEq, Eq)]
pub enum PathRefused {
    /// There is no segment.
    Empty,
    /// There are more than 64 segments.
    TooDeep { depth: usize },
    /// The first segment that is empty, longer than 255 bytes, `.` or `..`, or has `/` or NUL in it.
    Segment { index: usize },
    /// The text is longer than 4,096 bytes.
    TooLong { bytes: usize },
}

/// A path below the root: 1 to 64 segments. Contracts see the list of the segments' bytes.
#[derive(Debug, Drop)]
pub struct RelPath {
    segments: Vec<String>,
}

impl Model for RelPath {
    ghost use Rattle.std.specs.Prelude.{List, ℕ};

    ghost Value = { List (List ℕ) };

    ghost use Rattle.wse_path.specs.Path.{bytes_of, IsPath};

    ghost view = { λ a. bytes_of a.segments.items };

    ghost invariant = { λ a. IsPath (bytes_of a.segments.items) };
}

fn has_bad_byte_in(segment: &str) -> bool
    ensures { result ≡ has_bad_byte segment.now }
{
    segment.as_bytes().iter().any(|b| *b == b'/' || *b == 0)
}

fn is_bad_segment(segment: &str) -> bool
    ensures { result ≡ is_bad segment.now }
{
    segment.is_empty()
        || segment.len() > MAX_SEGMENT
        || segment == "."
        || segment == ".."
        || has_bad_byte_in(segment)
}

fn first_bad(segments: &[String]) -> Option<usize>
    ensures { result ≡ position (λ s. is_bad (string_bytes s)) segments.now }
{
    segments.iter().position(|s| is_bad_segment(s.as_str()))
}

/// The length of the segments' text, joined by `/`.
fn text_bytes(segments: &[String]) -> usize
    requires few { length segments.now ≤ MAX_DEPTH }
    requires short { All (λ s. length (string_bytes s) ≤ MAX_SEGMENT) segments.now }
    ensures { result ≡ length (text_of (bytes_of segments.now)) }
{
    let mut sum: usize = 0;
    for s in segments {
        sum += s.len();
    }
    if segments.is_empty() {
        return 0;
    }
    sum + (segments.len() - 1)
}

impl RelPath {
    /// The path of these segments. Takes no memory.
    pub fn new(segments: Vec<String>) -> Result<RelPath, PathRefused>
        ensures ok { IfOk result (λ path. path ≡ bytes_of segments.items) }
        ensures taken { OnOk result (refusal (bytes_of segments.items) ≡ None) }
        ensures refused { IfErr result (λ why. refusal (bytes_of segments.items) ≡ Some why) }
    {
        if segments.is_empty() {
            return Err(PathRefused::Empty);
        }
        let depth = segments.len();
        if depth > MAX_DEPTH {
            return Err(PathRefused::TooDeep { depth });
        }
        if let Some(index) = first_bad(&segments) {
            return Err(PathRefused::Segment { index });
        }
        let bytes = text_bytes(&segments);
        if bytes > MAX_TEXT {
            return Err(PathRefused::TooLong { bytes });
        }
        Ok(RelPath { segments })
    }

    /// Whether the other path is a strict prefix of this one.
    pub fn is_under(&self, other: &RelPath) -> bool
        ensures { result ≡ is_under self.now other.now }
    {
        other.segments.len() < self.segments.len() && self.segments.starts_with(&other.segments)
    }

    /// The number of segments.
    pub fn depth(&self) -> usize
        ensures depth { result ≡ length self.now }
        ensures path { IsPath self.now }
        ensures utf8 { All IsUtf8 self.now }
    {
        self.segments.len()
    }

    /// The segment at a place, counted from 0.
    pub fn segment(&self, index: usize) -> Option<&str>
        ensures { option_copied result ≡ slice_get self.now index }
    {
        self.segments.get(index).map(String::as_str)
    }

    /// The segments.
    pub fn segments(&self) -> &[String]
        ensures { bytes_of result.now ≡ self.now }
    {
        &self.segments
    }

    /// How many bytes the text has: at most 4,096.
    pub fn text_len(&self) -> usize
        ensures len { result ≡ length (text_of self.now) }
        ensures short { result ≤ 4096 }
    {
        text_bytes(&self.segments)
    }

    /// The segments, joined by `/`.
    pub fn text(&self, alloc: Global) -> Result<Text, Memory>
        ensures { IfOk result (λ text. text ≡ text_of self.now) }
    {
        let mut text = String::new(alloc);
        for (index, segment) in self.segments.iter().enumerate() {
            if index > 0 {
                text.push('/')?;
            }
            text.push_str(segment.as_str())?;
        }
        Ok(Text::new(text))
    }
}

impl Duplicate for RelPath {
    fn duplicate(&self, alloc: Global) -> Result<RelPath, Memory> {
        let mut segments = Vec::with_capacity(alloc, self.segments.len())?;
        for segment in &self.segments {
            segments.push(String::from_str(alloc, segment.as_str())?)?;
        }
        Ok(RelPath { segments })
    }
}

impl PartialEq for RelPath {
    ghost use Rattle.std.specs.Prelude.{nat_eq, ◌≡◌, ◌↔◌, IsTrue};
    ghost use Rattle.std.specs.Cmp.Lexicographic.{pointwise, lists_equiv, nat_list_eq_equiv};
    ghost use Rattle.std.specs.Cmp.{partial_equiv_from_equiv};

    ghost eq = { pointwise (pointwise nat_eq) };

    ghost laws = { partial_equiv_from_equiv (lists_equiv nat_list_eq_equiv) };

    fn eq(&self, other: &RelPath) -> bool
        ensures eq { result ≡ pointwise (pointwise nat_eq) self.now other.now }
        ensures same { IsTrue result ↔ (self.now ≡ other.now) }
    {
        self.segments == other.segments
    }
}

impl Eq for RelPath {
    ghost use Rattle.std.specs.Cmp.Lexicographic.{lists_equiv, nat_list_eq_equiv};

    ghost laws = { lists_equiv nat_list_eq_equiv };
}

/// Path order: segment by segment, each by its bytes.
impl PartialOrd for RelPath {
    ghost use Rattle.std.specs.Prelude.{Some, refl};
    ghost use Rattle.std.specs.Ordering.{nat_cmp};
    ghost use Rattle.std.specs.Cmp.Lexicographic.{slice_cmp, lists_total, nat_list_cmp_total, lists_ties, texts_ties};
    ghost use Rattle.std.specs.Cmp.{partial_order_from_agreeing_total};

    ghost partial_cmp = { λ x y. Some (slice_cmp (slice_cmp nat_cmp) x y) };

    ghost laws = { partial_order_from_agreeing_total (slice_cmp (slice_cmp nat_cmp)) (lists_total nat_list_cmp_total) (λ x y. refl) (lists_ties (slice_cmp nat_cmp) texts_ties) };

    fn partial_cmp(&self, other: &RelPath) -> Option<Ordering> {
        Some(self.cmp(other))
    }
}

impl Ord for RelPath {
    ghost use Rattle.std.specs.Prelude.{refl};
    ghost use Rattle.std.specs.Ordering.{nat_cmp};
    ghost use Rattle.std.specs.Cmp.Lexicographic.{slice_cmp, lists_total, nat_list_cmp_total, lists_ties, texts_ties};

    ghost cmp = { slice_cmp (slice_cmp nat_cmp) };

    ghost total = { lists_total nat_list_cmp_total };

    ghost matches_partial_cmp = { λ x y. refl };

    ghost matches_eq = { lists_ties (slice_cmp nat_cmp) texts_ties };

    fn cmp(&self, other: &RelPath) -> Ordering {
        self.segments.cmp(&other.segments)
    }
}

impl Hash for RelPath {
    ghost use Rattle.std.specs.Hash as fed;
    ghost use Rattle.std.specs.Hash.{items_Alike};
    ghost use Rattle.wse_path.specs.Order.{texts_alike};

    ghost hash_input = { fed.slice fed.str };

    ghost respects_eq = { (items_Alike texts_alike).fed };

    fn hash<H: Hasher>(&self, state: &mut H) {
        self.segments.hash(state);
    }
}
