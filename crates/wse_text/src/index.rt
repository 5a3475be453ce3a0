// Where positions lie in a text, for many positions.
ghost use Rattle.std.specs.Prelude.{◌≡◌, ◌≤◌, All, Contains, IfOk, IfErr, IfSome, OnOk};
ghost use Rattle.std.specs.Str.{IsCharBoundary};
ghost use Rattle.wse_text.specs.Index.{IsIndexOf, IsMark};
ghost use Rattle.wse_text.specs.Lines.{AreLineStarts};
ghost use Rattle.wse_text.specs.Place.{line_at, line_starts, offset_of, place_on_line};

use crate::place::{Inside, along_line, begins_line, ends_line, units_of};
use std::alloc::Global;
use std::marker::Model;
use wse_path::{Encoding, Memory, Position};

/// A mark is put after so many bytes of a line.
const STEP: usize = 64;

/// A place on the line that begins at `start`, and how many units the line has in front of it.
#[derive(Clone, Copy)]
pub struct Mark {
    start: usize,
    place: usize,
    units: u64,
}

/// The places at which the lines of a text begin, and marks on its long lines, for one encoding.
#[derive(Drop)]
pub struct LineIndex {
    starts: Vec<usize>,
    marks: Vec<Mark>,
}

impl Model for LineIndex {
    ghost use Rattle.wse_text.specs.Index.{Indexed};

    ghost Value = { Indexed };

    ghost view = { λ a. record { starts = a.starts.items; marks = a.marks.items } };
}

impl LineIndex {
    /// The index of the text for positions in that encoding: two passes over the text.
    pub fn of(alloc: Global, text: &str, enc: Encoding) -> Result<LineIndex, Memory>
        ensures index { IfOk result (IsIndexOf text.now enc) }
        ensures lines { IfOk result (λ index. AreLineStarts text.now index.starts) }
    {
        let starts = starts_of(alloc, text)?;
        let mut marks = Vec::new(alloc);
        for start in &starts {
            mark_line(&mut marks, text, enc, *start)?;
        }
        Ok(LineIndex { starts, marks })
    }

    /// The place of the position in the text whose index this is, in bytes, as the function `offset` says it. Takes no
    /// memory, and goes along a short piece of the position's line only.
    pub fn offset(&self, text: &str, enc: Encoding, pos: Position) -> Result<usize, Inside>
        requires { IsIndexOf text.now enc self.now }
        ensures value { result ≡ offset_of text.now enc pos }
        ensures ok { IfOk result (IsCharBoundary text.now) }
        ensures err { IfErr result (λ e. IsCharBoundary text.now e.char_start) }
    {
        match self.starts.get(pos.line as usize) {
            Some(start) => along_marked_line(text, &self.marks, *start, enc, pos.character),
            None => Ok(text.len()),
        }
    }
}

fn starts_of(alloc: Global, text: &str) -> Result<Vec<usize>, Memory>
    ensures { IfOk result (λ starts. starts.items ≡ line_starts text.now) }
{
    let bytes = text.as_bytes();
    let mut starts = Vec::new(alloc);
    for place in 0..bytes.len() + 1 {
        if begins_line(bytes, place) {
            starts.push(place)?;
        }
    }
    Ok(starts)
}

/// Puts marks on the line that begins at `start`, one behind each `STEP` bytes or a little more.
fn mark_line(marks: &mut Vec<Mark>, text: &str, enc: Encoding, start: usize) -> Result<(), Memory>
    requires boundary { IsCharBoundary text.now start }
    requires marks { All (IsMark text.now enc) marks.old.items }
    ensures { OnOk result (All (IsMark text.now enc) marks.new.items) }
{
    let mut place = start;
    let mut units = 0;
    let mut last = start;
    for point in text[start..].chars() {
        if ends_line(point) {
            return Ok(());
        }
        if place - last >= STEP {
            marks.push(Mark {
                start,
                place,
                units,
            })?;
            last = place;
        }
        place += point.len_utf8();
        units += units_of(enc, point);
    }
    Ok(())
}

/// The place of a character of the line that begins at `start`, from the last mark in front of it on.
fn along_marked_line(
    text: &str,
    marks: &[Mark],
    start: usize,
    enc: Encoding,
    character: u64,
) -> Result<usize, Inside>
    requires boundary { IsCharBoundary text.now start }
    requires marks { All (IsMark text.now enc) marks.now }
    ensures value { result ≡ place_on_line enc start (line_at text.now start) character }
    ensures ok { IfOk result (IsCharBoundary text.now) }
    ensures err { IfErr result (λ e. IsCharBoundary text.now e.char_start) }
{
    match last_mark(marks, start, character) {
        Some(mark) => along_line(text, mark.place, enc, character - mark.units),
        None => along_line(text, start, enc, character),
    }
}

/// The last mark of the line that has at most so many units in front of it.
fn last_mark(marks: &[Mark], start: usize, character: u64) -> Option<Mark>
    ensures among { IfSome result (Contains marks.now) }
    ensures line { IfSome result (λ mark. mark.start ≡ start) }
    ensures in_front { IfSome result (λ mark. mark.units ≤ character) }
{
    let count = marks.partition_point(|mark| {
        mark.start < start || (mark.start == start && mark.units <= character)
    });
    if count == 0 {
        return None;
    }
    let mark = marks[count - 1];
    if mark.start == start && mark.units <= character {
        Some(mark)
    } else {
        None
    }
}
