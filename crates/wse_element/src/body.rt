// The contents that a part holds.
ghost use Rattle.std.specs.Prelude.{◌≡◌, ◌≢◌, ◌↔◌, not, is_some, IsTrue, IfOk};
ghost use Rattle.wse_path.specs.Changes.{is_same};
ghost use Rattle.wse_element.specs.Content.{old_content, new_content, no_contents, content_len};

use std::alloc::Global;
use wse_path::{Bytes, Duplicate, Memory, content_slice, is_same_content};

/// What a path had before a command, and what it had after it. Content that isn't there is None.
#[derive(Drop)]
pub enum Body {
    /// Both contents, whole.
    Whole {
        was: Option<Bytes>,
        is: Option<Bytes>,
    },
}

impl Body {
    /// Neither content. Takes no memory.
    pub fn empty() -> Body
        ensures { result ≡ no_contents }
    {
        Body::Whole {
            was: None,
            is: None,
        }
    }

    /// Whether the contents differ. Takes no memory.
    pub fn is_change(&self) -> bool
        ensures { IsTrue result ↔ (old_content self.now ≢ new_content self.now) }
    {
        match self {
            Body::Whole { was, is } => !is_same_content(content_slice(was), content_slice(is)),
        }
    }

    /// Whether there was a content before the command.
    pub fn has_old(&self) -> bool
        ensures { result ≡ is_some (old_content self.now) }
    {
        match self {
            Body::Whole { was, .. } => was.is_some(),
        }
    }

    /// Whether there was a content after the command.
    pub fn has_new(&self) -> bool
        ensures { result ≡ is_some (new_content self.now) }
    {
        match self {
            Body::Whole { is, .. } => is.is_some(),
        }
    }

    /// Whether the content after this command is the one before the next. Takes no memory.
    pub fn meets(&self, next: &Body) -> bool
        ensures { result ≡ is_same (new_content self.now) (old_content next.now) }
    {
        match (self, next) {
            (Body::Whole { is, .. }, Body::Whole { was, .. }) => is_same_content(
                content_slice(is),
                content_slice(was),
            ),
        }
    }

    /// Whether the content before this command is the one after the command before. Takes no memory.
    pub fn follows(&self, before: &Body) -> bool
        ensures { result ≡ is_same (old_content self.now) (new_content before.now) }
    {
        match (self, before) {
            (Body::Whole { was, .. }, Body::Whole { is, .. }) => is_same_content(
                content_slice(was),
                content_slice(is),
            ),
        }
    }

    /// A copy of the content before the command.
    pub fn old_bytes(&self, alloc: Global) -> Result<Option<Bytes>, Memory>
        ensures { IfOk result (λ bytes. bytes ≡ old_content self.now) }
    {
        match self {
            Body::Whole { was, .. } => was.duplicate(alloc),
        }
    }

    /// A copy of the content after the command.
    pub fn new_bytes(&self, alloc: Global) -> Result<Option<Bytes>, Memory>
        ensures { IfOk result (λ bytes. bytes ≡ new_content self.now) }
    {
        match self {
            Body::Whole { is, .. } => is.duplicate(alloc),
        }
    }

    /// How many bytes the content had before the command. Takes no memory.
    pub fn old_len(&self) -> usize
        ensures { result ≡ content_len (old_content self.now) }
    {
        match self {
            Body::Whole { was, .. } => len_of(was),
        }
    }

    /// How many bytes the content had after the command. Takes no memory.
    pub fn new_len(&self) -> usize
        ensures { result ≡ content_len (new_content self.now) }
    {
        match self {
            Body::Whole { is, .. } => len_of(is),
        }
    }
}

fn len_of(content: &Option<Bytes>) -> usize
    ensures { result ≡ content_len content.now }
{
    match content {
        Some(bytes) => bytes.len(),
        None => 0,
    }
}

impl Duplicate for Body {
    fn duplicate(&self, alloc: Global) -> Result<Body, Memory> {
        match self {
            Body::Whole { was, is } => Ok(Body::Whole {
                was: was.duplicate(alloc)?,
                is: is.duplicate(alloc)?,
            }),
        }
    }
}
