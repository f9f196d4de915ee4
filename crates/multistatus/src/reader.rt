//! The elements that are open, and how they change from token to token.

ghost use Rattle.std.specs.Prelude.{◌≡◌, ◌∷◌, [], reverse, Some, None};
ghost use Rattle.multistatus.specs.Reader as spec;
ghost use Rattle.multistatus.specs.Scopes.{opening};
ghost use Rattle.multistatus.specs.Steps.{Gives};

use crate::MultiError;
use crate::endings::ended;
use crate::frames::{Frame, begun, is_dav, with_text};
use crate::rows::Response;
use crate::scopes::{Declarations, Opened, opening_of};
use crate::tags::{Name, Tag};
use crate::tokens::Token;
use bumpalo::Bump;
use std::alloc::Global;
use values::{Lent, Sequence};

/// The most elements that may be open at a place.
const MOST_NESTED: usize = 32;

/// An element that is open.
#[derive(Debug, Drop)]
pub(crate) struct Level<'a> {
    pub name: Name<'a>,
    pub declared: Declarations<'a>,
    pub frame: Frame<'a>,
}

/// What is open, outermost first, and the rows once the outermost element has ended.
#[derive(Debug, Drop)]
pub(crate) struct Reader<'a> {
    pub levels: Sequence<Level<'a>>,
    pub rows: Option<Sequence<Response<'a>>>,
}

impl<'a> Reader<'a> {
    ghost use Rattle.multistatus.specs.Reader.{state_of, run_token, first_state, rows_at_end, blank_in, text_in, opened_in, closed_in};

    pub(crate) fn new(alloc: Global) -> Reader<'a>
        ensures { state_of result ≡ first_state }
    {
        Reader {
            levels: Sequence::new(alloc),
            rows: None,
        }
    }

    /// The reader behind a token.
    pub(crate) fn behind(
        self,
        alloc: Global,
        arena: &'a Bump,
        token: Token<'a>,
    ) -> Result<Reader<'a>, MultiError>
        ensures { Gives (λ r. state_of r) result (run_token (state_of self.entry) token.entry) }
    {
        match token {
            Token::Passed => Ok(self),
            Token::Blank(white) => self.behind_blank(white),
            Token::Chars(chars) => self.behind_chars(chars),
            Token::Open(tag) => self.behind_open(alloc, arena, tag),
            Token::Empty(tag) => self.behind_empty(alloc, arena, tag),
            Token::Close(name) => self.behind_close(alloc, arena, name),
        }
    }

    fn behind_blank(self, white: Lent<'a>) -> Result<Reader<'a>, MultiError>
        ensures { Gives (λ r. state_of r) result (blank_in (reverse self.entry.levels) self.entry.rows white.entry) }
    {
        let Reader { mut levels, rows } = self;
        match levels.pop() {
            None => Ok(Reader { levels, rows }),
            Some(level) => texted(levels, rows, level, white),
        }
    }

    fn behind_chars(self, chars: Lent<'a>) -> Result<Reader<'a>, MultiError>
        ensures { Gives (λ r. state_of r) result (text_in (reverse self.entry.levels) self.entry.rows chars.entry) }
    {
        let Reader { mut levels, rows } = self;
        match levels.pop() {
            None => Err(MultiError::Bad),
            Some(level) => texted(levels, rows, level, chars),
        }
    }

    fn behind_open(
        self,
        alloc: Global,
        arena: &'a Bump,
        tag: Tag<'a>,
    ) -> Result<Reader<'a>, MultiError>
        ensures { Gives (λ r. state_of r) result (opened_in (reverse self.entry.levels) self.entry.rows tag.entry) }
    {
        if MOST_NESTED <= self.levels.len() {
            return Err(MultiError::Bad);
        }
        let opened = opening_of(alloc, arena, self.levels.as_slice(), &tag)?;
        let Tag { name, attributes } = tag;
        drop(attributes);
        self.begun(alloc, name, opened)
    }

    fn begun(
        self,
        alloc: Global,
        name: Name<'a>,
        opened: Opened<'a>,
    ) -> Result<Reader<'a>, MultiError>
        ensures { Gives (λ r. state_of r) result (spec.begun_by name.entry (reverse self.entry.levels) self.entry.rows (opening opened.entry)) }
    {
        let Reader { mut levels, rows } = self;
        match levels.pop() {
            None => root_begun(alloc, levels, rows, name, opened),
            Some(level) => inner_begun(alloc, levels, rows, level, name, opened),
        }
    }

    /// The reader behind a start tag and its end tag.
    fn behind_empty(
        self,
        alloc: Global,
        arena: &'a Bump,
        tag: Tag<'a>,
    ) -> Result<Reader<'a>, MultiError>
        ensures { Gives (λ r. state_of r) result (spec.emptied_in (state_of self.entry) tag.entry) }
    {
        let inside = self.behind_open(alloc, arena, tag)?;
        inside.behind_end(alloc, arena)
    }

    /// The reader where the innermost element ends.
    fn behind_end(self, alloc: Global, arena: &'a Bump) -> Result<Reader<'a>, MultiError>
        ensures { Gives (λ r. state_of r) result (spec.popped_in (reverse self.entry.levels) self.entry.rows) }
    {
        let Reader { mut levels, rows } = self;
        let Some(level) = levels.pop() else {
            return Err(MultiError::Bad);
        };
        let Level {
            name: _,
            declared: _,
            frame,
        } = level;
        ended_in(alloc, arena, levels, rows, frame)
    }

    fn behind_close(
        self,
        alloc: Global,
        arena: &'a Bump,
        name: Name<'a>,
    ) -> Result<Reader<'a>, MultiError>
        ensures { Gives (λ r. state_of r) result (closed_in (reverse self.entry.levels) self.entry.rows name.entry) }
    {
        let Reader { mut levels, rows } = self;
        let Some(level) = levels.pop() else {
            return Err(MultiError::Bad);
        };
        if !is_name(&level.name, &name) {
            return Err(MultiError::Bad);
        }
        let Level {
            name: _,
            declared: _,
            frame,
        } = level;
        ended_in(alloc, arena, levels, rows, frame)
    }

    /// The rows, where the document has ended.
    pub(crate) fn rows_at_end(self) -> Result<Sequence<Response<'a>>, MultiError>
        ensures { Gives (λ rows. rows) result (rows_at_end (state_of self.entry)) }
    {
        let Reader { levels, rows } = self;
        if !levels.is_empty() {
            return Err(MultiError::Bad);
        }
        match rows {
            Some(rows) => Ok(rows),
            None => Err(MultiError::Bad),
        }
    }
}

fn level_of<'a>(name: Name<'a>, declared: Declarations<'a>, frame: Frame<'a>) -> Level<'a>
    ensures { result ≡ record { name = name.entry; declared = declared.entry; frame = frame.entry } }
{
    Level {
        name,
        declared,
        frame,
    }
}

fn is_name(name: &Name<'_>, other: &Name<'_>) -> bool
    ensures { result ≡ spec.is_name name.now other.now }
{
    name.prefix.as_str() == other.prefix.as_str() && name.local.as_str() == other.local.as_str()
}

/// The reader where the innermost element has more text.
fn texted<'a>(
    below: Sequence<Level<'a>>,
    rows: Option<Sequence<Response<'a>>>,
    level: Level<'a>,
    text: Lent<'a>,
) -> Result<Reader<'a>, MultiError>
    ensures { Gives (λ r. spec.state_of r) result (Some (spec.texted level.entry (reverse below.entry) rows.entry text.entry)) }
{
    let Level {
        name,
        declared,
        frame,
    } = level;
    let frame = with_text(frame, text)?;
    let mut levels = below;
    levels.push(Level {
        name,
        declared,
        frame,
    })?;
    Ok(Reader { levels, rows })
}

/// The reader where the outermost element begins.
fn root_begun<'a>(
    alloc: Global,
    outside: Sequence<Level<'a>>,
    rows: Option<Sequence<Response<'a>>>,
    name: Name<'a>,
    opened: Opened<'a>,
) -> Result<Reader<'a>, MultiError>
    requires { outside ≡ [] }
    ensures { Gives (λ r. spec.state_of r) result (spec.root_by name.entry rows.entry (opening opened.entry)) }
{
    if rows.is_some() || !is_dav(&opened.name, "multistatus") {
        return Err(MultiError::Bad);
    }
    let Opened { declared, name: _ } = opened;
    let frame = Frame::InMultistatus(Sequence::new(alloc));
    let mut levels = outside;
    levels.push(Level {
        name,
        declared,
        frame,
    })?;
    Ok(Reader { levels, rows: None })
}

/// The reader where an element begins in another one.
fn inner_begun<'a>(
    alloc: Global,
    below: Sequence<Level<'a>>,
    rows: Option<Sequence<Response<'a>>>,
    parent: Level<'a>,
    name: Name<'a>,
    opened: Opened<'a>,
) -> Result<Reader<'a>, MultiError>
    ensures { Gives (λ r. spec.state_of r) result (Some (spec.inner_by name.entry parent.entry (reverse below.entry) rows.entry (opening opened.entry))) }
{
    let Opened {
        declared,
        name: expanded,
    } = opened;
    let (outer, inner) = begun(alloc, parent.frame, expanded)?;
    let mut levels = below;
    levels.push(level_of(parent.name, parent.declared, outer))?;
    levels.push(level_of(name, declared, inner))?;
    Ok(Reader { levels, rows })
}

/// The reader where an element has ended.
fn ended_in<'a>(
    alloc: Global,
    arena: &'a Bump,
    outer: Sequence<Level<'a>>,
    rows: Option<Sequence<Response<'a>>>,
    frame: Frame<'a>,
) -> Result<Reader<'a>, MultiError>
    ensures { Gives (λ r. spec.state_of r) result (spec.ended_in frame.entry (reverse outer.entry) rows.entry) }
{
    let mut levels = outer;
    match levels.pop() {
        None => root_ended(levels, frame),
        Some(parent) => inner_ended(alloc, arena, levels, rows, parent, frame),
    }
}

fn root_ended<'a>(outside: Sequence<Level<'a>>, frame: Frame<'a>) -> Result<Reader<'a>, MultiError>
    requires { outside ≡ [] }
    ensures { Gives (λ r. spec.state_of r) result (spec.root_ended frame.entry) }
{
    let Frame::InMultistatus(rows) = frame else {
        return Err(MultiError::Bad);
    };
    Ok(Reader {
        levels: outside,
        rows: Some(rows),
    })
}

fn inner_ended<'a>(
    alloc: Global,
    arena: &'a Bump,
    below: Sequence<Level<'a>>,
    rows: Option<Sequence<Response<'a>>>,
    parent: Level<'a>,
    child: Frame<'a>,
) -> Result<Reader<'a>, MultiError>
    ensures { Gives (λ r. spec.state_of r) result (spec.ended_in child.entry (parent.entry ∷ reverse below.entry) rows.entry) }
{
    let Level {
        name,
        declared,
        frame,
    } = parent;
    let frame = ended(alloc, arena, frame, child)?;
    let mut levels = below;
    levels.push(Level {
        name,
        declared,
        frame,
    })?;
    Ok(Reader { levels, rows })
}
