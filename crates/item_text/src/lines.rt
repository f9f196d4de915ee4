//! The logical lines of a text, one after another (RFC 5545, section 3.1, RFC 6350, section 3.2).

ghost use Rattle.std.specs.Prelude.{◌≡◌, ◌==◌, ◌<◌, ◌≤◌, ◌^◌, IfOk, [], ◌∷◌, ◌++◌, true, None, Some, drop, length};
ghost use Rattle.std.specs.List.{position_or_len, before_first, after_first};
ghost use Rattle.std.specs.Option.{MatchOption};
ghost use Rattle.std.specs.Str.Lines.{lines, strip_carriage_return};
ghost use Rattle.item_text.specs.Lines as spec;
ghost use Rattle.item_text.specs.Seen.{line_seen, left_behind, count_of, size_of};

use bumpalo::Bump;
use std::alloc::{AllocError, Global};

/// A logical line, with the number of its first physical line.
#[derive(Clone, Copy)]
pub struct Line<'a> {
    /// Counted from 1.
    pub number: u32,
    /// What its physical lines have, without their ends and without the character that begins each behind the first.
    pub text: &'a str,
}

/// What is left of a text, and how many physical lines stand before it.
#[derive(Clone, Copy)]
pub struct Lines<'a> {
    rest: &'a str,
    passed: u32,
}

/// A text without the byte order mark at its front, if it has one.
pub fn without_mark(text: &str) -> &str
    ensures { result.now ≡ spec.without_mark text.now }
{
    if text.starts_with("\u{feff}") {
        &text[3..]
    } else {
        text
    }
}

/// Whether a physical line, unless it is the first, continues the one before it.
#[tactic(auto, unfolding(crate::specs::Lines::continues))]
pub(crate) fn begins_blank(line: &[u8]) -> bool
    ensures { result ≡ spec.continues line.now }
{
    let [first, ..] = line else {
        return false;
    };
    *first == b' ' || *first == b'\t'
}

fn without_return(line: &str) -> &str
    ensures { result.now ≡ strip_carriage_return line.now }
{
    match line.strip_suffix('\r') {
        Some(rest) => rest,
        None => line,
    }
}

/// What stands before and behind the first line feed.
fn split_feed(text: &str) -> Option<(&str, &str)>
    ensures { MatchOption result (position_or_len (λ b. b == 10) text.now ≡ length text.now) (λ x. (position_or_len (λ b. b == 10) text.now < length text.now) × (x.0.now ≡ before_first (λ b. b == 10) text.now) × (x.1.now ≡ after_first (λ b. b == 10) text.now)) }
{
    text.split_once('\n')
}

/// The first physical line of a text, and what stands behind it.
fn split_line(text: &str) -> Option<(&str, &str)>
    ensures { MatchOption result (text.now ≡ []) (λ x. (lines text.now ≡ x.0.now ∷ lines x.1.now) × (length x.1.now < length text.now)) }
{
    match split_feed(text) {
        Some((line, rest)) => Some((without_return(line), rest)),
        None => {
            if text.is_empty() {
                None
            } else {
                Some((text, ""))
            }
        }
    }
}

/// What a physical line adds to the line that it continues.
fn behind_blank(line: &str) -> &str
    requires { spec.continues line.now ≡ true }
    ensures { result.now ≡ drop 1 line.now }
{
    &line[1..]
}

impl<'a> Lines<'a> {
    /// The lines of a text from which a byte order mark is taken away; one that still stands at its front is a part of its first line.
    pub fn of(text: &'a str) -> Lines<'a>
        ensures left { left_behind None result ≡ spec.unfolded (lines text.now) }
        ensures count { count_of result ≡ length (lines text.now) }
        ensures size { size_of result ≡ length text.now }
    {
        Lines {
            rest: text,
            passed: 0,
        }
    }

    /// How many physical lines the text has, where no line is left.
    pub fn count(&self) -> u32
        ensures { left_behind None self.now ≡ [] → result ≡ count_of self.now }
    {
        self.passed
    }

    /// The first physical line of the next logical line.
    fn first(&mut self) -> Option<Line<'a>>
        requires { size_of self.old < 2 ^ 32 }
        ensures line { MatchOption result ((left_behind None self.old ≡ []) × (self.new ≡ self.old)) (λ line. (left_behind None self.old ≡ left_behind (Some (line_seen line)) self.new) × (length self.new.rest.now < length self.old.rest.now)) }
        ensures count { count_of self.new ≡ count_of self.old }
        ensures size { size_of self.new ≤ size_of self.old }
    {
        let Some((text, rest)) = split_line(self.rest) else {
            return None;
        };
        self.rest = rest;
        self.passed += 1;
        Some(Line {
            number: self.passed,
            text,
        })
    }

    /// What the next physical line adds to the line before it, where it continues that line.
    fn continuation(&mut self) -> Option<&'a str>
        requires { size_of self.old < 2 ^ 32 }
        ensures line { (begun : spec.Line) → MatchOption result ((left_behind (Some begun) self.old ≡ begun ∷ left_behind None self.old) × (self.new ≡ self.old)) (λ more. (left_behind (Some begun) self.old ≡ left_behind (Some (record { number = begun.number; text = begun.text ++ more.now })) self.new) × (length self.new.rest.now < length self.old.rest.now)) }
        ensures count { count_of self.new ≡ count_of self.old }
        ensures size { size_of self.new ≤ size_of self.old }
    {
        if !begins_blank(self.rest.as_bytes()) {
            return None;
        }
        let Some((line, rest)) = split_line(self.rest) else {
            return None;
        };
        self.rest = rest;
        self.passed += 1;
        Some(behind_blank(line))
    }

    /// A line with all that continues it.
    fn unfolded(
        &mut self,
        alloc: Global,
        bump: &'a Bump,
        line: Line<'a>,
    ) -> Result<Line<'a>, AllocError>
        requires { size_of self.old < 2 ^ 32 }
        ensures line { IfOk result (λ whole. (left_behind (Some (line_seen line.entry)) self.old ≡ line_seen whole ∷ left_behind None self.new) × (length self.new.rest.now ≤ length self.old.rest.now)) }
        ensures count { count_of self.new ≡ count_of self.old }
        ensures size { size_of self.new ≤ size_of self.old }
    {
        let Some(more) = self.continuation() else {
            return Ok(line);
        };
        let mut text = String::from_str(alloc, line.text)?;
        text.push_str(more)?;
        while let Some(more) = self.continuation() {
            text.push_str(more)?;
        }
        Ok(Line {
            number: line.number,
            text: bump.try_alloc_str(text.as_str())?,
        })
    }

    /// The next logical line, or `None` behind the last. Its text is lent from the text that is read; that of a folded one stands in the
    /// arena. An error where memory runs out; then some of the line may be passed over.
    pub fn next(&mut self, alloc: Global, bump: &'a Bump) -> Result<Option<Line<'a>>, AllocError>
        requires { size_of self.old < 2 ^ 32 }
        ensures line { IfOk result (λ next. MatchOption next (left_behind None self.old ≡ []) (λ line. left_behind None self.old ≡ line_seen line ∷ left_behind None self.new)) }
        ensures shorter { IfOk result (λ next. MatchOption next (self.new ≡ self.old) (λ line. length self.new.rest.now < length self.old.rest.now)) }
        ensures count { count_of self.new ≡ count_of self.old }
        ensures size { size_of self.new ≤ size_of self.old }
    {
        match self.first() {
            Some(line) => Ok(Some(self.unfolded(alloc, bump, line)?)),
            None => Ok(None),
        }
    }
}
