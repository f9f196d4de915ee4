//! Logical lines: heads of sections, and keys with their values.

ghost use Rattle.std.specs.Prelude.{◌≡◌, ◌+◌, ◌-◌, ◌<◌, ◌^◌, ◌++◌, ◌∷◌, [], ℕ, List, length, IfOk};
ghost use Rattle.std.specs.Str.Lines.{lines};
ghost use Rattle.config_ini.specs.Lines.{kind_of};
ghost use Rattle.config_ini.specs.Logical as spec;
ghost use Rattle.config_ini.specs.declared.kinds.LineKind.TheVariants as line;
ghost use Rattle.config_ini.specs.Seen.{closed, with_more, to_come};

use crate::key_lines::kind_of;
use crate::kinds::{Key, LineKind, Logical, Title, Written};
use crate::lines::cut_line;
use std::alloc::{AllocError, Global};
use values::Bytes;

/// The logical lines so far, and the key whose value may still go on.
#[derive(Drop)]
pub(crate) struct SoFar {
    pub done: Vec<Logical>,
    pub held: Option<Written>,
}

/// Bytes with a line feed and more bytes behind them.
fn with_more(bytes: Bytes, more: &[u8]) -> Result<Bytes, AllocError>
    ensures { IfOk result (λ all. all ≡ with_more bytes more.now) }
{
    let mut all = bytes.into_vec();
    all.push(b'\n')?;
    all.extend_from_slice(more)?;
    Ok(Bytes::of(all))
}

impl SoFar {
    /// All is done: no key is held.
    fn closed(self) -> Result<Vec<Logical>, AllocError>
        ensures { IfOk result (λ done. done.items ≡ closed self.done.items self.held) }
    {
        let SoFar { mut done, held } = self;
        match held {
            None => Ok(done),
            Some(written) => {
                done.push(Logical::Key(written))?;
                Ok(done)
            }
        }
    }

    fn with_line(self, line: Logical) -> Result<SoFar, AllocError>
        ensures { IfOk result (λ next. (next.done.items ≡ closed self.done.items self.held ++ line ∷ []) × (next.held ≡ None)) }
    {
        let mut done = self.closed()?;
        done.push(line)?;
        Ok(SoFar { done, held: None })
    }

    fn with_key(self, number: u32, key: Key, value: Bytes) -> Result<SoFar, AllocError>
        ensures { IfOk result (λ next. (next.done.items ≡ closed self.done.items self.held) × (next.held ≡ Some (record { number = number; key = key; value = value }))) }
    {
        let done = self.closed()?;
        Ok(SoFar {
            done,
            held: Some(Written { number, key, value }),
        })
    }

    /// With a line that begins with a blank.
    fn continued(self, number: u32, text: &[u8]) -> Result<SoFar, AllocError>
        ensures { IfOk result (λ next. (rest : List (List ℕ)) → kind_of text.now ≡ line.Continued → to_come next (number + 1) rest ≡ to_come self number (text.now ∷ rest)) }
    {
        let SoFar { done, held } = self;
        match held {
            None => {
                let next = SoFar { done, held: None }.with_line(Logical::Bad { number })?;
                Ok(next)
            }
            Some(Written { number, key, value }) => Ok(SoFar {
                done,
                held: Some(Written {
                    number,
                    key,
                    value: with_more(value, text)?,
                }),
            }),
        }
    }

    /// With one more physical line.
    fn with(self, alloc: Global, number: u32, text: &[u8]) -> Result<SoFar, AllocError>
        ensures { IfOk result (λ next. (rest : List (List ℕ)) → to_come next (number + 1) rest ≡ to_come self number (text.now ∷ rest)) }
    {
        match kind_of(alloc, text)? {
            LineKind::Passed => Ok(self),
            LineKind::Continued => {
                let next = self.continued(number, text)?;
                Ok(next)
            }
            LineKind::Section(title) => {
                let next = self.with_line(Logical::Section { number, title })?;
                Ok(next)
            }
            LineKind::Key { key, value } => {
                let next = self.with_key(number, key, value)?;
                Ok(next)
            }
            LineKind::Bad => {
                let next = self.with_line(Logical::Bad { number })?;
                Ok(next)
            }
        }
    }
}

/// The logical lines of a text.
pub(crate) fn logical_lines(alloc: Global, bytes: &[u8]) -> Result<Vec<Logical>, AllocError>
    requires { length bytes.now < 2 ^ 32 - 1 }
    ensures { IfOk result (λ found. found.items ≡ spec.logical_lines bytes.now) }
{
    let mut so_far = SoFar {
        done: Vec::new(alloc),
        held: None,
    };
    let mut rest = bytes;
    let mut number: u32 = 1;
    'lines: while let Some((line, behind)) = cut_line(rest) {
        so_far = so_far.with(alloc, number, line)?;
        rest = behind;
        number += 1;
    }
    let done = so_far.closed()?;
    Ok(done)
}
