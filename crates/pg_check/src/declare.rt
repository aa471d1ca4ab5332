//! From files to the parts that they declare.

ghost use Rattle.std.specs.Prelude.{◌≡◌, ◌-◌, IfErr, IfOk, length, map};
ghost use Rattle.pg_check.specs.Declares.{Declares};
ghost use Rattle.pg_check.specs.inner.Sources.{target_in, source};
ghost use Rattle.pg_check.specs.inner.FileFaults as faults;
ghost use Rattle.pg_check.specs.inner.FirstBroken as spec;
ghost use Rattle.pg_check.specs.rules.Outline.{file_messages};

use crate::parts::made_parts::{Source, parts_of};
use crate::rules::fault::Fault;
use crate::rules::file::file_fault;
use crate::rules::outline::{file_messages, scoped_enums};
use pg_schema::{MAX_MESSAGE_TYPES, Parts};
use std::alloc::{AllocError, Global};

/// A rule that one of the files breaks; the file is given by its index among them.
#[derive(Clone, Copy, PartialEq, Eq)]
pub(crate) struct FileFault {
    pub file: usize,
    pub fault: Fault,
}

/// Why files declare no parts.
#[derive(Clone, Copy, PartialEq, Eq)]
pub(crate) enum Refusal {
    /// A growth was refused.
    Memory,
    /// A rule is broken.
    Broken(FileFault),
}

impl From<AllocError> for Refusal {
    ghost use Rattle.pg_check.specs.declared.declare.Refusal.TheVariants.{Memory};

    ghost from_gives = { λ _ error. error ≡ Memory };

    fn from(_error: AllocError) -> Refusal {
        Refusal::Memory
    }
}

/// What was found in a file, and how many more message types may come after it.
#[derive(Clone, Copy)]
struct Checked {
    fault: Option<Fault>,
    left: usize,
}

/// Looks for the first rule that a file breaks, where so many more message types may come.
fn look_at(alloc: Global, file: &Source<'_>, left: usize) -> Result<Checked, AllocError>
    ensures fault { IfOk result (λ c. c.fault
        ≡ faults.file_fault (target_in file.now.targets) left file.now.tree.now) }
    ensures left { IfOk result (λ c. c.left ≡ left - length (file_messages file.now.tree.now)) }
{
    let messages = file_messages(alloc, file.tree)?;
    let enums = scoped_enums(alloc, file.tree, &messages)?;
    let fault = file_fault(alloc, &file.targets, left, file.tree, &messages, &enums)?;
    let left = left.saturating_sub(messages.as_slice().len());
    Ok(Checked { fault, left })
}

/// The first rule that files break.
fn first_broken(alloc: Global, files: &[Source<'_>]) -> Result<Option<FileFault>, AllocError>
    ensures { IfOk result (λ fault. fault ≡ spec.first_broken (map source files.now)) }
{
    let mut left = MAX_MESSAGE_TYPES;
    for (index, file) in files.iter().enumerate() {
        let found = look_at(alloc, file, left)?;
        if let Some(fault) = found.fault {
            return Ok(Some(FileFault { file: index, fault }));
        }
        left = found.left;
    }
    Ok(None)
}

/// The parts that the files declare. Refused where memory is, or where a file breaks a rule: then
/// with the first rule that the first of such files breaks.
pub(crate) fn declare(alloc: Global, files: &[Source<'_>]) -> Result<Parts, Refusal>
    ensures declared { IfOk result (Declares (map source files.now)) }
    ensures refused { IfErr result (spec.IsBroken (map source files.now)) }
{
    let found = first_broken(alloc, files)?;
    if let Some(fault) = found {
        return Err(Refusal::Broken(fault));
    }
    let parts = parts_of(alloc, files)?;
    Ok(parts)
}
