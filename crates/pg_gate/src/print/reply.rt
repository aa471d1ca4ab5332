//! What a call is answered, its output and its status.
ghost use Rattle.std.specs.Prelude.{◌≡◌, IfOk};
ghost use Rattle.pg_gate.specs.print.Printed.{either_status, finding_status, json_text, status_of, text_of, words_text};

use crate::answer::all_types::AllTypes;
use crate::answer::verified::Verified;
use crate::print::lines::{json_for, words_for};
use crate::print::refusal::refusal_status;
use pg_lines::{Refusal, Step};
use std::alloc::{AllocError, Global};

/// What a call is answered.
#[derive(Drop)]
pub(crate) enum Reply {
    /// The bytes of a descriptor set.
    Set(Vec<u8>),
    /// The lines of a message.
    Shown(String),
    /// What is found in the one direction that is asked for.
    Found(Finding),
    /// What is found forward, and with the sides exchanged.
    Both { forward: Finding, backward: Finding },
    /// What is found of all message types of both sides.
    All(AllTypes),
    /// The full names of message types.
    Types(Vec<String>),
    Refused(Refusal),
}

/// What is found for a call, as it is printed.
#[derive(Drop)]
pub(crate) enum Finding {
    /// No message breaks.
    Compatible,
    /// The bytes of a message that breaks, and the fields on its path, root first. No message that
    /// breaks has fewer bytes. On request, the message as both sides read it.
    Breaks {
        witness: Vec<u8>,
        steps: Vec<Step>,
        readings: Option<Readings>,
    },
    /// The certificate as a string, and whether a message breaks.
    Certified {
        text: String,
        breaks: bool,
    },
    /// What a certificate shows.
    Verified(Verified),
}

/// What `show` prints of a message's bytes by the old and by the new type: its lines, or a refusal.
#[derive(Drop)]
pub(crate) struct Readings {
    pub old: String,
    pub new: String,
}

/// 1 where a message breaks in either direction, and else 0.
fn either(forward: u8, backward: u8) -> u8
    ensures { result ≡ either_status forward backward }
{
    if forward == 1 || backward == 1 { 1 } else { 0 }
}

impl Reply {
    /// The status with which a program ends that prints it.
    fn status(&self) -> u8
        ensures { result ≡ status_of self.now }
    {
        match self {
            Reply::Set(_) | Reply::Shown(_) | Reply::Types(_) => 0,
            Reply::Found(finding) => finding.status(),
            Reply::Both { forward, backward } => either(forward.status(), backward.status()),
            Reply::All(all) => all.status(),
            Reply::Refused(refusal) => refusal_status(refusal),
        }
    }

    /// The reply's output as JSON, for the root types of this name.
    fn into_json(self, alloc: Global, root: &str) -> Result<Vec<u8>, AllocError>
        ensures { IfOk result (λ text. text.items ≡ json_text root.now self) }
    {
        let text = match self {
            Reply::Set(bytes) => return Ok(bytes),
            reply => json_for(alloc, root, &reply)?,
        };
        Ok(text.into_bytes())
    }

    /// The reply's output in words, for the root types of this name.
    fn into_words(self, alloc: Global, root: &str) -> Result<Vec<u8>, AllocError>
        ensures { IfOk result (λ text. text.items ≡ words_text root.now self) }
    {
        let text = match self {
            Reply::Set(bytes) => return Ok(bytes),
            Reply::Shown(text) => text,
            reply => words_for(alloc, root, &reply)?,
        };
        Ok(text.into_bytes())
    }

    /// The reply's output, as JSON or in words.
    fn into_text(self, alloc: Global, root: &str, json: bool) -> Result<Vec<u8>, AllocError>
        ensures { IfOk result (λ text. text.items ≡ text_of json root.now self) }
    {
        if json {
            self.into_json(alloc, root)
        } else {
            self.into_words(alloc, root)
        }
    }
}

/// What a program prints, and the status with which it ends.
#[derive(Drop)]
pub(crate) struct Output {
    pub text: Vec<u8>,
    pub status: u8,
}

impl Reply {
    /// The reply's output, as JSON or in words, and its status.
    pub(crate) fn into_output(
        self,
        alloc: Global,
        root: &str,
        json: bool,
    ) -> Result<Output, AllocError>
        ensures text { IfOk result (λ output. output.text.items ≡ text_of json root.now self) }
        ensures status { IfOk result (λ output. output.status ≡ status_of self) }
    {
        let status = self.status();
        Ok(Output {
            text: self.into_text(alloc, root, json)?,
            status,
        })
    }
}

impl Finding {
    /// 0 where no message breaks, and else 1; for a certificate, the status of its verdict.
    fn status(&self) -> u8
        ensures { result ≡ finding_status self.now }
    {
        match self {
            Finding::Compatible => 0,
            Finding::Breaks { .. } => 1,
            Finding::Certified { breaks, .. } => if *breaks { 1 } else { 0 },
            Finding::Verified(verified) => verified.status(),
        }
    }
}
