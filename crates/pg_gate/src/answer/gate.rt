//! The gate: whether a reader of the new type reads all that a writer of the old one writes.
ghost use Rattle.std.specs.Prelude.{◌≡◌, ◌+◌, Err, codes, IfErr, IfOk, OnOk};
ghost use Rattle.pg_schema.specs.Parts.{shape_of};
ghost use Rattle.pg_schema.specs.ShapeRules.{IsShape};
ghost use Rattle.pg_pairs.specs.views.EnumView.{by_numbers};
ghost use Rattle.pg_pairs.specs.views.NamedView.{seen_under};
ghost use Rattle.pg_least.specs.Searched.{CarriesWitness};
ghost use Rattle.pg_least.specs.Loss.{AreRoots, Lacks};
ghost use Rattle.pg_gate.specs.answer.Answer.{IsAnswer, IsRefusedRoot, certificate_of};
ghost use Rattle.pg_gate.specs.Failures.{side_failures};
ghost use Rattle.pg_gate.specs.answer.Grants.{IsAnswerOfFiles, IsGateError};
ghost use Rattle.pg_call.specs.Paths.{paths_of};
ghost use Rattle.pg_gate.specs.answer.ViewAnswer.{IsAnswerUnder};
ghost use Rattle.pg_gate.specs.declared.error.GateError.TheVariants as errors;
ghost use Rattle.pg_link.specs.walk.Walk.{world};

use crate::answer::both_sides::compile_both;
use crate::error::GateError;
use pg_call::{BothFiles, Files};
use pg_cert::Certificate;
use pg_dyn::{Message, ViewName};
use pg_least::{Found, find_with};
use pg_lines::Side;
use pg_link::Sources;
use pg_pairs::laws::numbers_are_alike;
use pg_pairs::{Pair, Priced};
use pg_schema::Schema;
use std::alloc::Global;

/// What the gate says of two message types, with the certificate that shows it.
#[derive(Drop)]
pub enum Answer {
    /// No message breaks: of each message that the old writer encodes, the new reader reads the
    /// same values in the fields of both types, and gives back all others.
    Compatible(Certificate),
    /// A message of the old type that breaks, without unknown records. No message that breaks has
    /// fewer bytes.
    Breaks {
        witness: Message,
        certificate: Certificate,
    },
}

impl Answer {
    /// The certificate.
    pub(crate) fn certificate(&self) -> &Certificate
        ensures { result.now ≡ certificate_of self.now }
    {
        match self {
            Answer::Compatible(certificate) => certificate,
            Answer::Breaks { certificate, .. } => certificate,
        }
    }
}

/// The old and the new message type of the full name.
fn roots(old: &Schema, new: &Schema, root: &str) -> Result<Pair, GateError>
    ensures named { IfOk result (AreRoots old.now new.now root.now) }
    ensures shapes { OnOk result (IsShape (shape_of old.now) × IsShape (shape_of new.now)) }
    ensures old_missing { Lacks old.now root.now → result ≡ Err errors.RootMissingOld }
    ensures new_missing { (Lacks old.now root.now → ⊥) → Lacks new.now root.now
        → result ≡ Err errors.RootMissingNew }
    ensures refused { IfErr result (IsRefusedRoot old.now new.now root.now) }
{
    let Some(old_root) = old.message(root) else {
        return Err(GateError::RootMissingOld);
    };
    let Some(new_root) = new.message(root) else {
        return Err(GateError::RootMissingNew);
    };
    // What holds of every schema.
    old.parts();
    new.parts();
    Ok(Pair {
        old: old_root,
        new: new_root,
    })
}

/// Whether the new program reads all that the old one writes, for the message types of this full
/// name. The answer is that it does, or a shortest message of the old type that breaks; either
/// has the certificate of the two types, which a checker takes. Enums are compared by the view of
/// that name, which is in the certificate: under `Names` a number that both enums declare is
/// another item where they give it other names.
///
/// Refuses an old schema without the name (`RootMissingOld`), and else a new one without it
/// (`RootMissingNew`). `Memory` is out of memory.
pub fn gate_with(
    alloc: Global,
    old: &Schema,
    new: &Schema,
    root: &str,
    view: ViewName,
) -> Result<Answer, GateError>
    ensures answer { IfOk result (IsAnswerUnder view old.now new.now root.now) }
    ensures carried { IfOk result (λ answer. CarriesWitness (seen_under view old.now new.now)
        (shape_of old.now) (shape_of new.now) (certificate_of answer)) }
    ensures old_missing { Lacks old.now root.now → result ≡ Err errors.RootMissingOld }
    ensures new_missing { (Lacks old.now root.now → ⊥) → Lacks new.now root.now
        → result ≡ Err errors.RootMissingNew }
    ensures refused { IfErr result (IsRefusedRoot old.now new.now root.now) }
{
    let pair = roots(old, new, root)?;
    let graph = Priced::new(&view, old, new);
    let Found {
        certificate,
        witness,
    } = find_with(alloc, &graph, pair)?;
    match witness {
        Some(witness) => Ok(Answer::Breaks {
            witness,
            certificate,
        }),
        None => Ok(Answer::Compatible(certificate)),
    }
}

/// Whether the new program reads all that the old one writes, for the message types of this full
/// name. The answer is that it does, or a shortest message of the old type that breaks; either
/// has the certificate of the two types, which a checker takes. Enums are compared by their
/// numbers alone, as `gate_with` does under `Numbers`.
///
/// Refuses an old schema without the name (`RootMissingOld`), and else a new one without it
/// (`RootMissingNew`). `Memory` is out of memory.
pub fn gate(alloc: Global, old: &Schema, new: &Schema, root: &str) -> Result<Answer, GateError>
    ensures answer { IfOk result (IsAnswer old.now new.now root.now) }
    ensures carried { IfOk result (λ answer. CarriesWitness by_numbers (shape_of old.now)
        (shape_of new.now) (certificate_of answer)) }
    ensures old_missing { Lacks old.now root.now → result ≡ Err errors.RootMissingOld }
    ensures new_missing { (Lacks old.now root.now → ⊥) → Lacks new.now root.now
        → result ≡ Err errors.RootMissingNew }
    ensures refused { IfErr result (IsRefusedRoot old.now new.now root.now) }
{
    // By their numbers all items of enums are alike.
    numbers_are_alike();
    gate_with(alloc, old, new, root, ViewName::Numbers)
}

/// What `gate` says of two sources: the schemas are those of source files that these may give at
/// the paths, and of all that they import. A fault of the new side is reported only where the old
/// side has a schema. A side of one path that doesn't end in `.proto` is the descriptor set there,
/// and its schema the one that the set states.
///
/// Refuses a side with its first fault (`Compile`): why its source files can't be linked, or the
/// first rule of the language that they break, with its position, or why its set is refused.
/// Refuses a missing root as `gate` does. `Memory` is out of memory.
pub fn gate_files<S: Sources, T: Sources>(
    alloc: Global,
    old: &mut S,
    new: &mut T,
    old_roots: &[&str],
    new_roots: &[&str],
    root: &str,
) -> Result<Answer, GateError>
    // The answer is that of source files and sets that the sources may give, and so is each
    // refusal. A fault of the new side comes only where the old side has a schema.
    ensures answer { IfOk result (IsAnswerOfFiles root.now
        (world (S.may_give old.old) (S.may_lack old.old) (codes ".") (paths_of old_roots.now))
        (world (T.may_give new.old) (T.may_lack new.old) (codes ".") (paths_of new_roots.now))) }
    ensures refused { IfErr result (IsGateError root.now
        (world (S.may_give old.old) (S.may_lack old.old) (codes ".") (paths_of old_roots.now))
        (world (T.may_give new.old) (T.may_lack new.old) (codes ".") (paths_of new_roots.now))) }
    // A source failed once where that is what its side is refused for, and never else.
    ensures old_counted { S.failures old.new ≡ S.failures old.old + side_failures Side.Old result }
    ensures new_counted { T.failures new.new ≡ T.failures new.old + side_failures Side.New result }
    // The sources' reads leave what they may give and lack.
    ensures old_given { S.may_give old.new ≡ S.may_give old.old }
    ensures old_lacked { S.may_lack old.new ≡ S.may_lack old.old }
    ensures new_given { T.may_give new.new ≡ T.may_give new.old }
    ensures new_lacked { T.may_lack new.new ≡ T.may_lack new.old }
{
    let files = BothFiles {
        old: Files {
            folder: ".",
            includes: &[],
            paths: old_roots,
            list: &[],
        },
        new: Files {
            folder: ".",
            includes: &[],
            paths: new_roots,
            list: &[],
        },
    };
    let both = compile_both(alloc, &files, false, old, new)?;
    gate(alloc, &both.old.schema, &both.new.schema, root)
}
