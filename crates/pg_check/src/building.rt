//! From linked files to a checked schema.

ghost use Rattle.std.specs.Prelude.{◌≡◌, ◌<◌, IfErr, IfOk, OnOk, Some, length, map};
ghost use Rattle.pg_link.specs.Linked.{IsLinkedUp};
ghost use Rattle.pg_schema.specs.rules.Sound.{IsSound};
ghost use Rattle.pg_schema.specs.declared.parts.Parts.{Parts};
ghost use Rattle.pg_check.specs.Declares.{Declares};
ghost use Rattle.pg_check.specs.parts.EnumPlaces as enums;
ghost use Rattle.pg_check.specs.Errors as spec;
ghost use Rattle.pg_check.specs.parts.ResolvedTypes.{AreResolved};
ghost use Rattle.pg_check.specs.parts.Sources.{linked_sources};
ghost use Rattle.pg_check.specs.inner.Sources.{source};
ghost use Rattle.pg_check.specs.rules.BrokenRules.{IsFirstBroken};
ghost use Rattle.pg_check.specs.inner.FirstBroken.{first_broken};
ghost use Rattle.pg_schema.specs.standing.StandingParts.{StandingParts};

use crate::declare::{FileFault, Refusal, declare};
use crate::error::{CheckError, error_of};
use crate::parts::enum_places::enum_places;
use crate::parts::made_parts::Source;
use crate::rules::by_place::ByPlace;
use crate::rules::types::Targets;
use pg_link::{Linked, place_in};
use pg_schema::Schema;
use std::alloc::{AllocError, Global};

/// The linked files in their order, each with what its type names name.
fn sources_of<'a>(
    alloc: Global,
    linked: &'a Linked,
    places: &'a [usize],
) -> Result<Vec<Source<'a>>, AllocError>
    requires places { places.now ≡ enums.enum_places linked.now.files }
    ensures sources { IfOk result (λ sources. map source sources.items
        ≡ linked_sources linked.now.files) }
    ensures linked { OnOk result (IsLinkedUp linked.now) }
{
    let files = linked.files();
    let mut sources = Vec::new(alloc);
    for number in 0..files.len() {
        let Some((path, file)) = files.get_index(number) else {
            continue;
        };
        let found = ByPlace {
            places: linked.places(number),
            targets: linked.targets(number),
        };
        sources.push(Source {
            path,
            text: &file.bytes,
            tree: &file.tree,
            targets: Targets {
                found,
                enums: places,
            },
        })?;
    }
    Ok(sources)
}

/// The error of the first rule that files break.
fn first_error(
    alloc: Global,
    files: &[Source<'_>],
    found: FileFault,
) -> Result<CheckError, AllocError>
    requires first { first_broken (map source files.now) ≡ Some found }
    requires within { found.file < length files.now }
    ensures { IfOk result (IsFirstBroken (map source files.now)) }
{
    let file = &files[found.file];
    let place = place_in(alloc, file.path, file.text, found.fault.at)?;
    Ok(error_of(found.fault.rule, place))
}

/// The schema that the files declare, whose parts are those of a schema where they break no rule.
/// Refused where memory is, and where a file breaks a rule, with the first rule that the first of
/// such files breaks at its position.
fn schema_of(alloc: Global, files: &[Source<'_>]) -> Result<Schema, CheckError>
    requires sound { (parts : Parts) → Declares (map source files.now) parts → IsSound parts }
    ensures built { IfOk result (λ schema. Declares (map source files.now) schema) }
    ensures refused { IfErr result (spec.IsRefused (map source files.now)) }
{
    let parts = match declare(alloc, files) {
        Ok(parts) => parts,
        Err(Refusal::Memory) => return Err(CheckError::Memory),
        Err(Refusal::Broken(found)) => return Err(first_error(alloc, files, found)?),
    };
    Ok(Schema::of_sound(alloc, parts)?)
}

/// The schema that linked files declare: they keep to the rules of the language, and the schema has
/// exactly the message types, fields and other parts that they state (proto3 language
/// specification, "Proto file"): file after file, message types and services in order of
/// declaration, enums scope by scope, those of the package before those of each message type.
///
/// It reports `Memory` where memory runs out, and the first rule that is broken by its error at its
/// position: of the files, each after those that it imports, the first that breaks one; in it by
/// order of declaration, and of one declaration the lowest code. Files that break no rule are a
/// schema: `BadParts` never comes.
pub fn build(alloc: Global, linked: &Linked) -> Result<Schema, CheckError>
    // The schema has just what the files declare, which keep to the rules.
    ensures built { IfOk result (Declares (linked_sources linked.now.files)) }
    // Files come after those that they import, messages nest at most 64 deep, and all is numbered
    // in the order of a set.
    ensures stands { IfOk result StandingParts }
    // A field's element, and what an rpc takes and returns, has the full name that its type name
    // resolves to.
    ensures resolved { IfOk result (AreResolved linked.now.files) }
    // Memory aside, a refusal names a rule that is broken in the files, the first, at its position.
    ensures refused { IfErr result (spec.IsRefused (linked_sources linked.now.files)) }
{
    let places = enum_places(alloc, linked)?;
    let sources = sources_of(alloc, linked, &places)?;
    schema_of(alloc, &sources)
}
