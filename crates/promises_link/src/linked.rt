//! What a caller may ask of linked files.

ghost use Rattle.std.specs.Prelude.{◌≡◌, ◌<◌, ◌∷◌, IfErr, IfNone, IfOk, IfSome, Some, length, map, slice_get, string_bytes, ℕ};
ghost use Rattle.pg_link.specs.names.Files.{all_names, visible_names};
ghost use Rattle.pg_link.specs.names.Names.{texts, without_dot};
ghost use Rattle.pg_link.specs.Linked.{IsDeclaredAt, IsDeclaredNowhere, IsLinkedUp};
ghost use Rattle.pg_link.specs.names.Resolves.{Resolves, reference};
ghost use Rattle.pg_link.specs.uses.Targets.{all_declared, enum_names, file_places, file_targets};
ghost use Rattle.pg_link.specs.uses.UseFaults.{IsNoName};
ghost use Rattle.pg_link.specs.walk.Walk.{Entry, outlines, path_of};

use indexmap::IndexMap;
use pg_link::{LinkError, Linked, SourceFile, Target};
use pg_syntax::tree::TypeName;
use std::alloc::Global;

/// What `Linked::files` answers. Only an edit reads the other files.
pub fn files<'a>(linked: &'a Linked, _other: &'a Linked) -> &'a IndexMap<String, SourceFile>
    ensures files { result.now.entries ≡ linked.now.files }
    ensures linked { IsLinkedUp linked.now }
{
    linked.files()
}

/// What `Linked::targets` answers.
pub fn targets(linked: &Linked, file: usize) -> &[Target]
    requires { file < length linked.now.files }
    ensures targets { slice_get linked.now.targets file ≡ Some result.now }
    ensures resolved { (e : Entry) → slice_get linked.now.files file ≡ Some e
        → map Some result.now ≡ file_targets linked.now.files e }
{
    linked.targets(file)
}

/// What `Linked::places` answers.
pub fn places(linked: &Linked, file: usize) -> &[usize]
    requires { file < length linked.now.files }
    ensures { (e : Entry) → slice_get linked.now.files file ≡ Some e → result.now ≡ file_places e }
{
    linked.places(file)
}

/// What `Linked::enum_names` answers.
pub fn enum_names(linked: &Linked) -> &[String]
    ensures { map string_bytes result.now
        ≡ map without_dot (enum_names (all_declared linked.now.files)) }
{
    linked.enum_names()
}

/// What `Linked::resolve` answers.
pub fn resolve<'a>(
    linked: &'a Linked,
    alloc: Global,
    file: usize,
    scope: &[&str],
    name: &TypeName,
) -> Result<&'a str, LinkError>
    requires { file < length linked.now.files }
    ensures resolves { IfOk result (λ full. (e : Entry) → slice_get linked.now.files file ≡ Some e
        → Resolves (visible_names (outlines linked.now.files) (path_of e)) (texts scope.now)
        (reference name.now) (46 ∷ full.now)) }
    ensures refused { IfErr result (λ error. (e : Entry) → slice_get linked.now.files file ≡ Some e
        → IsNoName (visible_names (outlines linked.now.files) (path_of e))
        (all_names (outlines linked.now.files)) (texts scope.now) (reference name.now)
        (path_of e) error) }
{
    linked.resolve(alloc, file, scope, name)
}

/// What `Linked::place` answers.
pub fn place<'a>(linked: &'a Linked, full_name: &str) -> Option<(&'a str, usize, usize)>
    ensures place { IfSome result (λ p.
        IsDeclaredAt linked.now.files full_name.now p.0.now p.1 p.2) }
    ensures absent { IfNone result (IsDeclaredNowhere linked.now.files full_name.now) }
{
    linked.place(full_name)
}
