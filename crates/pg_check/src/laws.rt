//! Laws over the definitions alone.

ghost use Rattle.std.specs.Prelude.{◌≡◌, List, ℕ};
ghost use Rattle.pg_schema.specs.rules.Sound.{IsSound};
ghost use Rattle.pg_schema.specs.declared.parts.field.Element.{Element};
ghost use Rattle.pg_schema.specs.declared.parts.Parts.{Parts};
ghost use Rattle.pg_syntax.specs.declared.tree.TypeName.{TypeName};
ghost use Rattle.pg_link.specs.Linked.{IsLinkedUp, LinkedFiles};
ghost use Rattle.pg_link.specs.walk.Walk.{Entry};
ghost use Rattle.pg_check.specs.admitting.BrokenParts.{IsFirstBrokenPart};
ghost use Rattle.pg_check.specs.admitting.KeepsParts.{KeepsAll};
ghost use Rattle.pg_check.specs.admitting.SoundParts.{HaveInt32s};
ghost use Rattle.pg_check.specs.rules.BrokenRules.{IsFirstBroken};
ghost use Rattle.pg_check.specs.Declares.{Declares};
ghost use Rattle.pg_check.specs.Examples.{WorkedRules};
ghost use Rattle.pg_check.specs.inner.Examples.{WorkedFaults};
ghost use Rattle.pg_check.specs.rules.KeepsRules.{KeepsRules};
ghost use Rattle.pg_check.specs.parts.MadeParts.{Source};
ghost use Rattle.pg_check.specs.RuleCodes.{AreRuleCodes};
ghost use Rattle.pg_check.specs.parts.PackedFields.{ArePackedByMeaning};
ghost use Rattle.pg_check.specs.parts.ResolvedTypes.{AreResolved, ResolvesTo, full_name_of};
ghost use Rattle.pg_check.specs.parts.Sources.{linked_sources};
ghost use Rattle.pg_schema.specs.standing.StandingParts.{StandingParts};
ghost use Rattle.pg_check.specs.declared.error.CheckError.{CheckError};

/// What the rules take and what they refuse, by small examples.
pub fn worked_rules()
    ensures kept { WorkedRules }
    ensures faults { WorkedFaults }
{}

/// Files that keep to the rules break none. So, memory aside, `build` answers a schema exactly
/// where each message type, enum, service and option of the files keeps to them, and there are at
/// most 4,096 message types.
pub fn kept_rules()
    ensures { (files : List Source) (e : CheckError) → KeepsRules files
        → IsFirstBroken files e → ⊥ }
{}

/// Parts that come from no source file and keep to the rules break none: `admit` reports no rule of
/// them.
pub fn kept_part_rules()
    ensures { (parts : Parts) (e : CheckError) → KeepsAll parts → IsFirstBrokenPart parts e → ⊥ }
{}

/// The parts of a schema keep to the rules, where numbers of enums are `int32`, as in every
/// program. So parts that break a rule are no schema: `admit` takes none of them.
pub fn sound_parts_keep()
    ensures { (parts : Parts) → IsSound parts → HaveInt32s parts → KeepsAll parts }
{}

/// The parts of linked files that keep to the rules are those of a schema: their names are words,
/// what is named is there, each type is declared once and in its scope, and full names differ.
pub fn linked_parts()
    ensures { (linked : LinkedFiles) (parts : Parts) → IsLinkedUp linked
        → Declares (linked_sources linked.files) parts → IsSound parts }
{}

/// The parts of linked files are in the order of a set: each file imports no path twice and comes
/// after those that it imports, message types are nested at most 64 deep, and message types, enums
/// and services are numbered in order.
pub fn linked_parts_stand()
    ensures { (linked : LinkedFiles) (parts : Parts) → IsLinkedUp linked
        → Declares (linked_sources linked.files) parts → StandingParts parts }
{}

/// The type names of linked files name in the parts what they resolve to: of each field, map and
/// rpc the type name that is no scalar word resolves to a full name, and the message type or enum
/// that the parts name there has that full name. What one type name names has one full name, so
/// that no field has the type of another one's name.
pub fn resolved_types()
    ensures resolved { (linked : LinkedFiles) (parts : Parts) → IsLinkedUp linked
        → Declares (linked_sources linked.files) parts → AreResolved linked.files parts }
    ensures alone { (files : List Entry) (parts : Parts) (file : Entry) (scope : List ℕ)
        (name : TypeName) (one other : Element) → ResolvesTo files parts file scope name one
        → ResolvesTo files parts file scope name other
        → full_name_of parts one ≡ full_name_of parts other }
{}

/// A field of linked files may be packed, by the rules, exactly where it is repeated and its type
/// name means a number, bool or enum. So what E412 says by the byte of a type name is said of the
/// field's type.
pub fn packed_fields()
    ensures { (linked : LinkedFiles) → IsLinkedUp linked → ArePackedByMeaning linked.files }
{}

/// The code in the fact that a rule is broken is the code of its error, of files and of parts
/// alike.
pub fn rule_codes()
    ensures { AreRuleCodes }
{}
