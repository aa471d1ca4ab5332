//! Scalar types, and what type names name.

ghost use Rattle.std.specs.Prelude.{◌≡◌};
ghost use Rattle.pg_schema.specs.rules.Fields.{is_key};
ghost use Rattle.pg_check.specs.inner.Sources.{target_in};
ghost use Rattle.pg_check.specs.rules.Types as spec;

use crate::rules::by_place::ByPlace;
use pg_link::Target;
use pg_schema::{Element, Scalar};
use pg_syntax::tree::TypeName;

/// What the type names of a file name, by the byte at which each begins; and for each enum, in
/// order of declaration, its index in the schema.
#[derive(Drop)]
pub(crate) struct Targets<'a> {
    pub found: ByPlace<'a>,
    pub enums: &'a [usize],
}

impl Targets<'_> {
    /// What the type name that begins there names.
    pub(crate) fn at(&self, at: usize) -> Option<Target>
        ensures { result ≡ target_in self.now at }
    {
        match self.found.at(at) {
            Some(Target::Message(number)) => Some(Target::Message(number)),
            Some(Target::Enum(number)) => match self.enums.get(number) {
                Some(place) => Some(Target::Enum(*place)),
                None => Some(Target::Enum(0)),
            },
            None => None,
        }
    }
}

/// The scalar type that the name is, which then is one word without a dot.
pub(crate) fn scalar_named(name: &TypeName) -> Option<Scalar>
    ensures { result ≡ spec.scalar_named name.now }
{
    if !name.is_full && name.path.more.is_empty() {
        Scalar::named(&name.path.first.text)
    } else {
        None
    }
}

/// The scalar may be a map's key.
fn is_key(scalar: Scalar) -> bool
    ensures { result ≡ is_key scalar }
{
    !matches!(scalar, Scalar::Double | Scalar::Float | Scalar::Bytes)
}

/// The type is an integral one, bool or string.
pub(crate) fn is_key_type(name: &TypeName) -> bool
    ensures { result ≡ spec.is_key_type name.now }
{
    match scalar_named(name) {
        Some(scalar) => is_key(scalar),
        None => false,
    }
}

/// What the type name that begins there names is an enum.
fn is_enum(targets: &Targets<'_>, at: usize) -> bool
    ensures { result ≡ spec.is_enum (target_in targets.now at) }
{
    match targets.at(at) {
        Some(Target::Enum(_)) => true,
        Some(Target::Message(_)) => false,
        None => false,
    }
}

/// A list of such items can be in one record.
pub(crate) fn is_packable_type(targets: &Targets<'_>, name: &TypeName) -> bool
    ensures { result ≡ spec.is_packable_type (target_in targets.now) name.now }
{
    match scalar_named(name) {
        Some(scalar) => Element::Scalar(scalar).is_packable(),
        None => is_enum(targets, name.span.from),
    }
}
