//! Rules of the proto3 language that are broken, and where.

ghost use Rattle.std.specs.Prelude.{◌≡◌};
ghost use Rattle.pg_check.specs.inner.Faults as spec;

/// A rule of the proto3 language, in the order in which the rules of one declaration are reported.
#[derive(Clone, Copy, PartialEq, Eq)]
pub(crate) enum Rule {
    /// E401: a number is one that a field, a value or a reserved item may have.
    BadNumber,
    /// E402: no two fields of a message have one number.
    DuplicateNumber,
    /// E403: a field's or value's number isn't reserved.
    ReservedNumber,
    /// E404: a field's or value's name isn't reserved.
    ReservedName,
    /// E405: reserved ranges rise and don't overlap.
    RangeOverlap,
    /// E406: no two fields of a message have one JSON name.
    JsonNameClash,
    /// E407: a map's key is of an integral type, bool or string.
    BadMapKey,
    /// E408: a oneof has a member, and each is singular and without `optional`.
    BadOneofMember,
    /// E409: an enum's first value is 0.
    EnumFirstNotZero,
    /// E410: two values of one number need `allow_alias`.
    EnumAlias,
    /// E411: an option is known, of its kind, and given once.
    BadOption,
    /// E412: only a repeated field of a packable element is packed.
    PackedNotAllowed,
    /// E413: there are at most 4,096 message types.
    TooManyTypes,
    /// E414: an enum has a value.
    EnumEmpty,
}

impl Rule {
    /// The rule's rank among all rules, which is the number of its code.
    pub(crate) fn order(self) -> u16
        ensures { result ≡ spec.order self }
    {
        match self {
            Rule::BadNumber => 401,
            Rule::DuplicateNumber => 402,
            Rule::ReservedNumber => 403,
            Rule::ReservedName => 404,
            Rule::RangeOverlap => 405,
            Rule::JsonNameClash => 406,
            Rule::BadMapKey => 407,
            Rule::BadOneofMember => 408,
            Rule::EnumFirstNotZero => 409,
            Rule::EnumAlias => 410,
            Rule::BadOption => 411,
            Rule::PackedNotAllowed => 412,
            Rule::TooManyTypes => 413,
            Rule::EnumEmpty => 414,
        }
    }
}

/// A rule that a file breaks, with offsets in the file.
#[derive(Clone, Copy, PartialEq, Eq)]
pub(crate) struct Fault {
    pub rule: Rule,
    /// Where the declaration is: its name, or the first token of an option or reserved item.
    pub declared: usize,
    /// Where the fault is reported: there, or at an option of the declaration.
    pub at: usize,
}

/// One fault comes before another in the file, or at one declaration in the order of the rules.
fn is_before(one: Fault, other: Fault) -> bool
    ensures { result ≡ spec.is_before one other }
{
    one.declared < other.declared
        || (one.declared == other.declared && one.rule.order() <= other.rule.order())
}

/// The one of two faults that comes first.
pub(crate) fn earlier(one: Option<Fault>, other: Option<Fault>) -> Option<Fault>
    ensures { result ≡ spec.earlier one other }
{
    match (one, other) {
        (None, other) => other,
        (Some(one), None) => Some(one),
        (Some(one), Some(other)) => {
            if is_before(one, other) {
                Some(one)
            } else {
                Some(other)
            }
        }
    }
}

/// The fault of a rule that is broken at a declaration.
pub(crate) fn broken(rule: Rule, place: Option<usize>) -> Option<Fault>
    ensures { result ≡ spec.broken rule place }
{
    match place {
        Some(at) => Some(Fault {
            rule,
            declared: at,
            at,
        }),
        None => None,
    }
}

/// The fault of a rule that a declaration breaks at an option of it.
pub(crate) fn declared_fault(rule: Rule, declared: usize, place: Option<usize>) -> Option<Fault>
    ensures { result ≡ spec.declared_fault rule declared place }
{
    match place {
        Some(at) => Some(Fault { rule, declared, at }),
        None => None,
    }
}
