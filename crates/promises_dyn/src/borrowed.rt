//! What messages that borrow hold.

ghost use Rattle.std.specs.Prelude.{◌≡◌, ◌↔◌, ◌<◌, [], map, length, slice_get};
ghost use Rattle.std.specs.Prelude.{IfOk, IfSome, Some, IsTrue, MatchOption};
ghost use Rattle.std.specs.List.{AllByRecursion};
ghost use Rattle.pg_schema.specs.Shape.{Shape};
ghost use Rattle.pg_schema.specs.ShapeRules.{IsShape};
ghost use Rattle.pg_wire.specs.Reads.{seen_record};
ghost use Rattle.pg_dyn.specs.message_ref.Borrowed as borrowed;
ghost use Rattle.pg_dyn.specs.fitting.Fits.{Fits};
ghost use Rattle.pg_dyn.specs.fitting.PartsFit.{HoldsPart};
ghost use Rattle.pg_dyn.specs.message.KeptParts.{IsPlain, of_number, unknown_of};
ghost use Rattle.pg_dyn.specs.message.Kept.{ends, type_of};
ghost use Rattle.pg_dyn.specs.word.NumberLists.{IsNumber, numbers_in};
ghost use Rattle.pg_dyn.specs.message.Seen.{Rises};

use pg_dyn::{ContentRef, Message, MessageRef, NumberList, ValueRef};
use pg_schema::TypeId;
use pg_wire::Record;
use std::alloc::{AllocError, Global};

/// What `MessageRef::type_id` answers.
pub fn type_id(message: &MessageRef<'_>) -> TypeId
    ensures { result ≡ type_of message.now }
{
    message.type_id()
}

/// What `MessageRef::get` answers.
pub fn get<'m, 'a>(message: &'m MessageRef<'a>, number: u32) -> Option<&'m ContentRef<'a>>
    ensures content { MatchOption result (of_number number message.now ≡ [])
        (λ content. of_number number message.now ≡ borrowed.content_seen number content.now) }
    ensures filled { IfSome result (λ content. borrowed.IsFilled content.now) }
    ensures keys { IfSome result (λ content. borrowed.HasKeys content.now) }
    ensures fits { IfSome result (λ content. (shape : Shape) → IsShape shape
        → Fits shape message.now
        → AllByRecursion (HoldsPart shape (type_of message.now))
        (borrowed.content_seen number content.now)) }
{
    message.get(number)
}

/// What `MessageRef::contents` answers.
pub fn contents<'m, 'a>(message: &'m MessageRef<'a>) -> &'m [(u32, ContentRef<'a>)]
    ensures whole { message.now ≡ borrowed.fields_onto result.now
        (ends (type_of message.now) (unknown_of message.now)) }
    ensures rises { Rises result.now }
    ensures filled { AllByRecursion (λ f. borrowed.IsFilled f.1) result.now }
    ensures keys { AllByRecursion (λ f. borrowed.HasKeys f.1) result.now }
{
    message.contents()
}

/// What `MessageRef::unknown` answers.
pub fn unknown<'m, 'a>(message: &'m MessageRef<'a>) -> &'m [Record<'a>]
    ensures { map seen_record result.now ≡ unknown_of message.now }
{
    message.unknown()
}

/// What `MessageRef::is_plain` answers.
pub fn is_plain(message: &MessageRef<'_>) -> bool
    ensures { IsTrue result ↔ IsPlain message.now }
{
    message.is_plain()
}

/// What `MessageRef::to_message` answers.
pub fn to_message(alloc: Global, message: &MessageRef<'_>) -> Result<Message, AllocError>
    ensures { IfOk result (λ owned. owned ≡ message.now) }
{
    message.to_message(alloc)
}

/// What `NumberList::len` answers.
pub fn count(numbers: &NumberList) -> usize
    ensures { result ≡ length (numbers_in numbers.now) }
{
    numbers.len()
}

/// What `NumberList::get` answers.
pub fn number<'a>(numbers: &NumberList, at: usize) -> ValueRef<'a>
    requires { at < length (numbers_in numbers.now) }
    ensures item { slice_get (numbers_in numbers.now) at ≡ Some result }
    ensures number { IsNumber result }
{
    numbers.get(at)
}
