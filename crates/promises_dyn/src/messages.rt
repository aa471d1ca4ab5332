//! What messages hold, and how contents are set.

ghost use Rattle.std.specs.Prelude.{◌≡◌, ◌<◌, ◌↔◌, length, [], map, IfSome, MatchOption, OnOk, IfOk, IfErr, IsTrue};
ghost use Rattle.std.specs.List.{AllByRecursion};
ghost use Rattle.pg_schema.specs.Parts.{shape_of};
ghost use Rattle.pg_schema.specs.Shape.{Shape};
ghost use Rattle.pg_schema.specs.ShapeRules.{IsShape};
ghost use Rattle.pg_dyn.specs.declared.error.DynError.TheVariants as errors;
ghost use Rattle.pg_dyn.specs.setting.ContentFaults.{ContentFault, ContentsFault, HasNoEarlyFault, HasNoFault, IsContentOf, MayRefuseFor};
ghost use Rattle.pg_dyn.specs.fitting.ContentFits.{HoldsContent};
ghost use Rattle.pg_dyn.specs.fitting.Fits.{Fits};
ghost use Rattle.pg_dyn.specs.message.KeptParts.{IsPlain, of_number, unknown_of};
ghost use Rattle.pg_dyn.specs.message.Kept.{ends, type_of};
ghost use Rattle.pg_dyn.specs.message.Seen.{HasBody, HasKeys, IsFilled, Rises, content_seen, fields_onto, record_seen};
ghost use Rattle.pg_dyn.specs.setting.Setting.{IsSetTo, IsWhole};

use pg_dyn::{Content, DynError, Message, UnknownRecord};
use pg_schema::{Schema, TypeId};
use std::alloc::Global;

/// What `Message::empty` answers.
pub fn empty(alloc: Global, type_id: TypeId) -> Message
    ensures { result ≡ ends type_id [] }
{
    Message::empty(alloc, type_id)
}

/// What `Message::type_id` answers.
pub fn type_id(message: &Message) -> TypeId
    ensures { result ≡ type_of message.now }
{
    message.type_id()
}

/// What `Message::get` answers.
pub fn get(message: &Message, number: u32) -> Option<&Content>
    ensures content { MatchOption result (of_number number message.now ≡ [])
        (λ content. of_number number message.now ≡ content_seen number content.now) }
    ensures filled { IfSome result (λ content. IsFilled content.now) }
    ensures keys { IfSome result (λ content. HasKeys content.now) }
    ensures fits { IfSome result (λ content. (shape : Shape) → IsShape shape
        → Fits shape message.now → HoldsContent shape (type_of message.now) (number, content.now)) }
{
    message.get(number)
}

/// What `Message::contents` answers.
pub fn contents(message: &Message) -> &[(u32, Content)]
    ensures whole { message.now ≡ fields_onto result.now
        (ends (type_of message.now) (unknown_of message.now)) }
    ensures rises { Rises result.now }
    ensures filled { AllByRecursion (λ f. IsFilled f.1) result.now }
    ensures keys { AllByRecursion (λ f. HasKeys f.1) result.now }
{
    message.contents()
}

/// What `Message::unknown` answers.
pub fn unknown(message: &Message) -> &[UnknownRecord]
    ensures records { map record_seen result.now ≡ unknown_of message.now }
    ensures bodies { AllByRecursion HasBody result.now }
{
    message.unknown()
}

/// What `Message::is_plain` answers.
pub fn is_plain(message: &Message) -> bool
    ensures { IsTrue result ↔ IsPlain message.now }
{
    message.is_plain()
}

/// What `fits` answers.
pub fn fits(schema: &Schema, message: &Message) -> bool
    ensures { IsTrue result ↔ Fits (shape_of schema.now) message.now }
{
    pg_dyn::fits(schema, message)
}

/// What `Message::set` does.
pub fn set(
    message: &mut Message,
    schema: &Schema,
    number: u32,
    content: Content,
) -> Result<(), (DynError, Content)>
    requires fits { Fits (shape_of schema.now) message.old }
    ensures ok { OnOk result (IsSetTo
        (shape_of schema.now) number content message.old message.new) }
    ensures fits { OnOk result (Fits (shape_of schema.now) message.new) }
    ensures content { OnOk result
        (IsContentOf (shape_of schema.now) (type_of message.old) number content) }
    ensures refused { IfErr result (λ e. (e.1 ≡ content) × (message.new ≡ message.old)
        × MayRefuseFor (ContentFault (shape_of schema.now) (type_of message.old) number content)
        e.0) }
    ensures lacking { IfErr result (λ e. e.0 ≡ errors.Memory → HasNoEarlyFault
        (ContentFault (shape_of schema.now) (type_of message.old) number content)) }
{
    message.set(schema, number, content)
}

/// What `Message::put` does.
pub fn put(
    message: &mut Message,
    schema: &Schema,
    number: u32,
    content: Content,
) -> Result<(), Content>
    requires fits { Fits (shape_of schema.now) message.old }
    requires content { IsContentOf (shape_of schema.now) (type_of message.old) number content }
    ensures ok { OnOk result (IsSetTo
        (shape_of schema.now) number content message.old message.new) }
    ensures fits { OnOk result (Fits (shape_of schema.now) message.new) }
    ensures refused { IfErr result (λ back. (back ≡ content) × (message.new ≡ message.old)) }
{
    message.put(schema, number, content)
}

/// What `Message::whole` answers.
pub fn whole(
    alloc: Global,
    schema: &Schema,
    type_id: TypeId,
    contents: Vec<(u32, Content)>,
) -> Result<Message, DynError>
    requires type_id { type_id.index < length (shape_of schema.now) }
    ensures ok { IfOk result (IsWhole (shape_of schema.now) type_id contents.items) }
    ensures fits { IfOk result (Fits (shape_of schema.now)) }
    ensures accepted { OnOk result (HasNoFault
        (ContentsFault (shape_of schema.now) type_id contents.items)) }
    ensures refused { IfErr result (MayRefuseFor
        (ContentsFault (shape_of schema.now) type_id contents.items)) }
    ensures lacking { IfErr result (λ e. e ≡ errors.Memory → HasNoEarlyFault
        (ContentsFault (shape_of schema.now) type_id contents.items)) }
{
    Message::whole(alloc, schema, type_id, contents)
}
