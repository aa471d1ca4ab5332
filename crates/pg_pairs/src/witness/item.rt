//! Items that the messages of choices hold.

ghost use Rattle.std.specs.Prelude.{◌≡◌, length, option_map, IfOk, IfSome};
ghost use Rattle.pg_schema.specs.ShapeRules.{ElementFits};
ghost use Rattle.pg_schema.specs.Shape.{Shape};
ghost use Rattle.pg_dyn.specs.fitting.ContentFits.{ItemFits};
ghost use Rattle.pg_dyn.specs.fitting.ScalarItems.{IsItemOf};
ghost use Rattle.pg_dyn.specs.message.Seen.{leaf_of, IsKey};
ghost use Rattle.pg_dyn.specs.word.Coding.{scalar_form, Raw};
ghost use Rattle.pg_dyn.specs.message.Message.{Bytes, Msg};
ghost use Rattle.pg_pairs.specs.gaps.Gaps.{gap, gap_item, item_of};
ghost use Rattle.pg_pairs.specs.graph.GraphView.{seen};
ghost use Rattle.pg_pairs.specs.witness.Carried.{item_by};
ghost use Rattle.pg_pairs.specs.inner.CarriedItems.{IsChildOf, leaf_by, value_item};
ghost use Rattle.pg_dyn.specs.message.Kept.{message_of};

use crate::gaps::gap_kind::Gap;
use crate::gaps::scalar_gap::gap;
use crate::graph::priced::Priced;
use crate::views::view::View;
use pg_dyn::{Message, Value};
use pg_schema::{Element, EnumId, Scalar};
use std::alloc::{AllocError, Global};

/// An item with a short body: zero; one that isn't zero; or zero but for integers, of which it is
/// 1.
#[derive(Clone, Copy)]
pub(crate) enum Small {
    Zero,
    NotZero,
    Far,
}

/// The short item of bytes, or of a string.
fn small_bytes(alloc: Global, small: Small) -> Result<Vec<u8>, AllocError>
    ensures { IfOk result (λ bytes. Bytes bytes.items ≡ leaf_by small Raw) }
{
    match small {
        Small::NotZero => Vec::from_slice(alloc, &[0x61]),
        Small::Zero | Small::Far => Ok(Vec::new(alloc)),
    }
}

/// The short item of a scalar.
pub(crate) fn small_leaf(alloc: Global, scalar: Scalar, small: Small) -> Result<Value, AllocError>
    ensures leaf { IfOk result (λ value. leaf_of value ≡ leaf_by small (scalar_form scalar)) }
    ensures key { IfOk result IsKey }
    ensures item { IfOk result (IsItemOf scalar) }
{
    let integer = match small {
        Small::Zero => 0,
        Small::NotZero | Small::Far => 1,
    };
    let bits = match small {
        Small::NotZero => 1,
        Small::Zero | Small::Far => 0,
    };
    match scalar {
        Scalar::Float => Ok(Value::F32(bits)),
        Scalar::Double => Ok(Value::F64(u64::from(bits))),
        Scalar::String => Ok(Value::Bytes(small_bytes(alloc, small)?)),
        Scalar::Bytes => Ok(Value::Bytes(small_bytes(alloc, small)?)),
        _ => Ok(Value::Int(integer)),
    }
}

/// The short item of an element; of messages it is the empty one.
pub(crate) fn small_item(alloc: Global, element: Element, small: Small) -> Result<Value, AllocError>
    ensures seen { IfOk result (λ value. value_item value ≡ item_by (leaf_by small) element) }
    ensures fits { IfOk result (λ value. (shape : Shape) → ElementFits (length shape) element
        → ItemFits shape element value) }
{
    match element {
        Element::Message(type_id) => {
            Ok(Value::Msg(Box::new(alloc, Message::empty(alloc, type_id))?))
        }
        Element::Scalar(scalar) => small_leaf(alloc, scalar, small),
        Element::Enum(_) => small_leaf(alloc, Scalar::Int32, small),
    }
}

/// The child as an item, where there is one.
pub(crate) fn child_item(alloc: Global, child: Option<Message>) -> Result<Option<Value>, AllocError>
    ensures seen { IfOk result (λ found. option_map value_item found
        ≡ option_map Msg (option_map message_of child)) }
    ensures fits { IfOk result (λ found. (shape : Shape) (element : Element)
        → IfSome child (IsChildOf shape element) → IfSome found (ItemFits shape element)) }
{
    match child {
        Some(child) => Ok(Some(Value::Msg(Box::new(alloc, child)?))),
        None => Ok(None),
    }
}

/// The item of the gap between two scalar types, where there is one.
fn scalar_gap_item(alloc: Global, old: Scalar, new: Scalar) -> Result<Option<Value>, AllocError>
    ensures item { IfOk result (λ item. option_map leaf_of item
        ≡ item_of (scalar_form old) (gap old new)) }
    ensures key { IfOk result (λ item. IfSome item IsKey) }
    ensures fits { IfOk result (λ item. IfSome item (IsItemOf old)) }
{
    match gap(old, new) {
        Gap::Unlike | Gap::None => Ok(None),
        Gap::Least { value, .. } => match old {
            // The one gap of bytes: a byte that isn't UTF-8.
            Scalar::String | Scalar::Bytes => {
                Ok(Some(Value::Bytes(Vec::from_slice(alloc, &[0x80])?)))
            }
            _ => Ok(Some(Value::Int(value))),
        },
    }
}

/// The least number of an old enum that isn't alike in the new one.
fn enum_gap_item(graph: &Priced<'_>, zero: bool, pair: (EnumId, EnumId)) -> Option<Value>
    ensures item { option_map leaf_of result
        ≡ gap_item (seen graph.now) zero (Element.Enum pair.0)
        (Element.Enum pair.1) }
    ensures key { IfSome result IsKey }
    ensures fits { IfSome result (IsItemOf Scalar.Int32) }
{
    let (Some(from), Some(to)) = (graph.old.enum_type(pair.0), graph.new.enum_type(pair.1)) else {
        return None;
    };
    let number = graph.view.least(from, to, zero)?;
    Some(Value::Int(i128::from(number)))
}

/// The item of the gap between two elements, where there is one: one that counts, with the least
/// body of those that the new element's reader doesn't read as the same item. A scalar beside an
/// enum goes by int32.
pub(crate) fn gap_item(
    alloc: Global,
    graph: &Priced<'_>,
    zero: bool,
    pair: (Element, Element),
) -> Result<Option<Value>, AllocError>
    ensures item { IfOk result (λ item. option_map leaf_of item
        ≡ gap_item (seen graph.now) zero
        pair.0 pair.1) }
    ensures key { IfOk result (λ item. IfSome item IsKey) }
    ensures fits { IfOk result (λ item. (shape : Shape) → IfSome item (ItemFits shape pair.0)) }
{
    match pair {
        (Element::Scalar(from), Element::Scalar(to)) => scalar_gap_item(alloc, from, to),
        (Element::Scalar(from), Element::Enum(_)) => scalar_gap_item(alloc, from, Scalar::Int32),
        (Element::Enum(_), Element::Scalar(to)) => scalar_gap_item(alloc, Scalar::Int32, to),
        (Element::Enum(from), Element::Enum(to)) => Ok(enum_gap_item(graph, zero, (from, to))),
        _ => Ok(None),
    }
}
