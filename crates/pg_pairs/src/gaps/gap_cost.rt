//! The bodies of gaps and of children.

ghost use Rattle.std.specs.Prelude.{◌≡◌, ◌<◌, ◌≤◌, ◌^◌, length, IfSome, option_map};
ghost use Rattle.pg_wire.specs.Varint.{varint};
ghost use Rattle.pg_wire.specs.Words.{twos_complement};
ghost use Rattle.pg_schema.specs.declared.parts.enum_type.EnumType.{EnumType};
ghost use Rattle.pg_dyn.specs.word.Coding.{scalar_form};
ghost use Rattle.pg_pairs.specs.choices.Choices.{child_body, gap_body};
ghost use Rattle.pg_pairs.specs.gaps.Gaps.{body_length, gap, item_of};
ghost use Rattle.pg_pairs.specs.graph.GraphView.{seen};

use crate::choices::cost::{varint_bytes, with_length};
use crate::gaps::gap_kind::Gap;
use crate::gaps::scalar_gap::gap;
use crate::graph::children::child_pair;
use crate::graph::priced::Priced;
use crate::graph::table::Table;
use crate::views::view::View;
use pg_dyn::complement_64;
use pg_schema::{Element, EnumId, Scalar};

/// The body of the gap's item between two scalar types.
fn scalar_gap_body(old: Scalar, new: Scalar) -> Option<u64>
    ensures body { result ≡ option_map (body_length (scalar_form old))
        (item_of (scalar_form old) (gap old new)) }
    ensures few { IfSome result (λ body. body < 2 ^ 33) }
{
    match gap(old, new) {
        Gap::Least { body, .. } => Some(u64::from(body)),
        Gap::Unlike | Gap::None => None,
    }
}

/// The bytes of an enum's number, which are few.
fn number_bytes(number: i32) -> u64
    ensures bytes { result ≡ length (varint (twos_complement (2 ^ 64) number)) }
    ensures few { result ≤ 10 }
{
    varint_bytes(complement_64(i128::from(number)))
}

/// The body of the least number that isn't alike in two enums.
#[tactic(auto, unfolding(pg_dyn::specs::word::Coding::word_bytes))]
fn enum_gap_body(graph: &Priced<'_>, zero: bool, pair: (EnumId, EnumId)) -> Option<u64>
    ensures body { result ≡ gap_body (seen graph.now) zero
        (Element.Enum pair.0) (Element.Enum pair.1) }
    ensures few { IfSome result (λ body. body < 2 ^ 33) }
{
    let (Some(from), Some(to)) = (graph.old.enum_type(pair.0), graph.new.enum_type(pair.1)) else {
        return None;
    };
    let number = graph.view.least(from, to, zero)?;
    Some(number_bytes(number))
}

/// The least body of an item that counts and that the new element's reader doesn't read as the same
/// item; `None` where each is. A scalar beside an enum goes by int32.
pub(crate) fn gap_body(graph: &Priced<'_>, zero: bool, pair: (Element, Element)) -> Option<u64>
    ensures body { result ≡ gap_body (seen graph.now) zero pair.0 pair.1 }
    ensures few { IfSome result (λ body. body < 2 ^ 33) }
{
    match pair {
        (Element::Scalar(from), Element::Scalar(to)) => scalar_gap_body(from, to),
        (Element::Scalar(from), Element::Enum(_)) => scalar_gap_body(from, Scalar::Int32),
        (Element::Enum(_), Element::Scalar(to)) => scalar_gap_body(Scalar::Int32, to),
        (Element::Enum(from), Element::Enum(to)) => enum_gap_body(graph, zero, (from, to)),
        _ => None,
    }
}

/// A breaking child of its bound's length, as a body; `None` where the table has no number for it.
pub(crate) fn child_body<T: Table>(table: &T, pair: (Element, Element)) -> Option<u64>
    ensures body { result ≡ child_body (T.bounds table.now) pair.0 pair.1 }
    ensures few { IfSome result (λ body. body < 2 ^ 33) }
{
    match table.bound(child_pair(pair.0, pair.1)?) {
        Some(Some(bound)) => Some(with_length(u64::from(bound))),
        Some(None) | None => None,
    }
}
