//! The search.

ghost use Rattle.std.specs.Prelude.{◌≡◌, ◌<◌, ◌≤◌, true, false, is_some, length, IfOk};
ghost use Rattle.pg_schema.specs.Parts.{shape_of};
ghost use Rattle.pg_dyn.specs.encoding.Encoding.{cap, enc};
ghost use Rattle.pg_dyn.specs.fitting.Fits.{Fits};
ghost use Rattle.pg_dyn.specs.message.Kept.{message_of, type_of};
ghost use Rattle.pg_dyn.specs.declared.view_name.ViewName.TheVariants as views;
ghost use Rattle.pg_pairs.specs.choices.Choices.{number_for};
ghost use Rattle.pg_pairs.specs.graph.Edges.{edges};
ghost use Rattle.pg_pairs.specs.views.EnumView.{by_numbers};
ghost use Rattle.pg_pairs.specs.graph.GraphView.{seen};
ghost use Rattle.pg_cert.specs.Certificate.{bound_in};
ghost use Rattle.pg_least.specs.Beside.{IsBesideClaim};
ghost use Rattle.pg_least.specs.inner.Descent.{IsTableOf};
ghost use Rattle.pg_least.specs.Searched.{IsSearched, CarriesWitness};
ghost use Rattle.pg_least.specs.Least.{IsCounted};

use crate::least_bounds::settle;
use crate::witness::witness;
use pg_cert::{Bounds, Certificate};
use pg_dyn::{DynError, Message, encode};
use pg_pairs::laws::{
    exact_is_least, least_costs_are_exact, least_costs_by_edges, none_is_compatible,
    numbers_are_alike, sees,
};
use pg_pairs::{Numbers, Pair, Priced, Table, Work};
use pg_schema::Schema;
use std::alloc::{AllocError, Global};

/// What a search finds: the certificate, and the breaking message whose bytes are in it, where it
/// has one.
#[derive(Drop)]
pub struct Found {
    pub certificate: Certificate,
    pub witness: Option<Message>,
}

/// The bytes of a message that an encoding has room for.
fn written(alloc: Global, schema: &Schema, message: &Message) -> Result<Vec<u8>, AllocError>
    requires fits { Fits (shape_of schema.now) message.now }
    requires room { length (enc (shape_of schema.now) (type_of message.now)
        (message_of message.now)) ≤ cap }
    ensures { IfOk result (λ bytes. bytes.items
        ≡ enc (shape_of schema.now) (type_of message.now) (message_of message.now)) }
{
    match encode(alloc, schema, message) {
        Ok(bytes) => Ok(bytes),
        Err(DynError::Memory) => Err(AllocError),
        Err(_) => unreachable!(),
    }
}

/// The certificate of a root whose bound is a number.
fn broken(
    alloc: Global,
    graph: &Priced<'_>,
    root: Pair,
    bounds: Bounds,
) -> Result<Found, AllocError>
    requires table { IsTableOf (seen graph.now) (shape_of graph.now.old.now)
        (shape_of graph.now.new.now) root bounds }
    requires number { is_some (number_for (bound_in bounds) root) ≡ true }
    ensures searched { IfOk result (λ found. IsSearched (seen graph.now)
        (shape_of graph.now.old.now) (shape_of graph.now.new.now) root found.certificate) }
    ensures carried { IfOk result (λ found. CarriesWitness (seen graph.now)
        (shape_of graph.now.old.now) (shape_of graph.now.new.now) found.certificate) }
    ensures witness { IfOk result (λ found. IsBesideClaim (seen graph.now)
        (shape_of graph.now.old.now) (shape_of graph.now.new.now) found.certificate
        found.witness) }
    ensures bounds { IfOk result (λ found. found.certificate.bounds ≡ bounds) }
    ensures named { IfOk result (λ found. found.certificate.view ≡ graph.now.view) }
{
    // What holds of every schema, every view and every table.
    graph.old.parts();
    graph.new.parts();
    sees(graph);
    exact_is_least();
    none_is_compatible();
    bounds.len();
    let message = witness(alloc, graph, &bounds, root)?;
    let bytes = written(alloc, graph.old, &message)?;
    match Certificate::new(graph.view, root, bounds, Some(bytes)) {
        Ok(certificate) => Ok(Found {
            certificate,
            witness: Some(message),
        }),
        // The bytes are as many as the bound says.
        Err(_) => unreachable!(),
    }
}

/// The certificate of a root that no message breaks.
fn unbroken(graph: &Priced<'_>, root: Pair, bounds: Bounds) -> Found
    requires table { IsTableOf (seen graph.now) (shape_of graph.now.old.now)
        (shape_of graph.now.new.now) root bounds }
    requires none { is_some (number_for (bound_in bounds) root) ≡ false }
    ensures searched { IsSearched (seen graph.now) (shape_of graph.now.old.now)
        (shape_of graph.now.new.now) root result.certificate }
    ensures carried { CarriesWitness (seen graph.now) (shape_of graph.now.old.now)
        (shape_of graph.now.new.now) result.certificate }
    ensures witness { IsBesideClaim (seen graph.now) (shape_of graph.now.old.now)
        (shape_of graph.now.new.now) result.certificate result.witness }
    ensures bounds { result.certificate.bounds ≡ bounds }
    ensures named { result.certificate.view ≡ graph.now.view }
{
    // What holds of every schema and every view.
    graph.old.parts();
    graph.new.parts();
    sees(graph);
    exact_is_least();
    none_is_compatible();
    match Certificate::new(graph.view, root, bounds, None) {
        Ok(certificate) => Found {
            certificate,
            witness: None,
        },
        // No witness is always one.
        Err(_) => unreachable!(),
    }
}

/// The certificate of a root with that table.
fn certified(
    alloc: Global,
    graph: &Priced<'_>,
    root: Pair,
    bounds: Bounds,
) -> Result<Found, AllocError>
    requires { IsTableOf (seen graph.now) (shape_of graph.now.old.now)
        (shape_of graph.now.new.now) root bounds }
    ensures searched { IfOk result (λ found. IsSearched (seen graph.now)
        (shape_of graph.now.old.now) (shape_of graph.now.new.now) root found.certificate) }
    ensures carried { IfOk result (λ found. CarriesWitness (seen graph.now)
        (shape_of graph.now.old.now) (shape_of graph.now.new.now) found.certificate) }
    ensures witness { IfOk result (λ found. IsBesideClaim (seen graph.now)
        (shape_of graph.now.old.now) (shape_of graph.now.new.now) found.certificate
        found.witness) }
    ensures bounds { IfOk result (λ found. found.certificate.bounds ≡ bounds) }
    ensures named { IfOk result (λ found. found.certificate.view ≡ graph.now.view) }
{
    match bounds.bound(root) {
        Some(Some(_)) => broken(alloc, graph, root, bounds),
        _ => Ok(unbroken(graph, root, bounds)),
    }
}

/// The table of the pair under the view, least first, with the work that it took.
fn settled(alloc: Global, graph: &Priced<'_>, root: Pair) -> Result<(Bounds, Work), AllocError>
    requires old_type { root.old.index < length (shape_of graph.now.old.now) }
    requires new_type { root.new.index < length (shape_of graph.now.new.now) }
    ensures table { IfOk result (λ found. IsTableOf (seen graph.now)
        (shape_of graph.now.old.now) (shape_of graph.now.new.now) root found.0) }
    ensures counted { IfOk result (λ found. IsCounted
        (edges (shape_of graph.now.old.now) (shape_of graph.now.new.now)) found.0 found.1) }
{
    // What holds of every schema, and of all choices.
    graph.old.parts();
    least_costs_are_exact();
    least_costs_by_edges();
    settle(alloc, graph, root)
}

/// What a search finds under the view, with the work that its table took.
fn found_counted(alloc: Global, graph: &Priced<'_>, root: Pair) -> Result<(Found, Work), AllocError>
    requires old_type { root.old.index < length (shape_of graph.now.old.now) }
    requires new_type { root.new.index < length (shape_of graph.now.new.now) }
    ensures searched { IfOk result (λ found. IsSearched (seen graph.now)
        (shape_of graph.now.old.now) (shape_of graph.now.new.now) root found.0.certificate) }
    ensures carried { IfOk result (λ found. CarriesWitness (seen graph.now)
        (shape_of graph.now.old.now) (shape_of graph.now.new.now) found.0.certificate) }
    ensures witness { IfOk result (λ found. IsBesideClaim (seen graph.now)
        (shape_of graph.now.old.now) (shape_of graph.now.new.now) found.0.certificate
        found.0.witness) }
    ensures named { IfOk result (λ found. found.0.certificate.view ≡ graph.now.view) }
    ensures counted { IfOk result (λ found. IsCounted
        (edges (shape_of graph.now.old.now) (shape_of graph.now.new.now))
        found.0.certificate.bounds found.1) }
{
    let (bounds, work) = settled(alloc, graph, root)?;
    let found = certified(alloc, graph, root, bounds)?;
    Ok((found, work))
}

/// The certificate of a pair of types under the graph's view, which it names: the bounds of all
/// pairs that it leads to, each the length of the shortest message of its pair that breaks, or
/// 'none' where no message does; and where the pair's own bound is a number, a breaking message of
/// just so many bytes, which is beside it. Both types of the pair have to be there.
///
/// Refused only where memory is.
pub fn find_with(alloc: Global, graph: &Priced<'_>, root: Pair) -> Result<Found, AllocError>
    requires old_type { root.old.index < length (shape_of graph.now.old.now) }
    requires new_type { root.new.index < length (shape_of graph.now.new.now) }
    ensures searched { IfOk result (λ found. IsSearched (seen graph.now)
        (shape_of graph.now.old.now) (shape_of graph.now.new.now) root found.certificate) }
    ensures carried { IfOk result (λ found. CarriesWitness (seen graph.now)
        (shape_of graph.now.old.now) (shape_of graph.now.new.now) found.certificate) }
    ensures witness { IfOk result (λ found. IsBesideClaim (seen graph.now)
        (shape_of graph.now.old.now) (shape_of graph.now.new.now) found.certificate
        found.witness) }
    ensures named { IfOk result (λ found. found.certificate.view ≡ graph.now.view) }
{
    let (found, _) = found_counted(alloc, graph, root)?;
    Ok(found)
}

/// The certificate that `find_with` answers of a pair of types, without the message beside it. Both
/// types of the pair have to be there.
///
/// Refused only where memory is.
pub fn search_with(alloc: Global, graph: &Priced<'_>, root: Pair) -> Result<Certificate, AllocError>
    requires old_type { root.old.index < length (shape_of graph.now.old.now) }
    requires new_type { root.new.index < length (shape_of graph.now.new.now) }
    ensures searched { IfOk result (λ certificate. IsSearched (seen graph.now)
        (shape_of graph.now.old.now) (shape_of graph.now.new.now) root certificate) }
    ensures carried { IfOk result (λ certificate. CarriesWitness (seen graph.now)
        (shape_of graph.now.old.now) (shape_of graph.now.new.now) certificate) }
    ensures named { IfOk result (λ certificate. certificate.view ≡ graph.now.view) }
{
    let found = find_with(alloc, graph, root)?;
    Ok(found.certificate)
}

/// The certificate of a pair of types, with enums compared by their numbers alone, and the work
/// that its bounds took: the pairs whose bound is a number, the edges whose child's bound is one,
/// and the pairs. Both types of the pair have to be there.
///
/// Refused only where memory is.
pub fn search_counted(
    alloc: Global,
    old: &Schema,
    new: &Schema,
    root: Pair,
) -> Result<(Certificate, Work), AllocError>
    requires old_type { root.old.index < length (shape_of old.now) }
    requires new_type { root.new.index < length (shape_of new.now) }
    ensures searched { IfOk result (λ found. IsSearched by_numbers (shape_of old.now)
        (shape_of new.now) root found.0) }
    ensures carried { IfOk result (λ found. CarriesWitness by_numbers (shape_of old.now)
        (shape_of new.now) found.0) }
    ensures named { IfOk result (λ found. found.0.view ≡ views.Numbers) }
    ensures counted { IfOk result (λ found.
        IsCounted (edges (shape_of old.now) (shape_of new.now)) found.0.bounds found.1) }
{
    numbers_are_alike();
    let graph = Priced::new(&Numbers, old, new);
    let (found, work) = found_counted(alloc, &graph, root)?;
    Ok((found.certificate, work))
}

/// The certificate of a pair of types, with enums compared by their numbers alone, as `search_with`
/// does by `Numbers`. Both types of the pair have to be there.
///
/// Refused only where memory is.
pub fn search(
    alloc: Global,
    old: &Schema,
    new: &Schema,
    root: Pair,
) -> Result<Certificate, AllocError>
    requires old_type { root.old.index < length (shape_of old.now) }
    requires new_type { root.new.index < length (shape_of new.now) }
    ensures searched { IfOk result (λ certificate. IsSearched by_numbers (shape_of old.now)
        (shape_of new.now) root certificate) }
    ensures carried { IfOk result (λ certificate. CarriesWitness by_numbers (shape_of old.now)
        (shape_of new.now) certificate) }
    ensures named { IfOk result (λ certificate. certificate.view ≡ views.Numbers) }
{
    let (certificate, _) = search_counted(alloc, old, new, root)?;
    Ok(certificate)
}
