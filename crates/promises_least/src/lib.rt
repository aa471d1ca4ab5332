//! The promises of `pg_least`, said again of calls of it: the edits of `must-fail` turn each
//! answer, and every one must be refused.
#![tactic(auto)]

mod several;

ghost use Rattle.std.specs.Prelude.{◌≡◌, ◌<◌, true, is_some, length, IfOk};
ghost use Rattle.pg_schema.specs.Parts.{shape_of};
ghost use Rattle.pg_dyn.specs.declared.view_name.ViewName.TheVariants as views;
ghost use Rattle.pg_pairs.specs.graph.Edges.{edges};
ghost use Rattle.pg_pairs.specs.views.EnumView.{by_numbers};
ghost use Rattle.pg_pairs.specs.graph.GraphView.{seen};
ghost use Rattle.pg_cert.specs.Certificate.{bound_in};
ghost use Rattle.pg_cert.specs.ClaimView.{view_in};
ghost use Rattle.pg_least.specs.Beside.{IsBesideClaim};
ghost use Rattle.pg_least.specs.Searched.{CarriesWitness, IsPath, IsSearched};
ghost use Rattle.pg_least.specs.Least.{IsCounted, IsSettled};

use pg_cert::{Bounds, Certificate};
use pg_least::{Found, PairChoice};
use pg_pairs::{Pair, Priced, Prices, Work};
use pg_schema::Schema;
pub use several::{bounds_from, settle_from};
use std::alloc::{AllocError, Global};

/// What `find_with` answers.
pub fn find_with(alloc: Global, graph: &Priced<'_>, root: Pair) -> Result<Found, AllocError>
    requires old_type { root.old.index < length (shape_of graph.now.old.now) }
    requires new_type { root.new.index < length (shape_of graph.now.new.now) }
    ensures searched { IfOk result (λ found. IsSearched (seen graph.now)
        (shape_of graph.now.old.now) (shape_of graph.now.new.now) root found.certificate) }
    ensures carried { IfOk result (λ found. CarriesWitness (seen graph.now)
        (shape_of graph.now.old.now) (shape_of graph.now.new.now) found.certificate) }
    ensures witness { IfOk result (λ found. IsBesideClaim (seen graph.now)
        (shape_of graph.now.old.now) (shape_of graph.now.new.now) found.certificate
        found.witness) }
    ensures named { IfOk result (λ found. found.certificate.view ≡ graph.now.view) }
{
    pg_least::find_with(alloc, graph, root)
}

/// What `search_with` answers.
pub fn search_with(alloc: Global, graph: &Priced<'_>, root: Pair) -> Result<Certificate, AllocError>
    requires old_type { root.old.index < length (shape_of graph.now.old.now) }
    requires new_type { root.new.index < length (shape_of graph.now.new.now) }
    ensures searched { IfOk result (λ certificate. IsSearched (seen graph.now)
        (shape_of graph.now.old.now) (shape_of graph.now.new.now) root certificate) }
    ensures carried { IfOk result (λ certificate. CarriesWitness (seen graph.now)
        (shape_of graph.now.old.now) (shape_of graph.now.new.now) certificate) }
    ensures named { IfOk result (λ certificate. certificate.view ≡ graph.now.view) }
{
    pg_least::search_with(alloc, graph, root)
}

/// What `search` answers.
pub fn search(
    alloc: Global,
    old: &Schema,
    new: &Schema,
    root: Pair,
) -> Result<Certificate, AllocError>
    requires old_type { root.old.index < length (shape_of old.now) }
    requires new_type { root.new.index < length (shape_of new.now) }
    ensures searched { IfOk result (λ certificate. IsSearched by_numbers (shape_of old.now)
        (shape_of new.now) root certificate) }
    ensures carried { IfOk result (λ certificate. CarriesWitness by_numbers (shape_of old.now)
        (shape_of new.now) certificate) }
    ensures named { IfOk result (λ certificate. certificate.view ≡ views.Numbers) }
{
    pg_least::search(alloc, old, new, root)
}

/// What `search_counted` answers.
pub fn search_counted(
    alloc: Global,
    old: &Schema,
    new: &Schema,
    root: Pair,
) -> Result<(Certificate, Work), AllocError>
    requires old_type { root.old.index < length (shape_of old.now) }
    requires new_type { root.new.index < length (shape_of new.now) }
    ensures searched { IfOk result (λ found. IsSearched by_numbers (shape_of old.now)
        (shape_of new.now) root found.0) }
    ensures carried { IfOk result (λ found. CarriesWitness by_numbers (shape_of old.now)
        (shape_of new.now) found.0) }
    ensures named { IfOk result (λ found. found.0.view ≡ views.Numbers) }
    ensures counted { IfOk result (λ found.
        IsCounted (edges (shape_of old.now) (shape_of new.now)) found.0.bounds found.1) }
{
    let (certificate, work) = pg_least::search_counted(alloc, old, new, root)?;
    Ok((certificate, work))
}

/// What `path` answers.
pub fn path(
    alloc: Global,
    old: &Schema,
    new: &Schema,
    certificate: &Certificate,
) -> Result<Vec<PairChoice>, AllocError>
    requires searched { IsSearched (view_in old.now new.now certificate.now) (shape_of old.now)
        (shape_of new.now) certificate.now.root certificate.now }
    requires breaks { is_some certificate.now.witness ≡ true }
    ensures { IfOk result (λ steps. IsPath (view_in old.now new.now certificate.now)
        (shape_of old.now) (shape_of new.now) (bound_in certificate.now.bounds) certificate.now.root
        steps.items) }
{
    pg_least::path(alloc, old, new, certificate)
}

/// What `settle` answers.
pub fn settle<G: Prices>(alloc: Global, graph: &G, root: Pair) -> Result<(Bounds, Work), AllocError>
    requires { G.is_known graph.now root ≡ true }
    ensures settled { IfOk result (λ found. IsSettled (G.children_of graph.now)
        (G.edges_of graph.now) (G.base_of graph.now) (G.price_of graph.now) root found.0) }
    ensures counted { IfOk result (λ found. IsCounted (G.edges_of graph.now) found.0 found.1) }
{
    let (bounds, work) = pg_least::settle(alloc, graph, root)?;
    Ok((bounds, work))
}
