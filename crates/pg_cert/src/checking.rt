//! The checker.

ghost use Rattle.std.specs.Prelude.{◌≡◌, ◌⊎◌, None, Some, MatchResult, IfErr, IfOk, OnOk, true};
ghost use Rattle.pg_schema.specs.Parts.{shape_of};
ghost use Rattle.pg_pairs.specs.graph.GraphView.{seen};
ghost use Rattle.pg_cert.specs.declared.error.CertError.TheVariants as errors;
ghost use Rattle.pg_cert.specs.Certificate.{bound_in};
ghost use Rattle.pg_cert.specs.Verdict.{bound_verdict, verdict_of};
ghost use Rattle.pg_cert.specs.ClaimView.{HoldsOf, IsFirstFaultOf, SaysOf};
ghost use Rattle.pg_cert.specs.inner.Checked.{IsChecked};
ghost use Rattle.pg_cert.specs.Faults.{cheaper_choice, first_fault, first_pair_fault, is_within, missing_child, pair_fault};

use crate::bounds::{Bounds, PairBound};
use crate::certificate::Certificate;
use crate::error::CertError;
use crate::laws::{covers_without_fault, verdicts_are_true, witness_faults_are_real};
use crate::verdict::Verdict;
use crate::witness::check_witness;
use pg_pairs::laws::{cheapest_is_least, sees};
use pg_pairs::{Choice, Pair, Priced, Table, cheapest, children, options};
use pg_schema::Schema;
use std::alloc::{AllocError, Global};

/// The first child of the pair that the table lacks.
fn missing_child(
    alloc: Global,
    graph: &Priced<'_>,
    bounds: &Bounds,
    pair: Pair,
) -> Result<Option<Pair>, AllocError>
    ensures { IfOk result (λ found. found ≡ missing_child (shape_of graph.now.old.now)
        (shape_of graph.now.new.now) (bound_in bounds.now) pair) }
{
    let children = children(alloc, graph.old, graph.new, pair)?;
    Ok(
        children
            .iter()
            .copied()
            .find(|child| bounds.bound(*child).is_none()),
    )
}

/// Whether a bound is at most the cost; 'none' is above every cost.
fn is_within(bound: Option<u32>, cost: u32) -> bool
    ensures { result ≡ is_within bound cost }
{
    match bound {
        Some(bytes) => bytes <= cost,
        None => false,
    }
}

/// Whether no choice of the pair costs less than its bound, by the cheapest of them.
fn is_cheapest_within(
    alloc: Global,
    graph: &Priced<'_>,
    bounds: &Bounds,
    line: PairBound,
) -> Result<bool, AllocError>
    ensures { IfOk result (λ within. within ≡ true
        → cheaper_choice (seen graph.now) (shape_of graph.now.old.now)
        (shape_of graph.now.new.now) (bound_in bounds.now) line ≡ None) }
{
    cheapest_is_least();
    match cheapest(alloc, graph, line.pair, bounds)? {
        Some(choice) => Ok(is_within(line.bound, choice.cost)),
        None => Ok(true),
    }
}

/// The first choice of the pair that costs less than its bound, of all of them.
fn first_cheaper(
    alloc: Global,
    graph: &Priced<'_>,
    bounds: &Bounds,
    line: PairBound,
) -> Result<Option<Choice>, AllocError>
    ensures { IfOk result (λ found. found ≡ cheaper_choice (seen graph.now)
        (shape_of graph.now.old.now) (shape_of graph.now.new.now) (bound_in bounds.now) line) }
{
    let choices = options(alloc, graph, line.pair, bounds)?;
    Ok(
        choices
            .iter()
            .copied()
            .find(|choice| !is_within(line.bound, choice.cost)),
    )
}

/// The first choice of the pair that costs less than its bound. All are listed only where there is
/// one: of fields that meet in one oneof there are as many as pairs of them.
fn cheaper_choice(
    alloc: Global,
    graph: &Priced<'_>,
    bounds: &Bounds,
    line: PairBound,
) -> Result<Option<Choice>, AllocError>
    ensures { IfOk result (λ found. found ≡ cheaper_choice (seen graph.now)
        (shape_of graph.now.old.now) (shape_of graph.now.new.now) (bound_in bounds.now) line) }
{
    if is_cheapest_within(alloc, graph, bounds, line)? {
        return Ok(None);
    }
    first_cheaper(alloc, graph, bounds, line)
}

/// Whether the pair is as a table that covers has it; the fault that it has else.
fn check_pair(
    alloc: Global,
    graph: &Priced<'_>,
    bounds: &Bounds,
    line: PairBound,
) -> Result<(), CertError>
    ensures { MatchResult result
        (λ _. pair_fault (seen graph.now) (shape_of graph.now.old.now)
        (shape_of graph.now.new.now) (bound_in bounds.now) line ≡ None)
        (λ e. (e ≡ errors.Memory) ⊎ (pair_fault (seen graph.now) (shape_of graph.now.old.now)
        (shape_of graph.now.new.now) (bound_in bounds.now) line ≡ Some e)) }
{
    if let Some(pair) = missing_child(alloc, graph, bounds, line.pair)? {
        return Err(CertError::PairMissing { pair });
    }
    match cheaper_choice(alloc, graph, bounds, line)? {
        Some(choice) => Err(CertError::BoundTooHigh {
            pair: line.pair,
            number: choice.number,
            case: choice.case.number(),
        }),
        None => Ok(()),
    }
}

/// Whether each pair is as a table that covers has it; the first fault else.
fn check_pairs(alloc: Global, graph: &Priced<'_>, bounds: &Bounds) -> Result<(), CertError>
    ensures { MatchResult result
        (λ _. first_pair_fault (seen graph.now) (shape_of graph.now.old.now)
        (shape_of graph.now.new.now) (bound_in bounds.now) bounds.now ≡ None)
        (λ e. (e ≡ errors.Memory) ⊎ (first_pair_fault (seen graph.now)
        (shape_of graph.now.old.now) (shape_of graph.now.new.now) (bound_in bounds.now)
        bounds.now ≡ Some e)) }
{
    for at in 0..bounds.len() {
        if let Some(line) = bounds.get(at) {
            check_pair(alloc, graph, bounds, line)?;
        }
    }
    Ok(())
}

/// Whether the table covers the root; its first fault else.
fn check_table(
    alloc: Global,
    graph: &Priced<'_>,
    bounds: &Bounds,
    root: Pair,
) -> Result<(), CertError>
    ensures { MatchResult result
        (λ _. first_fault (seen graph.now) (shape_of graph.now.old.now)
        (shape_of graph.now.new.now) bounds.now root ≡ None)
        (λ e. (e ≡ errors.Memory) ⊎ (first_fault (seen graph.now) (shape_of graph.now.old.now)
        (shape_of graph.now.new.now) bounds.now root ≡ Some e)) }
{
    if bounds.bound(root).is_none() {
        return Err(CertError::RootMissing);
    }
    check_pairs(alloc, graph, bounds)
}

/// What the root's bound shows.
fn bound_verdict(bound: Option<Option<u32>>) -> Verdict
    ensures { result ≡ bound_verdict bound }
{
    match bound {
        Some(Some(bytes)) => Verdict::AtLeast(bytes),
        _ => Verdict::Compatible,
    }
}

/// Whether what the certificate claims holds under the graph's view, which need not be its own.
fn check_claim(
    alloc: Global,
    graph: &Priced<'_>,
    certificate: &Certificate,
) -> Result<Verdict, CertError>
    ensures { IsChecked (seen graph.now) (shape_of graph.now.old.now)
        (shape_of graph.now.new.now) certificate.now result }
{
    // What holds of every schema and every view, and what a table without fault shows.
    graph.old.parts();
    graph.new.parts();
    sees(graph);
    covers_without_fault();
    verdicts_are_true();
    witness_faults_are_real();
    let root = certificate.root();
    let bounds = certificate.bounds();
    check_table(alloc, graph, bounds, root)?;
    let bound = bounds.bound(root);
    match certificate.witness() {
        Some(bytes) => {
            check_witness(alloc, graph, root, bound, bytes)?;
            Ok(Verdict::Breaks)
        }
        None => Ok(bound_verdict(bound)),
    }
}

/// Whether what the certificate claims holds: its table covers its root, and its witness, where
/// there is one, is what the old writer writes of a message without unknown records, has just as
/// many bytes as the root's bound says, and breaks. With a witness it answers `Breaks`; without one
/// `Compatible` where the root's bound is 'none', and else `AtLeast` that number. Messages are read
/// at any depth. In all of it enums are compared by the view that the certificate names.
///
/// The errors are, in this order, `RootMissing`; then pair by pair in the table's order
/// `PairMissing` with the first child that the table lacks, and `BoundTooHigh` with the pair's
/// first choice, by number, case and part, that costs less than the bound; then
/// `WitnessNotWritten`, `WitnessLength` and `WitnessKeeps`; and `Memory` where memory was refused.
pub fn check(
    alloc: Global,
    old: &Schema,
    new: &Schema,
    certificate: &Certificate,
) -> Result<Verdict, CertError>
    ensures holds { OnOk result (HoldsOf old.now new.now certificate.now) }
    ensures verdict { IfOk result (λ verdict. verdict ≡ verdict_of certificate.now) }
    ensures says { IfOk result (SaysOf old.now new.now certificate.now) }
    ensures first_fault { IfErr result
        (λ e. (e ≡ errors.Memory) ⊎ IsFirstFaultOf old.now new.now certificate.now e) }
    ensures refused { IfErr result
        (λ e. (e ≡ errors.Memory) ⊎ ¬ (HoldsOf old.now new.now certificate.now)) }
{
    let graph = Priced::new(&certificate.view(), old, new);
    check_claim(alloc, &graph, certificate)
}
