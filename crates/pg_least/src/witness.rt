//! The messages that bounds speak of.

ghost use Rattle.std.specs.Prelude.{◌≡◌, ◌++◌, [], ◌∷◌, ℕ, true, is_some, Some, IfOk};
ghost use Rattle.pg_schema.specs.Parts.{shape_of};
ghost use Rattle.pg_dyn.specs.fitting.Fits.{Fits};
ghost use Rattle.pg_dyn.specs.message.Kept.{message_of, type_of};
ghost use Rattle.pg_pairs.specs.choices.Choices.{Table, number_for};
ghost use Rattle.pg_pairs.specs.graph.GraphView.{seen};
ghost use Rattle.pg_pairs.specs.bounds.Laws.{ReachedBy};
ghost use Rattle.pg_cert.specs.Certificate.{bound_in};
ghost use Rattle.pg_cert.specs.ClaimView.{view_in};
ghost use Rattle.pg_least.specs.inner.Descent.{IsCarriedFrom, IsStep, IsWholePath, first_step};
ghost use Rattle.pg_least.specs.From.{IsExactTable};
ghost use Rattle.pg_least.specs.Searched.{IsSearched, IsPath, carried_along};

use pg_cert::{Bounds, Certificate};
use pg_dyn::Message;
use pg_pairs::laws::{cheapest_is_least, each_child_costs_less, sees};
use pg_pairs::{Choice, Pair, Priced, carry, cheapest, choice_child};
use pg_schema::Schema;
use std::alloc::{AllocError, Global};

/// A pair, and a choice of it by which a message breaks.
#[derive(Clone, Copy, Debug, PartialEq, Eq)]
pub struct PairChoice {
    pub pair: Pair,
    pub choice: Choice,
}

/// The step by the cheapest choice of a pair whose bound is a number.
fn step_at(
    alloc: Global,
    graph: &Priced<'_>,
    bounds: &Bounds,
    pair: Pair,
) -> Result<PairChoice, AllocError>
    requires exact { IsExactTable (seen graph.now) (shape_of graph.now.old.now)
        (shape_of graph.now.new.now) (bound_in bounds.now) }
    requires number { is_some (number_for (bound_in bounds.now) pair) ≡ true }
    ensures pair { IfOk result (λ step. step.pair ≡ pair) }
    ensures step { IfOk result (λ step. IsStep (seen graph.now) (shape_of graph.now.old.now)
        (shape_of graph.now.new.now) (bound_in bounds.now) step) }
{
    // The cheapest choice costs what an exact bound says.
    cheapest_is_least();
    match cheapest(alloc, graph, pair, bounds)? {
        Some(choice) => Ok(PairChoice { pair, choice }),
        None => unreachable!(),
    }
}

/// The steps from a pair down, and the last of them, whose choice has no child.
fn steps_down(
    alloc: Global,
    graph: &Priced<'_>,
    bounds: &Bounds,
    pair: Pair,
) -> Result<(Vec<PairChoice>, PairChoice), AllocError>
    requires exact { IsExactTable (seen graph.now) (shape_of graph.now.old.now)
        (shape_of graph.now.new.now) (bound_in bounds.now) }
    requires number { is_some (number_for (bound_in bounds.now) pair) ≡ true }
    ensures first { IfOk result (λ steps. (first_step steps.0.items steps.1).pair ≡ pair) }
    ensures whole { IfOk result (λ steps. IsWholePath (seen graph.now)
        (shape_of graph.now.old.now) (shape_of graph.now.new.now) (bound_in bounds.now)
        steps.0.items steps.1) }
{
    // What holds of every schema and every view, so that the costs fall.
    graph.old.parts();
    graph.new.parts();
    sees(graph);
    each_child_costs_less();
    let mut steps = Vec::new(alloc);
    let mut last = step_at(alloc, graph, bounds, pair)?;
    while let Some(child) = choice_child(graph.old, graph.new, last.pair, &last.choice) {
        steps.push(last)?;
        last = step_at(alloc, graph, bounds, child)?;
    }
    Ok((steps, last))
}

/// The message of the first step's choice, built from the last step's out.
fn built(
    alloc: Global,
    graph: &Priced<'_>,
    mut steps: Vec<PairChoice>,
    last: PairChoice,
) -> Result<Message, AllocError>
    requires { (table : Table) × IsWholePath (seen graph.now) (shape_of graph.now.old.now)
        (shape_of graph.now.new.now) table steps.items last }
    ensures fits { IfOk result (λ m. Fits (shape_of graph.now.old.now) m) }
    ensures type_is { IfOk result (λ m. type_of m ≡ (first_step steps.items last).pair.old) }
    ensures reached { IfOk result (λ m. ReachedBy (seen graph.now) (shape_of graph.now.old.now)
        (shape_of graph.now.new.now) (first_step steps.items last).pair (message_of m)
        (first_step steps.items last).choice.cost) }
    ensures along { IfOk result (λ m. carried_along (seen graph.now)
        (shape_of graph.now.old.now) (shape_of graph.now.new.now) (steps.items ++ last ∷ [])
        ≡ Some (message_of m)) }
{
    let mut message = carry(alloc, graph, last.pair, &last.choice, None)?;
    while let Some(step) = steps.pop() {
        message = carry(alloc, graph, step.pair, &step.choice, Some(message))?;
    }
    Ok(message)
}

/// The message of the cheapest choices of a pair and of their children in turn: one that breaks and
/// has as many bytes as the pair's bound says, which is a number.
///
/// Refused only where memory is.
pub(crate) fn witness(
    alloc: Global,
    graph: &Priced<'_>,
    bounds: &Bounds,
    pair: Pair,
) -> Result<Message, AllocError>
    requires exact { IsExactTable (seen graph.now) (shape_of graph.now.old.now)
        (shape_of graph.now.new.now) (bound_in bounds.now) }
    requires number { is_some (number_for (bound_in bounds.now) pair) ≡ true }
    ensures fits { IfOk result (λ m. Fits (shape_of graph.now.old.now) m) }
    ensures type_is { IfOk result (λ m. type_of m ≡ pair.old) }
    ensures reached { IfOk result (λ m. (bytes : ℕ) → bound_in bounds.now pair ≡ Some (Some bytes)
        → ReachedBy (seen graph.now) (shape_of graph.now.old.now) (shape_of graph.now.new.now)
        pair (message_of m) bytes) }
    ensures along { IfOk result (λ m. IsCarriedFrom (seen graph.now)
        (shape_of graph.now.old.now) (shape_of graph.now.new.now) (bound_in bounds.now) pair
        (message_of m)) }
{
    let (steps, last) = steps_down(alloc, graph, bounds, pair)?;
    built(alloc, graph, steps, last)
}

/// The path of the witness of a certificate that a search under the graph's view answers.
fn path_with(
    alloc: Global,
    graph: &Priced<'_>,
    certificate: &Certificate,
) -> Result<Vec<PairChoice>, AllocError>
    requires searched { IsSearched (seen graph.now) (shape_of graph.now.old.now)
        (shape_of graph.now.new.now) certificate.now.root certificate.now }
    requires breaks { is_some certificate.now.witness ≡ true }
    ensures { IfOk result (λ steps. IsPath (seen graph.now) (shape_of graph.now.old.now)
        (shape_of graph.now.new.now) (bound_in certificate.now.bounds) certificate.now.root
        steps.items) }
{
    let root = certificate.root();
    let (mut steps, last) = steps_down(alloc, graph, certificate.bounds(), root)?;
    steps.push(last)?;
    Ok(steps)
}

/// The path of the witness of a certificate that a search answers: from the root by the cheapest
/// choice of each pair to the pair of the message that the choice holds, as long as it holds one.
/// The witness is the message that these choices carry. The certificate has to be one that a search
/// under the view that it names answered for these two schemas, with a witness.
///
/// Refused only where memory is.
pub fn path(
    alloc: Global,
    old: &Schema,
    new: &Schema,
    certificate: &Certificate,
) -> Result<Vec<PairChoice>, AllocError>
    requires searched { IsSearched (view_in old.now new.now certificate.now) (shape_of old.now)
        (shape_of new.now) certificate.now.root certificate.now }
    requires breaks { is_some certificate.now.witness ≡ true }
    ensures { IfOk result (λ steps. IsPath (view_in old.now new.now certificate.now)
        (shape_of old.now) (shape_of new.now) (bound_in certificate.now.bounds) certificate.now.root
        steps.items) }
{
    let graph = Priced::new(&certificate.view(), old, new);
    path_with(alloc, &graph, certificate)
}
