//! How answers are shown.
use pg_cert::{CertError, PairBound, Verdict};
use pg_least::PairChoice;
use pg_pairs::{Choice, FieldCause, Pair, Work};
use std::alloc::{AllocError, Global};

/// What is shown as one item of a list.
pub(crate) trait Shown {
    fn shown(&self, alloc: Global) -> Result<String, AllocError>;
}

impl Shown for Choice {
    fn shown(&self, alloc: Global) -> Result<String, AllocError> {
        let Choice {
            number,
            case,
            part,
            cost,
        } = self;
        format!(in alloc; "{number} {} {part} {cost}", case.number())
    }
}

impl Shown for FieldCause {
    fn shown(&self, alloc: Global) -> Result<String, AllocError> {
        let mut shown = self.choice.shown(alloc)?;
        if self.numbers.len() > 1 {
            shown.push_str(" of")?;
            for number in &self.numbers {
                shown.push_str(" ")?;
                shown.push_str(&format!(in alloc; "{number}")?)?;
            }
        }
        Ok(shown)
    }
}

impl Shown for Pair {
    fn shown(&self, alloc: Global) -> Result<String, AllocError> {
        format!(in alloc; "{} {}", self.old.index, self.new.index)
    }
}

impl Shown for PairBound {
    fn shown(&self, alloc: Global) -> Result<String, AllocError> {
        let Pair { old, new } = self.pair;
        match self.bound {
            Some(bytes) => format!(in alloc; "{} {} {bytes}", old.index, new.index),
            None => format!(in alloc; "{} {} none", old.index, new.index),
        }
    }
}

impl Shown for PairChoice {
    fn shown(&self, alloc: Global) -> Result<String, AllocError> {
        let pair = self.pair.shown(alloc)?;
        let choice = self.choice.shown(alloc)?;
        format!(in alloc; "{pair} by {choice}")
    }
}

/// Adds an item to the list.
pub(crate) fn add(list: &mut String, item: &str) -> Result<(), AllocError> {
    if !list.is_empty() {
        list.push_str(", ")?;
    }
    list.push_str(item)
}

/// The items with `, ` between them.
pub(crate) fn list<T: Shown>(alloc: Global, items: &[T]) -> Result<String, AllocError> {
    let mut list = String::new(alloc);
    for item in items {
        add(&mut list, item.shown(alloc)?.as_str())?;
    }
    Ok(list)
}

/// The items with `, ` between them, or `none` where there is no item.
pub(crate) fn list_or_none<T: Shown>(alloc: Global, items: &[T]) -> Result<String, AllocError> {
    if items.is_empty() {
        return String::from_str(alloc, "none");
    }
    list(alloc, items)
}

/// The pairs that are settled, the edges that are relaxed and the pairs that are opened.
pub(crate) fn work(alloc: Global, work: &Work) -> Result<String, AllocError> {
    format!(in alloc; "{} {} {}", work.settled, work.relaxed, work.opened)
}

pub(crate) fn verdict(alloc: Global, verdict: Verdict) -> Result<String, AllocError> {
    match verdict {
        Verdict::Compatible => String::from_str(alloc, "compatible"),
        Verdict::Breaks => String::from_str(alloc, "breaks"),
        Verdict::AtLeast(bytes) => format!(in alloc; "at least {bytes}"),
    }
}

/// The name of a fault that says nothing more.
fn name_of(error: CertError) -> &'static str {
    match error {
        CertError::BadText => "bad text",
        CertError::RootMissing => "root missing",
        CertError::WitnessNotWritten => "witness not written",
        CertError::WitnessLength => "witness length",
        CertError::WitnessKeeps => "witness keeps",
        CertError::Memory | CertError::PairMissing { .. } | CertError::BoundTooHigh { .. } => "",
    }
}

pub(crate) fn fault(alloc: Global, error: CertError) -> Result<String, AllocError> {
    match error {
        CertError::Memory => Err(AllocError),
        CertError::PairMissing {
            pair: Pair { old, new },
        } => format!(in alloc; "pair missing {} {}", old.index, new.index),
        CertError::BoundTooHigh {
            pair: Pair { old, new },
            number,
            case,
        } => format!(in alloc;
            "bound too high {} {} at {number} {case}",
            old.index, new.index
        ),
        _ => String::from_str(alloc, name_of(error)),
    }
}
