//! Numbers, pairs, bounds, choices and bytes as rows spell them.
use hex::FromHexError;
use pg_cert::{Bounds, BoundsError, PairBound};
use pg_pairs::{Case, Choice, Pair};
use pg_schema::TypeId;
use std::alloc::{AllocError, Global};

fn word_at(text: &str, at: usize) -> &str {
    text.split(' ').nth(at).unwrap_or("")
}

/// The number of the word at that index, 0 where there is none.
pub(crate) fn number_at(text: &str, at: usize) -> u32 {
    word_at(text, at).parse().unwrap_or(0)
}

/// The pair that the first two words spell.
pub(crate) fn pair_of(text: &str) -> Pair {
    Pair {
        old: TypeId {
            index: number_at(text, 0),
        },
        new: TypeId {
            index: number_at(text, 1),
        },
    }
}

/// The case that the word spells by its number.
fn case_of(word: &str) -> Option<Case> {
    match word {
        "1" => Some(Case::Unlike),
        "2" => Some(Case::Gap),
        "3" => Some(Case::Child),
        "4" => Some(Case::List),
        "5" => Some(Case::Map),
        "6" => Some(Case::Oneof),
        _ => None,
    }
}

/// The choice that four words spell; `None` where the second is no case.
pub(crate) fn choice_of(text: &str) -> Option<Choice> {
    Some(Choice {
        number: number_at(text, 0),
        case: case_of(word_at(text, 1))?,
        part: number_at(text, 2),
        cost: number_at(text, 3),
    })
}

fn bound_of(text: &str) -> PairBound {
    PairBound {
        pair: pair_of(text),
        bound: word_at(text, 2).parse().ok(),
    }
}

/// The bounds that the words spell.
pub(crate) fn bounds_of(alloc: Global, text: &str) -> Result<Vec<PairBound>, AllocError> {
    let mut bounds = Vec::new(alloc);
    for bound in text.split(", ") {
        if bound.contains(' ') {
            bounds.push(bound_of(bound))?;
        }
    }
    Ok(bounds)
}

/// The table of the bounds that the words spell; `None` where they are no table.
pub(crate) fn table_of(alloc: Global, text: &str) -> Result<Option<Bounds>, AllocError> {
    let bounds = bounds_of(alloc, text)?;
    match Bounds::new(alloc, bounds) {
        Ok(table) => Ok(Some(table)),
        Err((BoundsError::Memory, _)) => Err(AllocError),
        Err((BoundsError::Invariant, _)) => Ok(None),
    }
}

/// The bytes that the hexadecimal digits spell; no bytes where they are none.
pub(crate) fn hex_bytes(alloc: Global, digits: &str) -> Result<Vec<u8>, AllocError> {
    match hex::decode(alloc, digits) {
        Ok(bytes) => Ok(bytes),
        Err(FromHexError::OutOfMemory) => Err(AllocError),
        Err(_) => Ok(Vec::new(alloc)),
    }
}
