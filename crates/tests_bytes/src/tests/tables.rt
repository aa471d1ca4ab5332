//! The tables and certificates that callers hold. The rows of `rows_answer` show what the checker,
//! `from_text` and `to_text` answer.
use super::M;
use pg_cert::{Bounds, BoundsError, Certificate, PairBound};
use pg_dyn::ViewName;
use pg_pairs::{Pair, Table};
use pg_schema::TypeId;
use std::alloc::{AllocError, Global};
use std::test::Fail;

const ROOT: Pair = Pair { old: M, new: M };

/// A pair of types that aren't there.
const OTHER: Pair = Pair {
    old: TypeId { index: 1 },
    new: TypeId { index: 0 },
};

fn line(pair: Pair, bound: Option<u32>) -> PairBound {
    PairBound { pair, bound }
}

/// The table of these bounds.
fn table(alloc: Global, bounds: &[PairBound]) -> Result<Bounds, Fail> {
    match Bounds::new(alloc, bounds.to_vec(alloc)?) {
        Ok(table) => Ok(table),
        Err((BoundsError::Memory, _)) => Err(AllocError.into()),
        Err((BoundsError::Invariant, _)) => Err("the bounds are no table".into()),
    }
}

/// Whether the table has the two pairs with these bounds, and no other.
fn has(table: &Bounds, root: Option<u32>, other: Option<u32>) -> bool {
    let missing = Pair {
        old: M,
        new: OTHER.old,
    };
    table.len() == 2
        && !table.is_empty()
        && table.get(0) == Some(line(ROOT, root))
        && table.get(1) == Some(line(OTHER, other))
        && table.get(2).is_none()
        && table.bound(ROOT) == Some(root)
        && table.bound(OTHER) == Some(other)
        && table.bound(missing).is_none()
}

#[test]
fn the_bounds_of_a_table(rt: HostRuntime) -> Result<(), Fail> {
    let table = table(rt.alloc(), &[line(ROOT, Some(11)), line(OTHER, None)])?;
    assert!(rt; has(&table, Some(11), None));
    Ok(())
}

#[test]
fn a_witness_has_bytes(rt: HostRuntime) -> Result<(), Fail> {
    let alloc = rt.alloc();
    let table_of_none = table(alloc, &[])?;
    let witness = Some(Vec::new(alloc));
    let Err((table, witness)) = Certificate::new(ViewName::Numbers, ROOT, table_of_none, witness)
    else {
        return Err("a witness without bytes".into());
    };
    assert!(rt; table.is_empty());
    assert_eq!(rt; witness.map(|bytes| bytes.len()), Some(0));
    Ok(())
}
