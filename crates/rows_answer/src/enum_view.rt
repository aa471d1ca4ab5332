//! How a view compares the values of enums.
use pg_pairs::{Priced, View};
use pg_schema::EnumId;
use std::alloc::{AllocError, Global};

const FIRST: EnumId = EnumId { index: 0 };

/// `enum_view | OLD | NEW | NUMBER`: whether the number is alike in the enums of both schemas, and
/// the least numbers that aren't, where 0 counts and where it doesn't.
pub(crate) fn enum_view(
    alloc: Global,
    graph: &Priced<'_>,
    words: &str,
) -> Result<String, AllocError> {
    let (Some(old), Some(new)) = (graph.old.enum_type(FIRST), graph.new.enum_type(FIRST)) else {
        return String::from_str(alloc, "no enums");
    };
    let alike = graph.view.alike(old, new, words.parse().unwrap_or(0));
    let none = graph.view.least(old, new, true).is_none();
    let none_beside_zero = graph.view.least(old, new, false).is_none();
    format!(in alloc; "alike {alike}, no least {none} {none_beside_zero}")
}
