//! What rows don't show: empty messages, and tables and certificates that callers hold.
mod setting;
mod tables;

use pg_dyn::Message;
use pg_schema::TypeId;

/// The first type of a schema.
const M: TypeId = TypeId { index: 0 };

#[test]
fn empty_messages(rt: HostRuntime) {
    let empty = Message::empty(rt.alloc(), M);
    assert!(rt; empty.type_id() == M && empty.is_plain() && empty.get(1).is_none());
}
