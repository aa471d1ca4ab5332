//! Laws of bytes in whatever order. Each is the contract of a function that does nothing.

ghost use Rattle.pg_order.specs.Examples.{WorkedOrders, WorkedSights};
ghost use Rattle.pg_order.specs.Laws.{CompatibleInAnyOrder, EncodingMayBeWritten, NoneUnseenIsShorter, OneLength, ReadsAnyOrder};

/// The encoding of a message is among the bytes that may be written of it.
pub fn encoding_may_be_written()
    ensures { EncodingMayBeWritten }
{}

/// All bytes that may be written of a message have one length.
pub fn one_length()
    ensures { OneLength }
{}

/// A type reads whatever may be written of its message as that message.
pub fn reads_any_order()
    ensures { ReadsAnyOrder }
{}

/// A compatible new type reads whatever may be written of a message whole.
pub fn compatible_in_any_order()
    ensures { CompatibleInAnyOrder }
{}

/// Where each message that breaks has n bytes or more, so have bytes that aren't read whole.
pub fn none_unseen_is_shorter()
    ensures { NoneUnseenIsShorter }
{}

/// Small messages, and bytes that may be written of them and that may not.
pub fn worked_orders()
    ensures { WorkedOrders }
{}

/// What a new type reads of such bytes: what it reads whole, and what it misreads.
pub fn worked_sights()
    ensures { WorkedSights }
{}
