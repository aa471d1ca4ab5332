//! What help says.

/// What help says of the statuses.
pub(crate) const STATUSES: &str = "Statuses:
  0  compatible: the new program reads all that the old one writes; or a set is written, a message shown, or types named
  1  breaks: it misreads some message; with --both, in one direction at least
  2  refused: a fault in a file, a certificate or bytes, or the message type is missing; or gate-all finds one removed
  3  out of memory, or a file or the output failed
  4  help, the version, or a bad command line; or a side names no file
  5  bound: a certificate gives only a lower bound on the length of a message that breaks";

/// What help says of a set that is written: what is printed, and the statuses.
const COMPILE_ANSWERS: &str = "Prints the bytes of a google.protobuf.FileDescriptorSet, or a line
  refused CODE POSITION  no set, for a fault at that position; `man protogate` has each code

Statuses:
  0  the set is written to standard output, and nothing else
  2  refused: a fault in a file
  3  out of memory, or a file or the output failed
  4  help, the version, or a bad command line; or a side names no file";

/// What help says of the gate's answers: what is printed, and the statuses.
const GATE_ANSWERS: &str = "Prints lines:
  compatible NAME       no message breaks
  breaks NAME LENGTH    some message does; the shortest have that many bytes
  witness HEX           one of these, after breaks
  step NUMBER OLDFIELD OLDPOSITION NEWFIELD NEWPOSITION
                        each field on the way to what breaks in it
  old, new              with --explain, after the steps: each comes before the lines of `show`
                        for HEX by the type of that side, or before a refusal of it
  forward, backward     with --both, before the lines of either direction
  refused SIDE CODE POSITION
                        no answer, for a fault of the old or the new side; `man protogate` has each code
  refused E901          no answer, since the old side has no message type of that name
  refused E902          no answer, since only the old side has it
With --cert it prints the lines of the certificate, or those of a refusal.
With --view names a number that both sides' enums have is another value if it has other names.

Statuses:
  0  compatible: the new program reads all that the old one writes
  1  breaks: it misreads some message; with --both, in one direction at least
  2  refused: a fault in a file, or the message type is missing
  3  out of memory, or a file or the output failed
  4  help, the version, or a bad command line
  5  never of gate: only verify ends so, where a certificate gives a bound alone";

/// What help says of the answers on all message types: what is printed, and the statuses.
const GATE_ALL_ANSWERS: &str = "Prints lines, in this order:
  cause CASE LENGTH HEX NUMBER OLDFIELD OLDPOSITION NEWFIELD NEWPOSITION
                        a field that breaks by itself, in a message type of both sides or one that these lead to;
                        each is printed once. HEX is a shortest message of its old message type that breaks for this reason.
                        Fields that meet in a oneof are one line, with the names and positions of all that come into it;
                        NUMBER is the smallest, and HEX holds two of them
  old, new              with --explain, after a cause: each comes before the lines of `show`
                        for HEX by the type of that side, or before a refusal of it
  compatible NAME       no message of this type breaks
  breaks NAME LENGTH    some message does; the shortest have that many bytes
  removed NAME          a message type that only the old side has
  added NAME            a message type that only the new side has
  note KIND NUMBER OLDNAME OLDPOSITION NEWNAME NEWPOSITION
                        with --notes, a change that breaks no message, but that JSON, code or a client may see
  refused SIDE CODE POSITION
                        no answer, for a fault of the old or the new side; `man protogate` has each code

CASE says why it breaks:
  unlike                another kind of element, or a map and no map
  value                 some value is read as another, or not at all
  name                  with --view names, a number has another name
  list-to-one           a list where the new type has one item
  map                   keys or values of another kind
  map-key, map-value    some key or value is read as another, or not at all
  oneof                 fields of which a new oneof holds only one

KIND says what changed; - stands where a side has no number, name or position:
  field-renamed         a field number has another name; one word more is the number that has the old name now, or -
  field-moved           a field name has another number, which is one word more
  number-unreserved     a field number went, and the new type doesn't reserve it
  presence-dropped      a field can no longer say that it isn't set
  number-to-list        a single number, bool or enum is a packed list now
  value-renamed         the number of an enum's value has another name
  value-gone            the number of an enum's value went
  method-gone           a method went, and its service is still there
  service-gone          a method went with its service
  method-changed        a method takes or answers another message type, or one of them is a stream now, or none

Statuses:
  0  each message type of both sides is compatible, and none is removed
  1  breaks: there is a cause
  2  removed: a message type that only the old side has; or refused: a fault in a file
  3  out of memory, or a file or the output failed
  4  help, the version, or a bad command line; or a side names no file
  5  never of gate-all: only verify ends so, where a certificate gives a bound alone";

/// What help says of a message that is shown: what is printed, and the statuses.
const SHOW_ANSWERS: &str = "Prints lines, those of a nested message two spaces further in:
  NUMBER NAME ITEM      an item of a field
  NUMBER NAME key ITEM value ITEM
                        an entry of a map
  unknown HEX           a record that no field takes
  again HEX             at the end, what is written of the message
  refused CODE POSITION no message, for a fault of the file; `man protogate` has each code
  refused CODE at BYTE  no message, for a fault of its bytes at that one
An ITEM is int N, f32 HEX and f64 HEX with the bits, text HEX, bytes HEX, or msg, with the lines of that message after it.
For no bytes HEX is -.

Statuses:
  0  the message is shown
  2  refused: a fault in a file, the message type is missing, or HEX is malformed, or isn't such a message
  3  out of memory, or a file or the output failed
  4  help, the version, or a bad command line";

/// What help says of a checked certificate: what is printed, and the statuses.
const VERIFY_ANSWERS: &str = "Prints one line:
  compatible NAME       the certificate holds: no message breaks
  breaks NAME LENGTH    it holds: its witness breaks, and no shorter message does
  bound NAME LENGTH     it holds: a message that breaks has at least that many bytes
  refused REASON        it doesn't hold, or a side has a fault; `man protogate` has each code
Enums are compared by the view that the certificate names; version 1 means numbers.

Statuses:
  0  compatible: the certificate holds, and no message breaks
  1  breaks: it holds, and its witness is a shortest message that breaks
  2  refused: a fault in a file, or the certificate doesn't hold
  3  out of memory, or a file or the output failed
  4  help, the version, or a bad command line
  5  bound: it holds, and gives only a lower bound on the length of a message that breaks";

/// What help says of the names of types: what is printed, and the statuses.
const TYPES_ANSWERS: &str = "Prints lines:
  NAME                  each message type by its full name, in order of declaration, those of imports too
  refused CODE POSITION no names, for a fault at that position; `man protogate` has each code

Statuses:
  0  each type is named
  2  refused: a fault in a file
  3  out of memory, or a file or the output failed
  4  help, the version, or a bad command line; or a side names no file";

/// What help says of a side's file.
pub(crate) const OLD_FILE: &str =
    "The old proto3 file, or a descriptor set where F doesn't end in .proto";

pub(crate) const NEW_FILE: &str =
    "The new proto3 file, or a descriptor set where F doesn't end in .proto";

/// What help says of a side's files.
pub(crate) const OLD_FILES: &str =
    "Each old proto3 file, or one descriptor set where F doesn't end in .proto";

pub(crate) const NEW_FILES: &str =
    "Each new proto3 file, or one descriptor set where F doesn't end in .proto";

/// What help says of the file by which a message is shown.
pub(crate) const SHOWN_FILE: &str =
    "The proto3 file, or a descriptor set where F doesn't end in .proto";

/// What help says of included folders.
pub(crate) const INCLUDE: &str =
    "An included folder: what --dir lacks is looked for in each in turn; as often as needed";

pub(crate) const OLD_INCLUDE: &str =
    "An included folder: what --old-dir lacks is looked for in each in turn; as often as needed";

pub(crate) const NEW_INCLUDE: &str =
    "An included folder: what --new-dir lacks is looked for in each in turn; as often as needed";

/// What help says of the form in which lines are printed.
pub(crate) const JSON: &str =
    "Print each line as a JSON object; `protogate.1` has the members of each";

/// What help says of a list.
pub(crate) const LIST: &str = "A file, from the current folder, whose lines name further files";

pub(crate) const OLD_LIST: &str =
    "A file, from the current folder, whose lines name further old files";

pub(crate) const NEW_LIST: &str =
    "A file, from the current folder, whose lines name further new files";

/// What help says of the view by which enums are compared.
pub(crate) const VIEW: &str =
    "Compare enums by their numbers alone, or by the names of the numbers too";

/// The answers of a subcommand.
#[derive(Clone, Copy)]
pub(crate) enum Answers {
    Compile,
    Gate,
    GateAll,
    Verify,
    Show,
    Types,
}

impl Answers {
    /// What help says of them.
    pub(crate) fn text(self) -> &'static str {
        match self {
            Answers::Compile => COMPILE_ANSWERS,
            Answers::Gate => GATE_ANSWERS,
            Answers::GateAll => GATE_ALL_ANSWERS,
            Answers::Verify => VERIFY_ANSWERS,
            Answers::Show => SHOW_ANSWERS,
            Answers::Types => TYPES_ANSWERS,
        }
    }
}
