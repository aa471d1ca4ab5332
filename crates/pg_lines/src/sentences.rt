//! The sentence of a code: made by tools/docs/errors.py --write of what the error types say.
ghost use Rattle.std.specs.Prelude.{◌≡◌};
ghost use Rattle.pg_lines.specs.Sentences as spec;

#[tactic(auto, unfolding(crate::specs::Sentences::token_sentence))]
fn token_sentence(code: u16) -> &'static str
    ensures { result.now ≡ spec.token_sentence code }
{
    match code {
        101 => "The source file is not UTF-8.",
        102 => "Unexpected character.",
        103 => "The string literal crosses a line boundary.",
        104 => "The string literal has an invalid escape sequence or is not UTF-8.",
        105 => "The block comment is never closed.",
        106 => "The integer is out of range.",
        107 => "The number is a float, where only integers are supported.",
        108 => "The file has more than 4,194,304 bytes.",
        _ => "",
    }
}

#[tactic(auto, unfolding(crate::specs::Sentences::grammar_sentence))]
fn grammar_sentence(code: u16) -> &'static str
    ensures { result.now ≡ spec.grammar_sentence code }
{
    match code {
        201 => "The first statement is not `syntax = \"proto3\";`.",
        202 => "Unexpected token or end of file.",
        203 => "The group is not supported.",
        204 => "The extension is not supported.",
        205 => "The custom option is not supported.",
        206 => "The weak import is not supported.",
        207 => "The message is nested too deep.",
        _ => "",
    }
}

#[tactic(auto, unfolding(crate::specs::Sentences::file_sentence))]
fn file_sentence(code: u16) -> &'static str
    ensures { result.now ≡ spec.file_sentence code }
{
    match code {
        301 => "The file was not found.",
        302 => "The file recursively imports itself.",
        303 => "The import was listed twice.",
        304 => "The name is already defined.",
        305 => "The type is not defined.",
        306 => "The name is not a type.",
        307 => "The type is defined in a file that is not imported.",
        308 => "There are more than 1,024 files.",
        309 => "The file could not be read.",
        _ => "",
    }
}

#[tactic(auto, unfolding(crate::specs::Sentences::rule_sentence))]
fn rule_sentence(code: u16) -> &'static str
    ensures { result.now ≡ spec.rule_sentence code }
{
    match code {
        401 => "The number of the field, value or reserved item is out of range.",
        402 => "The field number has already been used in this message.",
        403 => "The number is reserved.",
        404 => "The name is reserved.",
        405 => "The reserved range ends before it begins, or overlaps another.",
        406 => "The JSON name of the field conflicts with that of another field.",
        407 => "Keys of map fields cannot be float, double, bytes, message or enum types.",
        408 => {
            "A oneof must have at least one field, and none that is a map, repeated or optional."
        }
        409 => "The first enum value must be zero in proto3.",
        410 => "The number is used by another value of the enum, which does not set allow_alias.",
        411 => "The option is unknown, has a value of the wrong kind, or was already set.",
        412 => "[packed = true] can only be specified for repeated primitive fields.",
        413 => "There are more than 4,096 message types.",
        414 => "Enums must contain at least one value.",
        415 => "A name is not a valid identifier, or the descriptors do not fit together.",
        _ => "",
    }
}

#[tactic(auto, unfolding(crate::specs::Sentences::record_sentence))]
fn record_sentence(code: u16) -> &'static str
    ensures { result.now ≡ spec.record_sentence code }
{
    match code {
        501 => "The varint has more than ten bytes.",
        502 => "The input ends inside the record or varint.",
        503 => "The tag is invalid.",
        504 => "The group is not supported.",
        505 => "The tag has an unknown wire type.",
        _ => "",
    }
}

#[tactic(auto, unfolding(crate::specs::Sentences::message_sentence))]
fn message_sentence(code: u16) -> &'static str
    ensures { result.now ≡ spec.message_sentence code }
{
    match code {
        604 => "The string is not UTF-8.",
        607 => "The encoding has more than 2,147,483,647 bytes.",
        608 => "The message is nested too deep.",
        _ => "",
    }
}

#[tactic(auto, unfolding(crate::specs::Sentences::set_sentence))]
fn set_sentence(code: u16) -> &'static str
    ensures { result.now ≡ spec.set_sentence code }
{
    match code {
        702 => "A file of the set is not proto3.",
        703 => "A field of the set has an unsupported type or label.",
        704 => "The set has an invalid reference.",
        _ => "",
    }
}

#[tactic(auto, unfolding(crate::specs::Sentences::certificate_sentence))]
fn certificate_sentence(code: u16) -> &'static str
    ensures { result.now ≡ spec.certificate_sentence code }
{
    match code {
        801 => "The bytes are not a certificate of these schemas.",
        802 => "The certificate has no bound for the root.",
        803 => "The certificate has no bound for a child of a pair.",
        804 => "The bound is too high: a shorter message breaks at field NUMBER by case CASE.",
        805 => "The old writer never writes the witness.",
        806 => "The length of the witness is not the bound of the root.",
        807 => "The witness does not break.",
        _ => "",
    }
}

#[tactic(auto, unfolding(crate::specs::Sentences::gate_sentence))]
fn gate_sentence(code: u16) -> &'static str
    ensures { result.now ≡ spec.gate_sentence code }
{
    match code {
        901 => "The old schema, or that of `show`, has no such message type.",
        902 => "The new schema has no such message type.",
        905 => "The argument is not pairs of hexadecimal digits.",
        906 => "The list of files isn't UTF-8.",
        907 => "No file is named.",
        _ => "",
    }
}

/// The sentence of a code that a refusal has.
#[tactic(auto, unfolding(crate::specs::Sentences::sentence_of))]
pub(crate) fn sentence_of(code: u16) -> &'static str
    ensures { result.now ≡ spec.sentence_of code }
{
    match code / 100 {
        1 => token_sentence(code),
        2 => grammar_sentence(code),
        3 => file_sentence(code),
        4 => rule_sentence(code),
        5 => record_sentence(code),
        6 => message_sentence(code),
        7 => set_sentence(code),
        8 => certificate_sentence(code),
        9 => gate_sentence(code),
        _ => "",
    }
}
