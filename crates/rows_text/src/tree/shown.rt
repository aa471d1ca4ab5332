//! The first statement of a file, as far as rows show it.
use pg_syntax::tree::{
    Argument, EmptyStatements, Field, FileTree, Label, Message, Part, Rpc, Service, ServicePart,
    Statement, TypeName,
};
use std::alloc::{AllocError, Global};

fn type_name(alloc: Global, name: &TypeName) -> Result<String, AllocError> {
    let dot = if name.is_full { "." } else { "" };
    let mut out = format!(in alloc; "{dot}{}", name.path.first.text)?;
    for word in &name.path.more {
        out.push_str(".")?;
        out.push_str(&word.text)?;
    }
    Ok(out)
}

fn label(field: &Field) -> &'static str {
    match field.label {
        Some(Label::Repeated) => "repeated ",
        Some(Label::Optional) => "optional ",
        None => "",
    }
}

fn field(alloc: Global, field: &Field) -> Result<String, AllocError> {
    let shown = type_name(alloc, &field.type_name)?;
    let settings = if field.settings.is_some() { " []" } else { "" };
    format!(in alloc;
        "{}{shown} {} = {}{settings}",
        label(field),
        field.name.text,
        field.number
    )
}

/// A `;` for each empty statement of a run.
fn empties(alloc: Global, run: &EmptyStatements) -> Result<String, AllocError> {
    let mut out = String::from_str(alloc, ";")?;
    for _ in &run.more {
        out.push_str(", ;")?;
    }
    Ok(out)
}

fn part(alloc: Global, part: &Part) -> Result<String, AllocError> {
    match part {
        Part::Empty(run) => empties(alloc, run),
        Part::Message(_) => String::from_str(alloc, "message"),
        Part::Enum(_) => String::from_str(alloc, "enum"),
        Part::Oneof(_) => String::from_str(alloc, "oneof"),
        Part::Option(_) => String::from_str(alloc, "option"),
        Part::Reserved(_) => String::from_str(alloc, "reserved"),
        Part::Map(_) => String::from_str(alloc, "map"),
        Part::Field(one) => field(alloc, one),
    }
}

/// A message's offsets, its name and its parts.
fn message(alloc: Global, message: &Message) -> Result<String, AllocError> {
    let span = message.span;
    let mut out = format!(in alloc; "{}-{} message {}", span.from, span.to, message.name.text)?;
    for one in &message.parts {
        out.push_str(", ")?;
        out.push_str(&part(alloc, one)?)?;
    }
    Ok(out)
}

fn argument(alloc: Global, argument: &Argument) -> Result<String, AllocError> {
    let stream = if argument.is_stream { "stream " } else { "" };
    format!(in alloc; "{stream}{}", type_name(alloc, &argument.type_name)?)
}

fn rpc(alloc: Global, rpc: &Rpc) -> Result<String, AllocError> {
    let input = argument(alloc, &rpc.input)?;
    let output = argument(alloc, &rpc.output)?;
    format!(in alloc; ", {} ({input}) ({output})", rpc.name.text)
}

/// A service's name and its rpcs.
fn service(alloc: Global, service: &Service) -> Result<String, AllocError> {
    let mut out = format!(in alloc; "service {}", service.name.text)?;
    for part in &service.parts {
        if let ServicePart::Rpc(one) = part {
            out.push_str(&rpc(alloc, one)?)?;
        }
    }
    Ok(out)
}

/// The first statement of a file, where it is a message or a service, or `taken`.
pub fn first_statement(alloc: Global, file: &FileTree) -> Result<String, AllocError> {
    match file.statements.first() {
        Some(Statement::Message(one)) => message(alloc, one),
        Some(Statement::Service(one)) => service(alloc, one),
        _ => String::from_str(alloc, "taken"),
    }
}
