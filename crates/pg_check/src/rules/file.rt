//! The rules of a whole file.

ghost use Rattle.std.specs.Prelude.{◌≡◌, ◌++◌, IfOk, None, OnOk, flat_map, map};
ghost use Rattle.pg_check.specs.inner.Sources.{target_in};
ghost use Rattle.pg_check.specs.inner.Faults.{earliest, first_fault};
ghost use Rattle.pg_check.specs.rules.Files as spec;
ghost use Rattle.pg_check.specs.inner.FileFaults as faults;
ghost use Rattle.pg_check.specs.inner.OptionFaults.{stated};
ghost use Rattle.pg_check.specs.inner.CodeViews.{enumeration, message};
ghost use Rattle.pg_check.specs.rules.Outline.{file_messages, scoped_enums};

use crate::rules::enumeration::enum_fault;
use crate::rules::fault::{Fault, Rule, broken, earlier};
use crate::rules::message::body_fault;
use crate::rules::options::{Owner, Stated, first_bad, option_at};
use crate::rules::outline::{FoundEnum, FoundMessage, statements_behind};
use crate::rules::types::Targets;
use pg_syntax::tree::{FileTree, Rpc, RpcPart, Service, ServicePart, Statement};
use std::alloc::{AllocError, Global};

/// The option statements of an rpc, in order.
fn rpc_lines<'a>(alloc: Global, body: &'a [RpcPart]) -> Result<Vec<Stated<'a>>, AllocError>
    ensures { IfOk result (λ lines. map stated lines.items ≡ spec.rpc_lines body.now) }
{
    let mut lines = Vec::new(alloc);
    for part in body {
        if let RpcPart::Option(line) = part {
            lines.push(option_at(Owner::Method, line.span.from, &line.setting))?;
        }
    }
    Ok(lines)
}

/// The first option of an rpc that isn't right, or was stated before.
fn rpc_fault(alloc: Global, rpc: &Rpc) -> Result<Option<Fault>, AllocError>
    ensures { IfOk result (λ fault. fault ≡ faults.rpc_fault rpc.now) }
{
    match &rpc.body {
        Some(body) => {
            let lines = rpc_lines(alloc, body)?;
            Ok(broken(Rule::BadOption, first_bad(alloc, &lines)?))
        }
        None => Ok(None),
    }
}

/// The first rule that the rpcs break.
fn rpcs_fault(alloc: Global, body: &[ServicePart]) -> Result<Option<Fault>, AllocError>
    ensures { IfOk result (λ fault. fault ≡ first_fault faults.part_fault body.now) }
{
    for part in body {
        if let ServicePart::Rpc(rpc) = part {
            let fault = rpc_fault(alloc, rpc)?;
            if fault.is_some() {
                return Ok(fault);
            }
        }
    }
    Ok(None)
}

/// The option statements of a service, in order.
fn service_lines<'a>(alloc: Global, body: &'a [ServicePart]) -> Result<Vec<Stated<'a>>, AllocError>
    ensures { IfOk result (λ lines. map stated lines.items ≡ spec.service_lines body.now) }
{
    let mut lines = Vec::new(alloc);
    for part in body {
        if let ServicePart::Option(line) = part {
            lines.push(option_at(Owner::Service, line.span.from, &line.setting))?;
        }
    }
    Ok(lines)
}

/// The first rule that a service breaks.
fn service_fault(alloc: Global, service: &Service) -> Result<Option<Fault>, AllocError>
    ensures { IfOk result (λ fault. fault ≡ faults.service_fault service.now) }
{
    let lines = service_lines(alloc, &service.parts)?;
    let own = broken(Rule::BadOption, first_bad(alloc, &lines)?);
    let of_rpcs = rpcs_fault(alloc, &service.parts)?;
    Ok(earlier(own, of_rpcs))
}

/// The first rule that the services break.
fn services_fault(alloc: Global, statements: &[Statement]) -> Result<Option<Fault>, AllocError>
    ensures { IfOk result (λ fault. fault ≡ first_fault faults.statement_fault statements.now) }
{
    for statement in statements {
        if let Statement::Service(service) = statement {
            let fault = service_fault(alloc, service)?;
            if fault.is_some() {
                return Ok(fault);
            }
        }
    }
    Ok(None)
}

/// Appends the option statements of a file.
fn push_lines<'a>(
    lines: &mut Vec<Stated<'a>>,
    statements: &'a [Statement],
) -> Result<(), AllocError>
    ensures { OnOk result (map stated lines.new.items ≡ map stated lines.old.items
        ++ flat_map spec.file_line statements.now) }
{
    for statement in statements {
        if let Statement::Option(line) = statement {
            lines.push(option_at(Owner::File, line.span.from, &line.setting))?;
        }
    }
    Ok(())
}

/// The option statements of a file, in order.
fn file_lines<'a>(alloc: Global, file: &'a FileTree) -> Result<Vec<Stated<'a>>, AllocError>
    ensures { IfOk result (λ lines. map stated lines.items ≡ spec.file_lines file.now) }
{
    let mut lines = Vec::new(alloc);
    push_lines(&mut lines, &file.statements)?;
    push_lines(&mut lines, statements_behind(file))?;
    Ok(lines)
}

/// The first rule that the services and options of a file break.
fn statements_fault(alloc: Global, file: &FileTree) -> Result<Option<Fault>, AllocError>
    ensures { IfOk result (λ fault. fault ≡ faults.statements_fault file.now) }
{
    let lines = file_lines(alloc, file)?;
    let own = broken(Rule::BadOption, first_bad(alloc, &lines)?);
    let front = services_fault(alloc, &file.statements)?;
    let behind = services_fault(alloc, statements_behind(file))?;
    Ok(earlier(own, earlier(front, behind)))
}

/// The message type after so many.
fn too_many(left: usize, messages: &[FoundMessage<'_>]) -> Option<usize>
    ensures { result ≡ faults.too_many left (map message messages.now) }
{
    match messages.get(left) {
        Some(found) => Some(found.tree.name.span.from),
        None => None,
    }
}

/// The first rule in the file that a message's own body breaks.
fn messages_fault(
    alloc: Global,
    targets: &Targets<'_>,
    messages: &[FoundMessage<'_>],
) -> Result<Option<Fault>, AllocError>
    ensures { IfOk result (λ fault. fault
        ≡ earliest (faults.message_fault (target_in targets.now)) None (map message messages.now)) }
{
    let mut fault = None;
    for found in messages {
        let next = body_fault(alloc, targets, &found.tree.parts)?;
        fault = earlier(fault, next);
    }
    Ok(fault)
}

/// The first rule in the file that an enum breaks.
fn enums_fault(alloc: Global, enums: &[FoundEnum<'_>]) -> Result<Option<Fault>, AllocError>
    ensures { IfOk result (λ fault. fault
        ≡ earliest faults.found_fault None (map enumeration enums.now)) }
{
    let mut fault = None;
    for found in enums {
        let next = enum_fault(alloc, found.tree)?;
        fault = earlier(fault, next);
    }
    Ok(fault)
}

/// The first rule that a file breaks, with its message types and enums; so many more message types
/// may come.
pub(crate) fn file_fault(
    alloc: Global,
    targets: &Targets<'_>,
    left: usize,
    file: &FileTree,
    messages: &[FoundMessage<'_>],
    enums: &[FoundEnum<'_>],
) -> Result<Option<Fault>, AllocError>
    requires messages { map message messages.now ≡ file_messages file.now }
    requires enums { map enumeration enums.now ≡ scoped_enums file.now }
    ensures { IfOk result (λ fault. fault
        ≡ faults.file_fault (target_in targets.now) left file.now) }
{
    let too_many = broken(Rule::TooManyTypes, too_many(left, messages));
    let of_messages = messages_fault(alloc, targets, messages)?;
    let of_enums = enums_fault(alloc, enums)?;
    let of_statements = statements_fault(alloc, file)?;
    let of_types = earlier(too_many, earlier(of_messages, of_enums));
    Ok(earlier(of_types, of_statements))
}
