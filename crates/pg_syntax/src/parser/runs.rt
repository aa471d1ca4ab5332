//! Lists in which empty statements that follow one another are one element.

ghost use Rattle.std.specs.Prelude.{◌≡◌, ◌++◌, OnOk};
ghost use Rattle.pg_syntax.specs.Views as view;

use crate::tree::{EmptyStatements, EnumPart, OneofPart, Part, RpcPart, ServicePart, Statement};
use std::alloc::AllocError;

impl EmptyStatements {
    /// Appends others.
    fn join(&mut self, others: EmptyStatements) -> Result<(), AllocError>
        ensures { OnOk result (view.nodes (view.empties self.new)
            ≡ view.nodes (view.empties self.old) ++ view.nodes (view.empties others)) }
    {
        let mut more = others.more;
        self.more.push(others.first)?;
        self.more.append(&mut more)?;
        Ok(())
    }
}

/// Appends a part of a message.
pub(crate) fn add_part(parts: &mut Vec<Part>, part: Part) -> Result<(), AllocError>
    ensures { OnOk result (view.all_nodes view.part parts.new.items
        ≡ view.all_nodes view.part parts.old.items ++ view.nodes (view.part part)) }
{
    let Part::Empty(others) = part else {
        return Ok(parts.push(part)?);
    };
    match parts.pop() {
        Some(Part::Empty(mut run)) => {
            run.join(others)?;
            Ok(parts.push(Part::Empty(run))?)
        }
        Some(last) => {
            parts.push(last)?;
            Ok(parts.push(Part::Empty(others))?)
        }
        None => Ok(parts.push(Part::Empty(others))?),
    }
}

/// Appends a part of a oneof.
pub(crate) fn add_oneof_part(parts: &mut Vec<OneofPart>, part: OneofPart) -> Result<(), AllocError>
    ensures { OnOk result (view.all_nodes view.oneof_part parts.new.items
        ≡ view.all_nodes view.oneof_part parts.old.items ++ view.nodes (view.oneof_part part)) }
{
    let OneofPart::Empty(others) = part else {
        return Ok(parts.push(part)?);
    };
    match parts.pop() {
        Some(OneofPart::Empty(mut run)) => {
            run.join(others)?;
            Ok(parts.push(OneofPart::Empty(run))?)
        }
        Some(last) => {
            parts.push(last)?;
            Ok(parts.push(OneofPart::Empty(others))?)
        }
        None => Ok(parts.push(OneofPart::Empty(others))?),
    }
}

/// Appends a part of an enum.
pub(crate) fn add_enum_part(parts: &mut Vec<EnumPart>, part: EnumPart) -> Result<(), AllocError>
    ensures { OnOk result (view.all_nodes view.enum_part parts.new.items
        ≡ view.all_nodes view.enum_part parts.old.items ++ view.nodes (view.enum_part part)) }
{
    let EnumPart::Empty(others) = part else {
        return Ok(parts.push(part)?);
    };
    match parts.pop() {
        Some(EnumPart::Empty(mut run)) => {
            run.join(others)?;
            Ok(parts.push(EnumPart::Empty(run))?)
        }
        Some(last) => {
            parts.push(last)?;
            Ok(parts.push(EnumPart::Empty(others))?)
        }
        None => Ok(parts.push(EnumPart::Empty(others))?),
    }
}

/// Appends a part of an rpc.
pub(crate) fn add_rpc_part(parts: &mut Vec<RpcPart>, part: RpcPart) -> Result<(), AllocError>
    ensures { OnOk result (view.all_nodes view.rpc_part parts.new.items
        ≡ view.all_nodes view.rpc_part parts.old.items ++ view.nodes (view.rpc_part part)) }
{
    let RpcPart::Empty(others) = part else {
        return Ok(parts.push(part)?);
    };
    match parts.pop() {
        Some(RpcPart::Empty(mut run)) => {
            run.join(others)?;
            Ok(parts.push(RpcPart::Empty(run))?)
        }
        Some(last) => {
            parts.push(last)?;
            Ok(parts.push(RpcPart::Empty(others))?)
        }
        None => Ok(parts.push(RpcPart::Empty(others))?),
    }
}

/// Appends a part of a service.
pub(crate) fn add_service_part(
    parts: &mut Vec<ServicePart>,
    part: ServicePart,
) -> Result<(), AllocError>
    ensures { OnOk result (view.all_nodes view.service_part parts.new.items
        ≡ view.all_nodes view.service_part parts.old.items ++ view.nodes (view.service_part part)) }
{
    let ServicePart::Empty(others) = part else {
        return Ok(parts.push(part)?);
    };
    match parts.pop() {
        Some(ServicePart::Empty(mut run)) => {
            run.join(others)?;
            Ok(parts.push(ServicePart::Empty(run))?)
        }
        Some(last) => {
            parts.push(last)?;
            Ok(parts.push(ServicePart::Empty(others))?)
        }
        None => Ok(parts.push(ServicePart::Empty(others))?),
    }
}

/// Appends a statement of a file.
pub(crate) fn add_statement(
    statements: &mut Vec<Statement>,
    statement: Statement,
) -> Result<(), AllocError>
    ensures { OnOk result (view.all_nodes view.statement statements.new.items
        ≡ view.all_nodes view.statement statements.old.items
        ++ view.nodes (view.statement statement)) }
{
    let Statement::Empty(others) = statement else {
        return Ok(statements.push(statement)?);
    };
    match statements.pop() {
        Some(Statement::Empty(mut run)) => {
            run.join(others)?;
            Ok(statements.push(Statement::Empty(run))?)
        }
        Some(last) => {
            statements.push(last)?;
            Ok(statements.push(Statement::Empty(others))?)
        }
        None => Ok(statements.push(Statement::Empty(others))?),
    }
}
