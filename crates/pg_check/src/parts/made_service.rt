//! What a service declares, as a schema has it.

ghost use Rattle.std.specs.Prelude.{◌≡◌, ◌++◌, IfOk, OnOk, length, map};
ghost use Rattle.pg_check.specs.inner.Sources.{target_in};
ghost use Rattle.pg_check.specs.parts.MadeServices as spec;

use crate::parts::made_number::index_of;
use crate::parts::made_option::flag_in;
use crate::rules::types::Targets;
use pg_link::Target;
use pg_schema::{Method, MethodOptions, Service, ServiceId, ServiceOptions, TypeId, full_name};
use pg_syntax::tree::{self, Rpc, RpcPart, ServicePart, Statement};
use std::alloc::{AllocError, Global};

/// The message type of what a type name names.
fn message_at(target: Option<Target>) -> TypeId
    ensures { result ≡ spec.message_at target }
{
    match target {
        Some(Target::Message(place)) => TypeId {
            index: index_of(place),
        },
        Some(Target::Enum(_)) => TypeId { index: 0 },
        None => TypeId { index: 0 },
    }
}

/// Whether the option statements say that the rpc is deprecated.
fn rpc_flag(body: &[RpcPart]) -> Option<bool>
    ensures { result ≡ spec.rpc_flag body.now }
{
    for part in body {
        if let RpcPart::Option(line) = part {
            let flag = flag_in("deprecated", &line.setting);
            if flag.is_some() {
                return flag;
            }
        }
    }
    None
}

/// A method.
fn made_method(alloc: Global, targets: &Targets<'_>, rpc: &Rpc) -> Result<Method, AllocError>
    ensures { IfOk result (λ made. spec.method made
        ≡ spec.made_method (target_in targets.now) rpc.now) }
{
    let name = String::from_str(alloc, &rpc.name.text)?;
    let deprecated = match &rpc.body {
        Some(body) => rpc_flag(body),
        None => None,
    };
    Ok(Method {
        name,
        input: message_at(targets.at(rpc.input.type_name.span.from)),
        output: message_at(targets.at(rpc.output.type_name.span.from)),
        client_streaming: rpc.input.is_stream,
        server_streaming: rpc.output.is_stream,
        options: MethodOptions { deprecated },
    })
}

/// The methods, in order of declaration.
fn made_methods(
    alloc: Global,
    targets: &Targets<'_>,
    body: &[ServicePart],
) -> Result<Vec<Method>, AllocError>
    ensures { IfOk result (λ methods. map spec.method methods.items
        ≡ spec.made_methods (target_in targets.now) body.now) }
{
    let mut methods = Vec::new(alloc);
    for part in body {
        if let ServicePart::Rpc(rpc) = part {
            methods.push(made_method(alloc, targets, rpc)?)?;
        }
    }
    Ok(methods)
}

/// Whether the option statements say that the service is deprecated.
fn service_flag(body: &[ServicePart]) -> Option<bool>
    ensures { result ≡ spec.service_flag body.now }
{
    for part in body {
        if let ServicePart::Option(line) = part {
            let flag = flag_in("deprecated", &line.setting);
            if flag.is_some() {
                return flag;
            }
        }
    }
    None
}

/// A service in a scope.
fn made_service(
    alloc: Global,
    targets: &Targets<'_>,
    scope: &str,
    service: &tree::Service,
) -> Result<Service, AllocError>
    ensures { IfOk result (λ made. spec.service made
        ≡ spec.made_service (target_in targets.now) scope.now service.now) }
{
    let name = full_name(alloc, scope, &service.name.text)?;
    let methods = made_methods(alloc, targets, &service.parts)?;
    let options = ServiceOptions {
        deprecated: service_flag(&service.parts),
    };
    Ok(Service {
        name,
        methods,
        options,
    })
}

/// Appends the services of statements.
pub(crate) fn push_services(
    alloc: Global,
    targets: &Targets<'_>,
    scope: &str,
    services: &mut Vec<Service>,
    statements: &[Statement],
) -> Result<(), AllocError>
    ensures { OnOk result (map spec.service services.new.items ≡ map spec.service services.old.items
        ++ spec.made_services (target_in targets.now) scope.now statements.now) }
{
    for statement in statements {
        if let Statement::Service(service) = statement {
            services.push(made_service(alloc, targets, scope, service)?)?;
        }
    }
    Ok(())
}

/// The indexes of the services, behind those that come before.
pub(crate) fn service_ids(
    alloc: Global,
    before: &[Service],
    services: &[Service],
) -> Result<Vec<ServiceId>, AllocError>
    ensures { IfOk result (λ ids. ids.items
        ≡ spec.service_ids (length before.now) (map spec.service services.now)) }
{
    let mut ids = Vec::new(alloc);
    for (index, _service) in services.iter().enumerate() {
        ids.push(ServiceId {
            index: before.len() + index,
        })?;
    }
    Ok(ids)
}
