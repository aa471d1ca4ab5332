//! Messages of services, `ServiceDescriptorProto` of descriptor.proto. Each call is refused only
//! where memory is.

ghost use Rattle.std.specs.Prelude.{◌≡◌, IfOk, map, slice_get};
ghost use Rattle.std.specs.Option.{option_copied};
ghost use Rattle.pg_set.specs.inner.writing.Drafts.{IsDraftOf, listed};
ghost use Rattle.pg_set.specs.writing.Places.{declared_in};
ghost use Rattle.pg_set.specs.writing.Set.{method_items, service_items, services_items};

use crate::descriptor::places::{METHOD, METHOD_OPTIONS, SERVICE, SERVICE_OPTIONS};
use crate::descriptor::proto;
use crate::descriptor::proto::{
    METHOD_CLIENT_STREAMING, METHOD_DEPRECATED, METHOD_INPUT_TYPE, METHOD_NAME, METHOD_OUTPUT_TYPE,
    METHOD_SERVER_STREAMING, SERVICE_DEPRECATED, SERVICE_METHOD, SERVICE_NAME,
};
use crate::names::own_name;
use crate::writing::draft::{Children, Draft, Writer};
use crate::writing::fields::element_name;
use pg_schema::{Element, Method, Schema, Service, ServiceId};
use std::alloc::AllocError;

// The message of a method.
#[tactic(auto, using(crate::proofs::lemmas::writing::Calls::called))]
fn method_message(writer: &Writer<'_>, method: &Method) -> Result<Draft, AllocError>
    ensures { IfOk result (IsDraftOf METHOD (method_items (declared_in writer.now) method.now)) }
{
    let mut draft = writer.draft(METHOD);
    draft.put_text(METHOD_NAME, &method.name)?;
    let input = element_name(writer, Element::Message(method.input))?;
    draft.put_maybe_text(METHOD_INPUT_TYPE, input)?;
    let output = element_name(writer, Element::Message(method.output))?;
    draft.put_maybe_text(METHOD_OUTPUT_TYPE, output)?;
    let mut options = writer.draft(METHOD_OPTIONS);
    options.put_stated(METHOD_DEPRECATED, method.options.deprecated)?;
    draft.put_options(proto::METHOD_OPTIONS, options)?;
    draft.put_mark(METHOD_CLIENT_STREAMING, method.client_streaming)?;
    draft.put_mark(METHOD_SERVER_STREAMING, method.server_streaming)?;
    Ok(draft)
}

// The messages of methods, in order.
fn methods(writer: &Writer<'_>, methods: &[Method]) -> Result<Children, AllocError>
    ensures { IfOk result (λ made. made
        ≡ listed METHOD (map (method_items (declared_in writer.now)) methods.now)) }
{
    let mut made = Children::with_capacity(writer.alloc, METHOD, methods.len())?;
    for method in methods {
        made.push(method_message(writer, method)?)?;
    }
    Ok(made)
}

// The message of a service.
fn service_message(writer: &Writer<'_>, service: &Service) -> Result<Draft, AllocError>
    ensures { IfOk result (IsDraftOf SERVICE
        (service_items (declared_in writer.now) service.now)) }
{
    let mut draft = writer.draft(SERVICE);
    draft.put_text(SERVICE_NAME, own_name(&service.name))?;
    draft.put_children(SERVICE_METHOD, methods(writer, &service.methods)?)?;
    let mut options = writer.draft(SERVICE_OPTIONS);
    options.put_stated(SERVICE_DEPRECATED, service.options.deprecated)?;
    draft.put_options(proto::SERVICE_OPTIONS, options)?;
    Ok(draft)
}

// The service at that index.
fn service_at(source: &Schema, id: ServiceId) -> Option<&Service>
    ensures { option_copied result ≡ slice_get source.now.services.items id.index }
{
    source.parts().services.get(id.index as usize)
}

/// The messages of the schema's services at these indices, in order.
pub(crate) fn services(writer: &Writer<'_>, ids: &[ServiceId]) -> Result<Children, AllocError>
    ensures { IfOk result (λ made. made
        ≡ listed SERVICE (services_items (declared_in writer.now) ids.now)) }
{
    let mut made = Children::with_capacity(writer.alloc, SERVICE, ids.len())?;
    for id in ids {
        if let Some(service) = service_at(writer.source, *id) {
            made.push(service_message(writer, service)?)?;
        }
    }
    Ok(made)
}
