//! Services and files of a schema, made of a set's messages.

ghost use Rattle.std.specs.Prelude.{◌≡◌, ◌⊎◌, [], true, None, Some, IfErr, IfOk, OnOk, length, map, option_map};
ghost use Rattle.std.specs.Option.{unwrap_or};
ghost use Rattle.pg_dyn.specs.message.Kept.{message_of};
ghost use Rattle.pg_dyn.specs.message.Message.{ends};
ghost use Rattle.pg_set.specs.declared.error.Unstated.TheVariants.{Memory};
ghost use Rattle.pg_set.specs.inner.Lent.{lent};
ghost use Rattle.pg_set.specs.stated.StatedFiles.{file, has_public_places, mode_of, numbered, option_value, options_under};
ghost use Rattle.pg_set.specs.inner.reading.OutlinedPlaces.{placed_file};
ghost use Rattle.pg_set.specs.inner.reading.SetItems.{said};
ghost use Rattle.pg_set.specs.inner.reading.OutlinedRows.{row};
ghost use Rattle.pg_set.specs.inner.reading.Owners.{means_of};
ghost use Rattle.pg_set.specs.declared.descriptor.proto.TheConstants as proto;
ghost use Rattle.pg_set.specs.stated.SetMessages.{numbers_at, options_at, texts_at};
ghost use Rattle.pg_set.specs.stated.StatedNames.{each};
ghost use Rattle.pg_set.specs.stated.StatedServices.{method, service};
ghost use Rattle.pg_set.specs.inner.reading.MadeImports.{import_of};
ghost use Rattle.pg_set.specs.stated.FileMessages.{kept_imports, option_places};
ghost use Rattle.pg_set.specs.inner.reading.Made.{AreMarked};
ghost use Rattle.pg_set.specs.stated.Views.{file_view, method_view, option_view, service_view, value_of};

use crate::descriptor::access::{
    SetItem, SetMessage, child_in, children, flag, item, number_in, numbers, option, text, text_in,
    texts,
};
use crate::descriptor::proto;
use crate::error::Unstated;
use crate::reading::made_oneofs::marks;
use crate::reading::name_lookup::type_meant;
use crate::reading::names_table::NameTable;
use crate::reading::outline::{Outlined, OutlinedFile};
use crate::reading::set_files::is_left_out;
use crate::reading::set_names::undotted;
use pg_schema::{
    File, FileOption, Import, Method, MethodOptions, OptimizeMode, OptionValue, Service,
    ServiceOptions,
};
use std::alloc::{AllocError, Global};

// The options of files that are taken.
const OPTIONS: [u32; 13] = [
    proto::FILE_JAVA_PACKAGE,
    proto::FILE_JAVA_OUTER_CLASSNAME,
    proto::FILE_OPTIMIZE_FOR,
    proto::FILE_JAVA_MULTIPLE_FILES,
    proto::FILE_GO_PACKAGE,
    proto::FILE_DEPRECATED,
    proto::FILE_CC_ENABLE_ARENAS,
    proto::FILE_OBJC_CLASS_PREFIX,
    proto::FILE_CSHARP_NAMESPACE,
    proto::FILE_SWIFT_PREFIX,
    proto::FILE_PHP_CLASS_PREFIX,
    proto::FILE_PHP_NAMESPACE,
    proto::FILE_RUBY_PACKAGE,
];

// ---- services

fn method(
    alloc: Global,
    names: &NameTable,
    message: &SetMessage<'_, '_>,
) -> Result<Method, Unstated>
    ensures made { IfOk result (λ made. method (means_of names.now) (message_of message.now)
        ≡ Some (method_view made)) }
    ensures refused { IfErr result (λ e. (e ≡ Memory)
        ⊎ (method (means_of names.now) (message_of message.now) ≡ None)) }
{
    let name = String::from_str(alloc, text(message, proto::METHOD_NAME))?;
    let Some(input) = type_meant(names, message, proto::METHOD_INPUT_TYPE) else {
        return Err(Unstated::Reference);
    };
    let Some(output) = type_meant(names, message, proto::METHOD_OUTPUT_TYPE) else {
        return Err(Unstated::Reference);
    };
    Ok(Method {
        name,
        input,
        output,
        client_streaming: flag(message, proto::METHOD_CLIENT_STREAMING),
        server_streaming: flag(message, proto::METHOD_SERVER_STREAMING),
        options: MethodOptions {
            deprecated: option(message, proto::METHOD_OPTIONS, proto::METHOD_DEPRECATED),
        },
    })
}

fn methods(
    alloc: Global,
    names: &NameTable,
    messages: &[SetMessage<'_, '_>],
) -> Result<Vec<Method>, Unstated>
    ensures made { IfOk result (λ made. each (method (means_of names.now))
        (map message_of messages.now) ≡ Some (map method_view made.items)) }
    ensures refused { IfErr result (λ e. (e ≡ Memory)
        ⊎ (each (method (means_of names.now)) (map message_of messages.now) ≡ None)) }
{
    let mut methods = Vec::new(alloc);
    for message in messages {
        let made = method(alloc, names, message)?;
        methods.push(made)?;
    }
    Ok(methods)
}

/// The service that a message states, where its methods name message types.
pub(crate) fn service(
    alloc: Global,
    names: &NameTable,
    outlined: &Outlined<'_, '_>,
) -> Result<Service, Unstated>
    ensures made { IfOk result (λ made. service (means_of names.now) (row outlined.now)
        ≡ Some (service_view made)) }
    ensures refused { IfErr result (λ e. (e ≡ Memory)
        ⊎ (service (means_of names.now) (row outlined.now) ≡ None)) }
{
    let message = &outlined.message;
    let name = String::from_str(alloc, undotted(outlined.name.as_str()))?;
    let inside = children(alloc, message, proto::SERVICE_METHOD)?;
    let methods = methods(alloc, names, &inside)?;
    Ok(Service {
        name,
        methods,
        options: ServiceOptions {
            deprecated: option(message, proto::SERVICE_OPTIONS, proto::SERVICE_DEPRECATED),
        },
    })
}

// ---- files

// The word of `optimize_for` with that number.
fn mode(found: i128) -> Option<OptimizeMode>
    ensures { result ≡ mode_of found }
{
    if found == 1 {
        return Some(OptimizeMode::Speed);
    }
    if found == 2 {
        return Some(OptimizeMode::CodeSize);
    }
    if found == 3 {
        return Some(OptimizeMode::LiteRuntime);
    }
    None
}

// The value of the option of that number whose item is a number. A mode that isn't one is answered
// as a flag, which is of no mode's kind.
fn numbered(number: u32, found: i128) -> OptionValue
    ensures { result ≡ numbered number found }
{
    if number == proto::FILE_OPTIMIZE_FOR {
        let mode = mode(found);
        if let Some(mode) = mode {
            return OptionValue::Mode(mode);
        }
    }
    OptionValue::Flag(found != 0)
}

// The value of the option of that number.
fn option_value(
    alloc: Global,
    number: u32,
    item: &SetItem<'_, '_>,
) -> Result<OptionValue, AllocError>
    ensures { IfOk result (λ made. value_of made ≡ option_value number (said item.now)) }
{
    if let SetItem::Number(_) = item {
        return Ok(numbered(number, number_in(item)));
    }
    let found = text_in(item);
    let own = String::from_str(alloc, found)?;
    Ok(OptionValue::Text(own))
}

// The options of these numbers, in their order.
fn options_under(
    alloc: Global,
    message: &SetMessage<'_, '_>,
    numbers: &[u32],
) -> Result<Vec<FileOption>, AllocError>
    ensures { IfOk result (λ made. map option_view made.items
        ≡ options_under (message_of message.now) numbers.now) }
{
    let mut options = Vec::new(alloc);
    for number in numbers {
        let number = *number;
        let found = item(message, number);
        if let Some(value) = found {
            let value = option_value(alloc, number, &value)?;
            options.push(FileOption { number, value })?;
        }
    }
    Ok(options)
}

// The message of a file's options, where there is one.
fn own_options<'b, 'a>(message: &SetMessage<'b, 'a>) -> Option<SetMessage<'b, 'a>>
    ensures { unwrap_or (option_map message_of result) (ends [])
        ≡ options_at proto.FILE_OPTIONS (message_of message.now) }
{
    let found = item(message, proto::FILE_OPTIONS);
    match found {
        Some(value) => child_in(&value),
        None => None,
    }
}

// The options of a file, by rising number.
fn options(alloc: Global, message: &SetMessage<'_, '_>) -> Result<Vec<FileOption>, AllocError>
    ensures { IfOk result (λ made. map option_view made.items
        ≡ options_under (options_at proto.FILE_OPTIONS (message_of message.now)) option_places) }
{
    let own = own_options(message);
    match own {
        Some(child) => options_under(alloc, &child, &OPTIONS),
        None => Ok(Vec::new(alloc)),
    }
}

// The imports of these paths, where those at indices that are marked are public, without those that
// are skipped.
fn kept(
    alloc: Global,
    skips: bool,
    public: &[i128],
    marks: &[bool],
    paths: &[&str],
) -> Result<Vec<Import>, AllocError>
    requires { AreMarked public.now (length paths.now) marks.now }
    ensures { IfOk result (λ made. map import_of made.items
        ≡ kept_imports skips public.now 0 (lent paths.now)) }
{
    let mut imports = Vec::new(alloc);
    for (place, path) in paths.iter().enumerate() {
        if is_left_out(skips, path) {
            continue;
        }
        imports.push(Import {
            path: String::from_str(alloc, path)?,
            is_public: marks[place],
        })?;
    }
    Ok(imports)
}

// The imports of a file, without those that are skipped.
fn imports(
    alloc: Global,
    skips: bool,
    message: &SetMessage<'_, '_>,
) -> Result<Vec<Import>, Unstated>
    ensures made { IfOk result (λ made. map import_of made.items
        ≡ kept_imports skips (numbers_at proto.FILE_PUBLIC_DEPENDENCY (message_of message.now)) 0
        (texts_at proto.FILE_DEPENDENCY (message_of message.now))) }
    ensures places { OnOk result (has_public_places (message_of message.now) ≡ true) }
    ensures refused { IfErr result (λ e. has_public_places (message_of message.now) ≡ true
        → e ≡ Memory) }
{
    let paths = texts(alloc, message, proto::FILE_DEPENDENCY)?;
    let public = numbers(alloc, message, proto::FILE_PUBLIC_DEPENDENCY)?;
    let marks = marks(alloc, &public, paths.len())?;
    let imports = kept(alloc, skips, &public, &marks, &paths)?;
    Ok(imports)
}

/// The file that a message states.
pub(crate) fn file(
    alloc: Global,
    skips: bool,
    outlined: &OutlinedFile<'_, '_>,
) -> Result<File, Unstated>
    ensures made { IfOk result (λ made. file skips (placed_file outlined.now)
        ≡ Some (file_view made)) }
    ensures refused { IfErr result (λ e. (e ≡ Memory)
        ⊎ (file skips (placed_file outlined.now) ≡ None)) }
{
    let message = &outlined.message;
    let own_name = text(message, proto::FILE_NAME);
    let name = String::from_str(alloc, own_name)?;
    let own_package = text(message, proto::FILE_PACKAGE);
    let package = String::from_str(alloc, own_package)?;
    let imports = imports(alloc, skips, message)?;
    let options = options(alloc, message)?;
    let types = outlined.types.clone()?;
    let enums = outlined.enums.clone()?;
    let services = outlined.services.clone()?;
    Ok(File {
        name,
        package,
        imports,
        types,
        enums,
        services,
        options,
    })
}
