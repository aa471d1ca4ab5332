//! Messages of files, `FileDescriptorProto` of descriptor.proto, and of the set. Each call is
//! refused only where memory is.

ghost use Rattle.std.specs.Prelude.{◌≡◌, ◌<◌, ◌≤◌, ◌^◌, ◌∷◌, IfOk, OnOk, length, map, true};
ghost use Rattle.std.specs.List.{AllByRecursion, list_all};
ghost use Rattle.std.specs.String.{string_bytes};
ghost use Rattle.pg_schema.specs.declared.parts.file.Import.{Import};
ghost use Rattle.pg_schema.specs.rules.Files.{is_file_option, option_numbers};
ghost use Rattle.pg_schema.specs.rules.Pairs.{is_rising};
ghost use Rattle.pg_set.specs.inner.writing.Drafts.{IsDraftOf, listed, put};
ghost use Rattle.pg_set.specs.writing.Items as rows;
ghost use Rattle.pg_set.specs.writing.Messages.{types_items};
ghost use Rattle.pg_set.specs.writing.Places.{declared_in};
ghost use Rattle.pg_set.specs.inner.writing.PutParts.{declared_items};
ghost use Rattle.pg_set.specs.writing.Set.{file_items, file_options, mode_code, option_items, public_places};
ghost use Rattle.pg_set.specs.inner.writing.Small.{IsSmallType};
ghost use Rattle.pg_set.specs.inner.writing.Writable.{IsWritable};

use crate::descriptor::places::{FILE, FILE_OPTIONS, MESSAGE};
use crate::descriptor::proto::{
    FILE_DEPENDENCY, FILE_ENUM_TYPE, FILE_MESSAGE_TYPE, FILE_NAME, FILE_PACKAGE,
    FILE_PUBLIC_DEPENDENCY, FILE_SERVICE, FILE_SYNTAX,
};
use crate::descriptor::{MODE, proto};
use crate::writing::draft::{Children, Draft, Writer};
use crate::writing::enums::enums;
use crate::writing::messages::type_message;
use crate::writing::services::services;
use pg_schema::{File, FileOption, Import, OptimizeMode, OptionValue, Schema, TypeId};
use std::alloc::{AllocError, Global};

/// SPEED, CODE_SIZE or LITE_RUNTIME.
pub(crate) fn mode_code(mode: OptimizeMode) -> u32
    ensures value { result ≡ mode_code mode }
    ensures small { result ≤ 3 }
{
    match mode {
        OptimizeMode::Speed => 1,
        OptimizeMode::CodeSize => 2,
        OptimizeMode::LiteRuntime => 3,
    }
}

// Puts an option of a file.
fn put_option(to: &mut Draft, option: &FileOption) -> Result<(), AllocError>
    requires of_type { to.old.type ≡ FILE_OPTIONS }
    requires behind { to.old.last < option.now.number }
    requires kind { is_file_option option.now ≡ true }
    ensures { OnOk result (to.new
        ≡ put option.now.number (option_items option.now.number option.now.value) to.old) }
{
    match &option.value {
        OptionValue::Flag(flag) => to.put_flag(option.number, *flag),
        OptionValue::Mode(mode) => to.put_count(option.number, MODE, mode_code(*mode)),
        OptionValue::Text(text) => to.put_text(option.number, text),
    }
}

// The options of a file.
fn options(writer: &Writer<'_>, stated: &[FileOption]) -> Result<Draft, AllocError>
    requires kinds { list_all is_file_option stated.now ≡ true }
    requires rising { is_rising (0 ∷ option_numbers stated.now) ≡ true }
    ensures { IfOk result (IsDraftOf FILE_OPTIONS (file_options stated.now)) }
{
    let mut draft = writer.draft(FILE_OPTIONS);
    for option in stated {
        put_option(&mut draft, option)?;
    }
    Ok(draft)
}

// The paths of imports, in order.
fn paths(alloc: Global, imports: &[Import]) -> Result<Vec<String>, AllocError>
    ensures { IfOk result (λ paths. map string_bytes paths.items
        ≡ map (λ (i : Import). string_bytes i.path) imports.now) }
{
    let mut paths = Vec::with_capacity(alloc, imports.len())?;
    for import in imports {
        paths.push(import.path.clone()?)?;
    }
    Ok(paths)
}

// The indices of the public imports, in order.
fn public_places(alloc: Global, imports: &[Import]) -> Result<Vec<u32>, AllocError>
    requires { length imports.now < 2 ^ 31 }
    ensures places { IfOk result (λ places. places.items ≡ public_places 0 imports.now) }
    ensures small { IfOk result (λ places. AllByRecursion (λ n. n < 2 ^ 31) places.items) }
{
    let mut places = Vec::new(alloc);
    let mut next: u32 = 0;
    for import in imports {
        let place = next;
        next += 1;
        if !import.is_public {
            continue;
        }
        places.push(place)?;
    }
    Ok(places)
}

// Puts the indices of the public imports.
fn put_places(to: &mut Draft, alloc: Global, imports: &[Import]) -> Result<(), AllocError>
    requires of_type { to.old.type ≡ FILE }
    requires behind { to.old.last < 10 }
    requires few { length imports.now < 2 ^ 31 }
    ensures { OnOk result (to.new
        ≡ put 10 (rows.counts 10 (public_places 0 imports.now)) to.old) }
{
    to.put_counts(FILE_PUBLIC_DEPENDENCY, &public_places(alloc, imports)?)
}

// The messages of the message types at these indices, with what is inside them, nested so many
// deep.
fn types(writer: &Writer<'_>, depth: usize, ids: &[TypeId]) -> Result<Children, AllocError>
    requires { AllByRecursion IsSmallType writer.now.types.items }
    ensures { IfOk result (λ made. made
        ≡ listed MESSAGE (types_items depth (declared_in writer.now) ids.now)) }
{
    let mut made = Children::new(writer.alloc, MESSAGE);
    if depth == 0 {
        return Ok(made);
    }
    for id in ids {
        let Some(declared) = writer.source.message_type(*id) else {
            continue;
        };
        let nested = types(writer, depth - 1, &declared.nested_types)?;
        made.push(type_message(writer, *id, declared, nested)?)?;
    }
    Ok(made)
}

// How many message types the schema has: none is nested deeper.
fn type_count(source: &Schema) -> usize
    ensures { result ≡ length source.now.types.items }
{
    source.parts().types.len()
}

// Puts what a file declares: message types, enums and services.
fn put_declared(writer: &Writer<'_>, to: &mut Draft, file: &File) -> Result<(), AllocError>
    requires types { AllByRecursion IsSmallType writer.now.types.items }
    requires of_type { to.old.type ≡ FILE }
    requires behind { to.old.last < 4 }
    ensures { OnOk result (to.new
        ≡ put 6 (declared_items (declared_in writer.now) file.now) to.old) }
{
    let depth = type_count(writer.source);
    to.put_children(FILE_MESSAGE_TYPE, types(writer, depth, &file.types)?)?;
    to.put_children(FILE_ENUM_TYPE, enums(writer, &file.enums)?)?;
    to.put_children(FILE_SERVICE, services(writer, &file.services)?)
}

// The message of a file.
fn file_message(writer: &Writer<'_>, file: &File) -> Result<Draft, AllocError>
    requires types { AllByRecursion IsSmallType writer.now.types.items }
    requires file { IsWritable file.now }
    ensures { IfOk result (IsDraftOf FILE (file_items (declared_in writer.now) file.now)) }
{
    let mut draft = writer.draft(FILE);
    draft.put_text(FILE_NAME, &file.name)?;
    draft.put_filled(FILE_PACKAGE, &file.package)?;
    draft.put_texts(FILE_DEPENDENCY, &paths(writer.alloc, &file.imports)?)?;
    put_declared(writer, &mut draft, file)?;
    draft.put_options(proto::FILE_OPTIONS, options(writer, &file.options)?)?;
    put_places(&mut draft, writer.alloc, &file.imports)?;
    draft.put_text(FILE_SYNTAX, "proto3")?;
    Ok(draft)
}

/// The messages of these files, in order.
pub(crate) fn files(writer: &Writer<'_>, files: &[File]) -> Result<Children, AllocError>
    requires types { AllByRecursion IsSmallType writer.now.types.items }
    requires files { AllByRecursion IsWritable files.now }
    ensures { IfOk result (λ made. made
        ≡ listed FILE (map (file_items (declared_in writer.now)) files.now)) }
{
    let mut made = Children::with_capacity(writer.alloc, FILE, files.len())?;
    for file in files {
        made.push(file_message(writer, file)?)?;
    }
    Ok(made)
}
