//! What a file states beside its types, as a schema has it.

ghost use Rattle.std.specs.Prelude.{◌≡◌, ◌++◌, IfOk, OnOk, flat_map, map, option_map};
ghost use Rattle.pg_check.specs.parts.MadeFiles as spec;

use crate::parts::made_option::flag_word;
use crate::rules::options::{Kind, Owner, is_word, known_by};
use crate::rules::outline::statements_behind;
use pg_schema::{FileOption, Import, OptimizeMode, OptionValue};
use pg_syntax::tree::{Dotted, FileTree, Setting, Statement, Value};
use std::alloc::{AllocError, Global};

/// Appends the imports of statements.
fn push_imports(
    alloc: Global,
    imports: &mut Vec<Import>,
    statements: &[Statement],
) -> Result<(), AllocError>
    ensures { OnOk result (map spec.file_import imports.new.items
        ≡ map spec.file_import imports.old.items ++ flat_map spec.import_in statements.now) }
{
    for statement in statements {
        if let Statement::Import(import) = statement {
            imports.push(Import {
                path: import.path.joined(alloc)?,
                is_public: import.is_public,
            })?;
        }
    }
    Ok(())
}

/// The imports, in order.
pub(crate) fn made_imports(alloc: Global, file: &FileTree) -> Result<Vec<Import>, AllocError>
    ensures { IfOk result (λ imports. map spec.file_import imports.items
        ≡ spec.made_imports file.now) }
{
    let mut imports = Vec::new(alloc);
    push_imports(alloc, &mut imports, &file.statements)?;
    push_imports(alloc, &mut imports, statements_behind(file))?;
    Ok(imports)
}

/// The mode that the word means.
fn mode_word(word: &Dotted) -> Option<OptionValue>
    ensures { option_map spec.option_value result ≡ spec.mode_word word.now }
{
    if is_word("SPEED", word) {
        Some(OptionValue::Mode(OptimizeMode::Speed))
    } else if is_word("CODE_SIZE", word) {
        Some(OptionValue::Mode(OptimizeMode::CodeSize))
    } else if is_word("LITE_RUNTIME", word) {
        Some(OptionValue::Mode(OptimizeMode::LiteRuntime))
    } else {
        None
    }
}

/// The value, where it is of the kind.
fn made_value(alloc: Global, kind: Kind, value: &Value) -> Result<Option<OptionValue>, AllocError>
    ensures { IfOk result (λ made. option_map spec.option_value made
        ≡ spec.made_value kind value.now) }
{
    match (kind, value) {
        (Kind::Flag, Value::Name(word)) => Ok(flag_word(word).map(OptionValue::Flag)),
        (Kind::Mode, Value::Name(word)) => Ok(mode_word(word)),
        (Kind::Text, Value::Text(text)) => Ok(Some(OptionValue::Text(text.joined(alloc)?))),
        _ => Ok(None),
    }
}

/// Appends the option that is stated.
fn push_option(
    alloc: Global,
    options: &mut Vec<FileOption>,
    setting: &Setting,
) -> Result<(), AllocError>
    ensures { OnOk result (map spec.file_option options.new.items
        ≡ map spec.file_option options.old.items ++ spec.setting_option setting.now) }
{
    let Some(known) = known_by(Owner::File, &setting.name) else {
        return Ok(());
    };
    match made_value(alloc, known.kind, &setting.value)? {
        Some(value) => options.push(FileOption {
            number: known.number,
            value,
        })?,
        None => {}
    }
    Ok(())
}

/// Appends the options of statements.
fn push_options(
    alloc: Global,
    options: &mut Vec<FileOption>,
    statements: &[Statement],
) -> Result<(), AllocError>
    ensures { OnOk result (map spec.file_option options.new.items
        ≡ map spec.file_option options.old.items ++ flat_map spec.option_in statements.now) }
{
    for statement in statements {
        if let Statement::Option(line) = statement {
            push_option(alloc, options, &line.setting)?;
        }
    }
    Ok(())
}

/// The options by their numbers.
fn by_number(mut options: Vec<FileOption>) -> Result<Vec<FileOption>, AllocError>
    ensures { IfOk result (λ sorted. spec.AreOptions
        (map spec.file_option options.items) sorted.items) }
{
    options.sort_by_key(|option| option.number)?;
    Ok(options)
}

/// The options, by their numbers.
pub(crate) fn made_options(alloc: Global, file: &FileTree) -> Result<Vec<FileOption>, AllocError>
    ensures { IfOk result (λ options. spec.AreOptions (spec.made_options file.now) options.items) }
{
    let mut options = Vec::new(alloc);
    push_options(alloc, &mut options, &file.statements)?;
    push_options(alloc, &mut options, statements_behind(file))?;
    by_number(options)
}
