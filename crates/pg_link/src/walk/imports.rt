//! The import statements of a file.
ghost use Rattle.std.specs.Prelude.{◌≡◌, IfOk, OnOk, ◌++◌, map, flat_map};
ghost use Rattle.pg_link.specs.names.Outline.{imports_in, file_imports};
ghost use Rattle.pg_link.specs.inner.Made.{line_of};

use pg_syntax::tree::{FileTree, Statement};
use std::alloc::{AllocError, Global};

/// An import statement, with the offset of its literal.
#[derive(Drop)]
pub(crate) struct ImportLine {
    pub path: String,
    pub is_public: bool,
    pub at: usize,
}

/// Appends a statement to the lines, where it is an import.
fn add_import(
    alloc: Global,
    lines: &mut Vec<ImportLine>,
    statement: &Statement,
) -> Result<(), AllocError>
    ensures { OnOk result (map line_of lines.new.items ≡ map line_of lines.old.items
        ++ imports_in statement.now) }
{
    match statement {
        Statement::Import(import) => {
            let path = import.path.joined(alloc)?;
            let at = import.path.span.from;
            lines.push(ImportLine {
                path,
                is_public: import.is_public,
                at,
            })?;
            Ok(())
        }
        Statement::Empty(_)
        | Statement::Option(_)
        | Statement::Message(_)
        | Statement::Enum(_)
        | Statement::Service(_) => Ok(()),
    }
}

/// Appends the imports among the statements to the lines.
fn add_imports(
    alloc: Global,
    lines: &mut Vec<ImportLine>,
    statements: &[Statement],
) -> Result<(), AllocError>
    ensures { OnOk result (map line_of lines.new.items ≡ map line_of lines.old.items
        ++ flat_map imports_in statements.now) }
{
    for statement in statements {
        add_import(alloc, lines, statement)?;
    }
    Ok(())
}

/// The imports of a file, in its order.
pub(crate) fn imports_of(alloc: Global, file: &FileTree) -> Result<Vec<ImportLine>, AllocError>
    ensures { IfOk result (λ lines. map line_of lines.items ≡ file_imports file.now) }
{
    let mut lines = Vec::new(alloc);
    add_imports(alloc, &mut lines, &file.statements)?;
    if let Some(packaged) = &file.packaged {
        add_imports(alloc, &mut lines, &packaged.statements)?;
    }
    Ok(lines)
}
