//! Pieces of a file, and services.
use kit_rows::number_of;
use pg_schema::{
    EnumId, File, FileOption, Import, OptimizeMode, OptionValue, Service, ServiceId,
    ServiceOptions, TypeId,
};
use std::alloc::{AllocError, Global};

/// A file with nothing in it.
pub fn file(alloc: Global) -> Result<File, AllocError> {
    Ok(File {
        name: String::from_str(alloc, "m.proto")?,
        package: String::new(alloc),
        imports: Vec::new(alloc),
        types: Vec::new(alloc),
        enums: Vec::new(alloc),
        services: Vec::new(alloc),
        options: Vec::new(alloc),
    })
}

/// A service of that name, with nothing in it.
pub fn service(alloc: Global, name: &str) -> Result<Service, AllocError> {
    Ok(Service {
        name: String::from_str(alloc, name)?,
        methods: Vec::new(alloc),
        options: ServiceOptions { deprecated: None },
    })
}

fn import(alloc: Global, path: &str) -> Result<Import, AllocError> {
    Ok(Import {
        path: String::from_str(alloc, path)?,
        is_public: true,
    })
}

/// Adds an option of the file.
fn set_option(file: &mut File, number: u32, value: OptionValue) -> Result<(), AllocError> {
    file.options.push(FileOption { number, value })?;
    Ok(())
}

/// Adds the piece, where it is one of a file.
pub fn add_to_file(
    alloc: Global,
    file: &mut File,
    piece: &str,
    words: &str,
) -> Result<(), AllocError> {
    match piece {
        "package" => file.package = String::from_str(alloc, words)?,
        "import" => file.imports.push(import(alloc, words)?)?,
        "mode" => set_option(file, 9, OptionValue::Mode(OptimizeMode::CodeSize))?,
        "option" => set_option(file, number_of(words), OptionValue::Flag(true))?,
        "top" => file.types.push(TypeId {
            index: number_of(words),
        })?,
        "top_enum" => file.enums.push(EnumId {
            index: number_of(words) as usize,
        })?,
        "top_service" => file.services.push(ServiceId {
            index: number_of(words) as usize,
        })?,
        _ => {}
    }
    Ok(())
}
