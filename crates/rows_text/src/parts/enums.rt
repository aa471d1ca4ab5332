//! Pieces of enums.
use pg_schema::{EnumOptions, EnumType, EnumValue, EnumValueOptions, ReservedValues};
use std::alloc::{AllocError, Global};

/// An enum of that name, with nothing in it.
pub fn enum_type(alloc: Global, name: &str) -> Result<EnumType, AllocError> {
    Ok(EnumType {
        name: String::from_str(alloc, name)?,
        values: Vec::new(alloc),
        reserved_numbers: Vec::new(alloc),
        reserved_names: Vec::new(alloc),
        options: EnumOptions {
            allow_alias: None,
            deprecated: None,
        },
    })
}

fn number_of(word: &str) -> i32 {
    word.parse::<i32>().unwrap_or(0)
}

fn value_of(alloc: Global, words: &str) -> Result<EnumValue, AllocError> {
    let (name, number) = words.split_once(' ').unwrap_or((words, ""));
    Ok(EnumValue {
        name: String::from_str(alloc, name)?,
        number: number_of(number),
        options: EnumValueOptions { deprecated: None },
    })
}

fn range_of(words: &str) -> ReservedValues {
    let (first, last) = words.split_once(' ').unwrap_or((words, ""));
    ReservedValues {
        first: number_of(first),
        last: number_of(last),
    }
}

/// Adds the piece, where it is one of an enum.
pub fn add_to_enum(
    alloc: Global,
    made: &mut EnumType,
    piece: &str,
    words: &str,
) -> Result<(), AllocError> {
    match piece {
        "value" => made.values.push(value_of(alloc, words)?)?,
        "range" => made.reserved_numbers.push(range_of(words))?,
        "alias" => made.options.allow_alias = Some(words == "true"),
        _ => {}
    }
    Ok(())
}
