//! What holds of each file and service, taken by itself.

ghost use Rattle.std.specs.Prelude.{◌≡◌, ◌∷◌};
ghost use Rattle.std.specs.List.{list_all};
ghost use Rattle.pg_schema.specs.rules.Files.{is_file, is_file_option, is_method, is_of_kind, is_service, option_numbers};
ghost use Rattle.pg_schema.specs.rules.Pairs.{is_rising};

use crate::parts::file::File;
use crate::parts::options::{FileOption, OptionValue};
use crate::parts::service::{Method, Service};
use crate::rules::words::{is_package, is_word};

/// The option of that number is in the table of a file's options, and takes such a value.
fn is_of_kind(number: u32, value: &OptionValue) -> bool
    ensures { result ≡ is_of_kind number value.now }
{
    match value {
        OptionValue::Flag(_) => matches!(number, 10 | 23 | 31),
        OptionValue::Mode(_) => number == 9,
        OptionValue::Text(_) => matches!(number, 1 | 8 | 11 | 36 | 37 | 39 | 40 | 41 | 45),
    }
}

/// Each option takes a value of its kind.
fn are_file_options(options: &[FileOption]) -> bool
    ensures { result ≡ list_all is_file_option options.now }
{
    for option in options {
        if !is_of_kind(option.number, &option.value) {
            return false;
        }
    }
    true
}

/// The options come by rising number.
fn are_in_order(options: &[FileOption]) -> bool
    ensures { result ≡ is_rising (0 ∷ option_numbers options.now) }
{
    let mut below = 0;
    for option in options {
        if option.number <= below {
            return false;
        }
        below = option.number;
    }
    true
}

/// The methods' names are words, and their types are of so many message types.
fn are_methods(methods: &[Method], types: usize) -> bool
    ensures { result ≡ list_all (is_method types) methods.now }
{
    for method in methods {
        let is_known = (method.input.index as usize) < types
            && (method.output.index as usize) < types;
        if !is_word(method.name.as_bytes()) || !is_known {
            return false;
        }
    }
    true
}

/// Each service has such methods.
pub(crate) fn are_services(services: &[Service], types: usize) -> bool
    ensures { result ≡ list_all (is_service types) services.now }
{
    for service in services {
        if !are_methods(&service.methods, types) {
            return false;
        }
    }
    true
}

/// Each file has a package of words, or none, and options of their kinds by rising number.
pub(crate) fn are_files(files: &[File]) -> bool
    ensures { result ≡ list_all is_file files.now }
{
    for file in files {
        if !is_package(file.package.as_bytes())
            || !are_in_order(&file.options)
            || !are_file_options(&file.options)
        {
            return false;
        }
    }
    true
}
