//! Linked files.
mod asked;
mod options;
mod shown;

use asked::answer_of;
use kit_failing_source::FailingSource;
use kit_rows::{borrowed, cut, files_of, number_of, spelling};
use options::{Options, options_of};
use pg_link::{LinkError, Linked, Listed, link, link_below, place_in, read_file};
use shown::{linked_files, refusal};
use std::alloc::{AllocError, Global};

type Source<'a> = FailingSource<Listed<'a>>;

fn linked(alloc: Global, source: &mut Source, options: Options) -> Result<Linked, LinkError> {
    let roots: Vec<&str> = options.roots.split(' ').collect(alloc)?;
    match options.folder {
        "." => link(alloc, source, &roots),
        folder => link_below(alloc, source, folder, &roots),
    }
}

/// What is shown of linked files, or the refusal.
fn shown_links(
    alloc: Global,
    found: Result<Linked, LinkError>,
    options: Options,
) -> Result<String, AllocError> {
    match found {
        Ok(linked) if options.asked.is_empty() => linked_files(alloc, &linked, options.names),
        Ok(linked) => answer_of(alloc, &linked, options.asked),
        Err(error) => refusal(alloc, error),
    }
}

/// What a read of a file gives, or the refusal.
fn shown_read(alloc: Global, found: Result<Vec<u8>, LinkError>) -> Result<String, AllocError> {
    match found {
        Ok(bytes) => spelling(alloc, &bytes),
        Err(error) => refusal(alloc, error),
    }
}

fn of_reads(alloc: Global, source: &mut Source, options: Options) -> Result<String, AllocError> {
    let mut out = String::new(alloc);
    for path in options.reads.split(' ') {
        if !out.is_empty() {
            out.push_str(", ")?;
        }
        let found = read_file(alloc, source, options.folder, path);
        out.push_str(&shown_read(alloc, found)?)?;
    }
    Ok(out)
}

/// The line and the column of a byte of the first file.
fn of_place(alloc: Global, files: &[(&str, &[u8])], at: u32) -> Result<String, AllocError> {
    let Some((path, text)) = files.first() else {
        return String::from_str(alloc, "no file");
    };
    let place = place_in(alloc, path, text, at as usize)?;
    format!(in alloc; "{}:{}:{}", place.file, place.line, place.column)
}

fn of_files(
    alloc: Global,
    files: &[(&str, &[u8])],
    options: Options,
) -> Result<String, AllocError> {
    if let Some(offset) = options.asked.strip_prefix("at ") {
        return of_place(alloc, files, number_of(offset));
    }
    let mut source = FailingSource::new(Listed { files }, options.fails_at);
    if options.reads.is_empty() {
        let found = linked(alloc, &mut source, options);
        shown_links(alloc, found, options)
    } else {
        of_reads(alloc, &mut source, options)
    }
}

/// What is printed of the row.
pub fn answer(alloc: Global, input: &str) -> Result<String, AllocError> {
    let (files, options) = cut(input);
    let files = files_of(alloc, files)?;
    let files = borrowed(alloc, &files)?;
    let first_path = files.first().map_or("", |file| file.0);
    of_files(alloc, &files, options_of(first_path, options))
}
