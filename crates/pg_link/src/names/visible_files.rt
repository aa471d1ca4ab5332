//! Which files are visible in each file.
ghost use Rattle.std.specs.Prelude.{◌≡◌, ◌<◌, ◌∷◌, ◌++◌, [], ℕ, Some, List, IfOk, false, get_or, length, map, nat_eq, flat_map, slice_get, take, true, ◌||◌};
ghost use Rattle.std.specs.List.{All};
ghost use Rattle.pg_link.specs.names.Files.{Differ, InOrder, handed_on, import_paths, is_path_of, paths_of, public_paths};
ghost use Rattle.pg_link.specs.inner.Made.{line_of};
ghost use Rattle.pg_link.specs.inner.VisibleFiles as spec;
ghost use Rattle.pg_link.specs.walk.Walk.{Entry, outlines, path_of};

use crate::walk::SourceFile;
use crate::walk::imports::{ImportLine, imports_of};
use indexmap::IndexMap;
use std::alloc::{AllocError, Global};

/// Marks the files of these numbers.
fn mark_each(marks: &mut Vec<bool>, numbers: &[usize])
    requires { All (λ n. n < length marks.old.items) numbers.now }
    ensures same_length { length marks.new.items ≡ length marks.old.items }
    ensures both { (k : ℕ) → get_or marks.new.items k false
        ≡ (get_or marks.old.items k false || spec.is_numbered numbers.now k) }
{
    for number in numbers {
        marks[*number] = true;
    }
}

/// The numbers of the files that are marked.
fn numbers_of(alloc: Global, marks: &[bool]) -> Result<Vec<usize>, AllocError>
    ensures within { IfOk result (λ numbers. All (λ n. n < length marks.now) numbers.items) }
    ensures each { IfOk result (λ numbers. (k : ℕ) → k < length marks.now
        → spec.is_numbered numbers.items k ≡ get_or marks.now k false) }
{
    let mut numbers = Vec::new(alloc);
    for (number, mark) in marks.iter().enumerate() {
        if !*mark {
            continue;
        }
        numbers.push(number)?;
    }
    Ok(numbers)
}

/// A mark at this index, of so many.
fn one_mark(alloc: Global, count: usize, at: usize) -> Result<Vec<bool>, AllocError>
    requires { at < count }
    ensures same_length { IfOk result (λ marks. length marks.items ≡ count) }
    ensures one { IfOk result (λ marks. (k : ℕ) → get_or marks.items k false ≡ nat_eq k at) }
{
    let mut marks = vec![in alloc; false; count]?;
    marks[at] = true;
    Ok(marks)
}

/// The number of a file that is among the first `count`.
fn number_of(files: &IndexMap<String, SourceFile>, count: usize, path: &str) -> usize
    requires { is_path_of (paths_of (outlines (take count files.now.entries))) path.now ≡ true }
    ensures before { result < count }
    ensures file { (e : Entry) × (slice_get files.now.entries result ≡ Some e)
        × (path_of e ≡ path.now) }
{
    files.get_index_of(path).unwrap_or(0)
}

/// Marks what the file of this path hands on.
fn add_import(
    files: &IndexMap<String, SourceFile>,
    handed: &[Vec<usize>],
    marks: &mut Vec<bool>,
    path: &str,
)
    requires ready { spec.AreHanded files.now.entries (map (λ m. m.items) handed.now) }
    requires there { is_path_of (paths_of (outlines (take (length handed.now) files.now.entries)))
        path.now ≡ true }
    requires same_length { length marks.old.items ≡ length files.now.entries }
    ensures same_length { length marks.new.items ≡ length marks.old.items }
    ensures marked { (paths : List (List ℕ)) → spec.Marks files.now.entries paths marks.old.items
        → spec.Marks files.now.entries (paths ++ handed_on (outlines files.now.entries) path.now)
        marks.new.items }
{
    let other = &handed[number_of(files, handed.len(), path)];
    mark_each(marks, other);
}

/// Whether an import counts, where all or the public ones do.
fn is_taken(line: &ImportLine, all: bool) -> bool
    ensures { result ≡ (all || line.now.is_public) }
{
    all || line.is_public
}

/// Marks what an import hands on, where it counts.
fn add_line(
    files: &IndexMap<String, SourceFile>,
    handed: &[Vec<usize>],
    marks: &mut Vec<bool>,
    line: &ImportLine,
    all: bool,
)
    requires ready { spec.AreHanded files.now.entries (map (λ m. m.items) handed.now) }
    requires there { is_path_of (paths_of (outlines (take (length handed.now) files.now.entries)))
        (line_of line.now).path ≡ true }
    requires same_length { length marks.old.items ≡ length files.now.entries }
    ensures same_length { length marks.new.items ≡ length marks.old.items }
    ensures marked { (paths : List (List ℕ)) → spec.Marks files.now.entries paths marks.old.items
        → spec.Marks files.now.entries
        (paths ++ flat_map (handed_on (outlines files.now.entries))
        (spec.taken all (line_of line.now ∷ []))) marks.new.items }
{
    if !is_taken(line, all) {
        return;
    }
    add_import(files, handed, marks, line.path.as_str());
}

/// Marks what the imports hand on, all of them or the public ones.
fn add_imports(
    files: &IndexMap<String, SourceFile>,
    handed: &[Vec<usize>],
    marks: &mut Vec<bool>,
    lines: &[ImportLine],
    all: bool,
)
    requires ready { spec.AreHanded files.now.entries (map (λ m. m.items) handed.now) }
    requires there { All (λ l. is_path_of
        (paths_of (outlines (take (length handed.now) files.now.entries))) (line_of l).path ≡ true)
        lines.now }
    requires same_length { length marks.old.items ≡ length files.now.entries }
    ensures same_length { length marks.new.items ≡ length marks.old.items }
    ensures marked { (paths : List (List ℕ)) → spec.Marks files.now.entries paths marks.old.items
        → spec.Marks files.now.entries
        (paths ++ flat_map (handed_on (outlines files.now.entries))
        (spec.taken all (map line_of lines.now))) marks.new.items }
{
    for line in lines {
        add_line(files, handed, marks, line, all);
    }
}

/// What a file hands on, or what is visible in it: itself and what its public imports, or all,
/// hand on.
fn marks_of(
    alloc: Global,
    files: &IndexMap<String, SourceFile>,
    handed: &[Vec<usize>],
    lines: &[ImportLine],
    all: bool,
) -> Result<Vec<bool>, AllocError>
    requires ready { spec.AreHanded files.now.entries (map (λ m. m.items) handed.now) }
    requires within { length handed.now < length files.now.entries }
    requires apart { Differ (paths_of (outlines files.now.entries)) }
    requires there { All (λ l. is_path_of
        (paths_of (outlines (take (length handed.now) files.now.entries))) (line_of l).path ≡ true)
        lines.now }
    ensures { IfOk result (λ marks. (e : Entry)
        → slice_get files.now.entries (length handed.now) ≡ Some e
        → spec.IsMask files.now.entries
        (path_of e ∷ flat_map (handed_on (outlines files.now.entries))
        (spec.taken all (map line_of lines.now))) marks.items) }
{
    let mut marks = one_mark(alloc, files.len(), handed.len())?;
    add_imports(files, handed, &mut marks, lines, all);
    Ok(marks)
}

/// Whether one of the imports is public.
fn has_public(lines: &[ImportLine]) -> bool
    ensures { result ≡ false → public_paths (map line_of lines.now) ≡ [] }
{
    for line in lines {
        if line.is_public {
            return true;
        }
    }
    false
}

/// The numbers of the files that a file hands on: itself and what its public imports hand on. Most
/// files hand on themselves alone, so these are few.
fn handed_of(
    alloc: Global,
    files: &IndexMap<String, SourceFile>,
    handed: &[Vec<usize>],
    lines: &[ImportLine],
) -> Result<Vec<usize>, AllocError>
    requires ready { spec.AreHanded files.now.entries (map (λ m. m.items) handed.now) }
    requires within { length handed.now < length files.now.entries }
    requires apart { Differ (paths_of (outlines files.now.entries)) }
    requires there { All (λ l. is_path_of
        (paths_of (outlines (take (length handed.now) files.now.entries))) (line_of l).path ≡ true)
        lines.now }
    ensures { IfOk result (λ numbers. (e : Entry)
        → slice_get files.now.entries (length handed.now) ≡ Some e
        → spec.AreNumbers files.now.entries
        (path_of e ∷ flat_map (handed_on (outlines files.now.entries))
        (spec.taken false (map line_of lines.now))) numbers.items) }
{
    if !has_public(lines) {
        let own = vec![in alloc; handed.len()]?;
        return Ok(own);
    }
    let marks = marks_of(alloc, files, handed, lines, false)?;
    let numbers = numbers_of(alloc, &marks)?;
    Ok(numbers)
}

/// For each file, by its number, which files are visible: itself, its imports, and onwards by
/// `import public`. `files` come after those that they import.
pub(crate) fn visible_files_of(
    alloc: Global,
    files: &IndexMap<String, SourceFile>,
) -> Result<Vec<Vec<bool>>, AllocError>
    requires in_order { InOrder (outlines files.now.entries) }
    requires apart { Differ (paths_of (outlines files.now.entries)) }
    ensures same_length { IfOk result
        (λ visible_files. length visible_files.items ≡ length files.now.entries) }
    ensures visible_files { IfOk result
        (λ visible_files. spec.AreVisibleFiles files.now.entries
        (map (λ m. m.items) visible_files.items)) }
{
    let mut handed = Vec::new(alloc);
    let mut visible_files = Vec::new(alloc);
    for number in 0..files.len() {
        let Some((_, file)) = files.get_index(number) else {
            continue;
        };
        let lines = imports_of(alloc, &file.tree)?;
        let seen = marks_of(alloc, files, &handed, &lines, true)?;
        let onwards = handed_of(alloc, files, &handed, &lines)?;
        visible_files.push(seen)?;
        handed.push(onwards)?;
    }
    Ok(visible_files)
}
