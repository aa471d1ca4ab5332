//! The options that may follow the files of a row, each with ` | ` in front.
use kit_rows::number_of;

#[derive(Clone, Copy)]
pub struct Options<'a> {
    /// `from ROOT ROOT ..`: the roots, else the first file.
    pub roots: &'a str,
    /// `below FOLDER`: the folder, else `.`.
    pub folder: &'a str,
    /// `fails READ`: the source fails at its read of that number, counted from 1.
    pub fails_at: u32,
    /// `names NAME NAME ..`: the full names whose positions are printed too.
    pub names: &'a str,
    /// `read PATH PATH ..`: the files that are read in turn and printed, where none is linked.
    pub reads: &'a str,
    /// `targets`, `resolve WORD WORD ..` or `at OFFSET`: what else the files are asked
    /// (`links::asked`).
    pub asked: &'a str,
}

/// The options with one more.
fn with_option<'a>(options: Options<'a>, spelled: &'a str) -> Options<'a> {
    let (word, value) = spelled.split_once(' ').unwrap_or((spelled, ""));
    let mut options = options;
    match word {
        "from" => options.roots = value,
        "below" => options.folder = value,
        "fails" => options.fails_at = number_of(value),
        "names" => options.names = value,
        "read" => options.reads = value,
        _ => options.asked = spelled,
    }
    options
}

/// The options that are spelled, of files of which this is the first.
pub fn options_of<'a>(first_path: &'a str, spelled: &'a str) -> Options<'a> {
    let mut options = Options {
        roots: first_path,
        folder: ".",
        fails_at: 0,
        names: "",
        reads: "",
        asked: "",
    };
    if !spelled.is_empty() {
        for option in spelled.split(" | ") {
            options = with_option(options, option);
        }
    }
    options
}
