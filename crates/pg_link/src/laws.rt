//! Laws about the definitions. Each is the contract of a function that does nothing.

ghost use Rattle.pg_link.specs.names.Files.{SeenPathsAreSeen};
ghost use Rattle.pg_link.specs.SmallFiles.{SmallFiles};
ghost use Rattle.pg_link.specs.names.Standing.{NoneTwiceIsOnce};

/// No name is declared twice, as names are looked at one by one, exactly where of any two that
/// are one both are parts of packages.
pub fn none_twice_is_once_per_name()
    ensures { NoneTwiceIsOnce }
{}

/// What names name on small files, which names small files declare and which they may not, and what
/// map entries are called.
pub fn small_files()
    ensures { SmallFiles }
{}

/// Of files of which each is before those that it imports, the paths that are computed are
/// those that are visible in a file.
pub fn seen_paths_are_seen()
    ensures { SeenPathsAreSeen }
{}
