//! Reading files below a folder.

ghost use Rattle.std.specs.Prelude.{◌≡◌, ◌∷◌, [], IfOk, IsErrOf, IsTrue, OnOk, string_bytes};
ghost use Rattle.pg_link.specs.walk.FolderPath.{path_below};
ghost use Rattle.pg_link.specs.walk.Reads.{Reads};
ghost use Rattle.pg_link.specs.Sources.{also, AtMostOne, failures_in};

use crate::{SourceError, Sources};
use std::alloc::{AllocError, Global};

/// The path in the folder, or the path itself where the folder is `.`.
fn path_below(alloc: Global, folder: &str, path: &str) -> Result<String, AllocError>
    ensures { IfOk result (λ full. string_bytes full ≡ path_below folder.now path.now) }
{
    if folder == "." {
        String::from_str(alloc, path)
    } else {
        format!(in alloc; "{folder}/{path}")
    }
}

/// Reads `FOLDER/PATH`, or `PATH` where the folder is `.`.
pub(crate) fn read_below<S: Sources>(
    alloc: Global,
    source: &mut S,
    folder: &str,
    path: &str,
) -> Result<Vec<u8>, SourceError>
    ensures given { IfOk result (λ bytes.
        IsTrue (S.may_give source.old (path_below folder.now path.now) bytes.items)) }
    ensures lacked { IsErrOf result SourceError.Missing
        → IsTrue (S.may_lack source.old (path_below folder.now path.now)) }
    ensures asked { OnOk result (S.reads source.new
        ≡ also (path_below folder.now path.now ∷ []) (S.reads source.old)) }
    ensures asked_once { AtMostOne (path_below folder.now path.now) (S.reads source.old)
        (S.reads source.new) }
    ensures reads { Reads S.Sources source.old source.new (failures_in result) }
{
    let full = path_below(alloc, folder, path)?;
    source.read(alloc, full.as_str())
}
