//! Options as a schema has them: as stated, the first of a name.

ghost use Rattle.std.specs.Prelude.{◌≡◌};
ghost use Rattle.pg_check.specs.parts.MadeOptions as spec;
ghost use Rattle.pg_check.specs.rules.Members as members;

use crate::rules::options::is_word;
use pg_syntax::tree::{Dotted, Setting, Settings, Value};

/// What the word says.
pub(crate) fn flag_word(word: &Dotted) -> Option<bool>
    ensures { result ≡ spec.flag_word word.now }
{
    if is_word("true", word) {
        Some(true)
    } else if is_word("false", word) {
        Some(false)
    } else {
        None
    }
}

/// What the setting says of the option of this name.
pub(crate) fn flag_in(name: &str, setting: &Setting) -> Option<bool>
    ensures { result ≡ spec.flag_in name.now setting.now }
{
    if !is_word(name, &setting.name) {
        return None;
    }
    match &setting.value {
        Value::Name(word) => flag_word(word),
        Value::Text(_) => None,
        Value::Number(_) => None,
    }
}

/// What the first of the settings says that says anything.
fn flag_of(name: &str, settings: &[Setting]) -> Option<bool>
    ensures { result ≡ spec.flag_of name.now settings.now }
{
    for setting in settings {
        let flag = flag_in(name, setting);
        if flag.is_some() {
            return flag;
        }
    }
    None
}

/// What the options in brackets say of the option of this name.
pub(crate) fn bracket_flag(name: &str, settings: &Option<Settings>) -> Option<bool>
    ensures { result ≡ spec.flag_of name.now (members.settings settings.now) }
{
    match settings {
        Some(settings) => {
            let first = flag_in(name, &settings.first);
            if first.is_some() {
                first
            } else {
                flag_of(name, &settings.more)
            }
        }
        None => None,
    }
}
