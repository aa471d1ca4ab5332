//! The first lines of a written certificate.

ghost use Rattle.std.specs.Prelude.{◌≡◌};
ghost use Rattle.pg_cert.specs.Text.{view_of};

use pg_dyn::ViewName;

/// The lines that say a certificate's version and its view.
#[derive(Clone, Copy, Debug)]
pub(crate) enum Heading {
    /// The lines of version 1, which means the view by numbers.
    First,
    /// The lines of version 2, which name the view.
    Second(ViewName),
}

impl Heading {
    /// The view that the lines name or mean.
    pub(crate) fn view(self) -> ViewName
        ensures { result ≡ view_of self }
    {
        match self {
            Heading::First => ViewName::Numbers,
            Heading::Second(view) => view,
        }
    }
}
