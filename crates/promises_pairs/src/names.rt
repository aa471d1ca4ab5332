//! The promises of views, and of the view by names.

ghost use Rattle.std.specs.Prelude.{◌≡◌};
ghost use Rattle.pg_dyn.specs.declared.view_name.ViewName.TheVariants as views;
ghost use Rattle.pg_dyn.specs.views.ViewNames.{alike_under, named_numbers, same_names};
ghost use Rattle.pg_pairs.specs.views.NamedView as by_name;
ghost use Rattle.pg_pairs.specs.views.NamedView.{least_under};
ghost use Rattle.pg_pairs.specs.views.ViewLaws.{IsLeastOf};

use pg_dyn::ViewName;
use pg_pairs::{Names, View};
use pg_schema::EnumType;

/// The name of the view `Names`.
pub fn name_of_names() -> ViewName
    ensures { result ≡ views.Names }
{
    Names.name()
}

/// The name of any view.
pub fn name<V: View>(view: &V) -> ViewName
    ensures { result ≡ V.name_of view.now }
{
    view.name()
}

/// Whether a number is alike by any view: as the view of its name finds.
pub fn alike_as_named<V: View>(view: &V, old: &EnumType, new: &EnumType, number: i32) -> bool
    ensures { result ≡ alike_under (V.name_of view.now) old.now new.now number }
{
    view.alike(old, new, number)
}

/// The least of the shortest numbers that aren't alike by any view: as under its name.
pub fn least_as_named<V: View>(view: &V, old: &EnumType, new: &EnumType, zero: bool) -> Option<i32>
    ensures equal { result ≡ least_under (V.name_of view.now) old.now new.now zero }
    ensures shortest { IsLeastOf (alike_under (V.name_of view.now) old.now new.now) zero result }
{
    view.least(old, new, zero)
}

/// Whether a number is alike by `Names`: it isn't declared on both sides, or has the same names.
pub fn alike_by_name(old: &EnumType, new: &EnumType, number: i32) -> bool
    ensures { result ≡ same_names (named_numbers old.now) (named_numbers new.now) number }
{
    Names.alike(old, new, number)
}

/// The least of the shortest numbers that aren't alike by `Names`.
pub fn least_by_name(old: &EnumType, new: &EnumType, zero: bool) -> Option<i32>
    ensures { result ≡ by_name.least_by_name old.now new.now zero }
{
    Names.least(old, new, zero)
}
