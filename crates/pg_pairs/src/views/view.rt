//! Views: which numbers of an old enum are the same item in a new one.

ghost use Rattle.std.specs.Prelude.{◌≡◌};
ghost use Rattle.pg_dyn.specs.declared.view_name.ViewName.{ViewName};
ghost use Rattle.pg_dyn.specs.views.ViewNames.{alike_under};
ghost use Rattle.pg_pairs.specs.views.NamedView.{least_under};
ghost use Rattle.pg_pairs.specs.views.ViewLaws.{IsLeastOf};

use pg_dyn::ViewName;
use pg_schema::EnumType;

/// How the numbers of an old enum are compared with those of a new one: as the view of a name does.
pub trait View {
    ghost name_of: { Self → ViewName };

    /// The name of the view.
    fn name(&self) -> ViewName
        ensures { result ≡ name_of self.now };

    /// Whether the number is the same item in both enums.
    fn alike(&self, old: &EnumType, new: &EnumType, number: i32) -> bool
        ensures { result ≡ alike_under (name_of self.now) old.now new.now number };

    /// Of the numbers from -2,147,483,648 to 2,147,483,647 that aren't alike, without 0 where
    /// `zero` is false, one with the shortest body, and of these the least number; `None` only
    /// where there is no such number.
    fn least(&self, old: &EnumType, new: &EnumType, zero: bool) -> Option<i32>
        ensures equal { result ≡ least_under (name_of self.now) old.now new.now zero }
        ensures shortest { IsLeastOf (alike_under (name_of self.now) old.now new.now) zero result };
}

/// The view that finds every number alike.
#[derive(Clone, Copy, Debug)]
pub struct Numbers;

impl View for Numbers {
    ghost use Rattle.pg_dyn.specs.declared.view_name.ViewName.TheVariants as views;

    ghost name_of = { λ _. views.Numbers };

    fn name(&self) -> ViewName {
        ViewName::Numbers
    }

    fn alike(&self, _old: &EnumType, _new: &EnumType, _number: i32) -> bool {
        true
    }

    fn least(&self, _old: &EnumType, _new: &EnumType, _zero: bool) -> Option<i32> {
        None
    }
}
