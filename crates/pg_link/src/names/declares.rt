//! The names that a file declares.
ghost use Rattle.std.specs.Prelude.{◌≡◌, IfOk, OnOk, ◌++◌, ◌∷◌, [], map, flat_map, string_bytes};
ghost use Rattle.pg_link.specs.declared.names.Kind.TheVariants as kinds;
ghost use Rattle.pg_link.specs.names.Declares as spec;
ghost use Rattle.pg_link.specs.names.Outline as outline;
ghost use Rattle.pg_link.specs.inner.Made as made;

use crate::names::Kind;
use crate::names::index::push_word;
use pg_schema::entry_name;
use pg_syntax::tree::{
    Dotted, Enum, EnumPart, FileTree, MapField, Message, Name, Oneof, OneofPart, Part, Service,
    ServicePart, Statement,
};
use std::alloc::{AllocError, Global};

/// A name that a file declares, in full and with a dot in front, and the first byte of the word
/// that declares it.
#[derive(Debug, Drop)]
pub(crate) struct DeclaredName {
    pub name: String,
    pub kind: Kind,
    pub at: usize,
}

/// The full name of a word in a scope, which is given by its own full name.
fn within(alloc: Global, scope: &str, word: &str) -> Result<String, AllocError>
    ensures { IfOk result (λ name. string_bytes name ≡ spec.within scope.now word.now) }
{
    let room = scope.len().saturating_add(word.len()).saturating_add(1);
    let mut name = String::with_capacity(alloc, room)?;
    name.push_str(scope)?;
    push_word(&mut name, word)?;
    Ok(name)
}

/// The names that are gathered, in the order of the words that declare them.
#[derive(Drop)]
struct NameList {
    alloc: Global,
    names: Vec<DeclaredName>,
}

impl NameList {
    /// Appends a name.
    fn declare(&mut self, scope: &str, kind: Kind, name: &Name) -> Result<(), AllocError>
        ensures { OnOk result (made.AddsNames self.old.names.items self.new.names.items
            (spec.declared scope.now kind (outline.word name.now) ∷ [])) }
    {
        let at = name.span.from;
        let name = within(self.alloc, scope, name.text.as_str())?;
        self.names.push(DeclaredName { name, kind, at })?;
        Ok(())
    }

    /// Appends the names that an enum's part declares.
    fn add_enum_part(&mut self, scope: &str, part: &EnumPart) -> Result<(), AllocError>
        ensures { OnOk result (made.AddsNames self.old.names.items self.new.names.items
            (spec.names_in scope.now (outline.of_enum_part part.now spec.Done))) }
    {
        match part {
            EnumPart::Value(value) => self.declare(scope, Kind::Value, &value.name),
            EnumPart::Empty(_) | EnumPart::Option(_) | EnumPart::Reserved(_) => Ok(()),
        }
    }

    /// Appends the names that the parts of an enum declare.
    fn add_enum_parts(&mut self, scope: &str, parts: &[EnumPart]) -> Result<(), AllocError>
        ensures { OnOk result (made.AddsNames self.old.names.items self.new.names.items
            (spec.names_in scope.now (outline.all_of outline.of_enum_part parts.now spec.Done))) }
    {
        for part in parts {
            self.add_enum_part(scope, part)?;
        }
        Ok(())
    }

    /// Appends the names that an enum declares. Its values are next to it.
    fn add_enum(&mut self, scope: &str, enumeration: &Enum) -> Result<(), AllocError>
        ensures { OnOk result (made.AddsNames self.old.names.items self.new.names.items
            (spec.names_in scope.now (outline.of_enum enumeration.now spec.Done))) }
    {
        self.declare(scope, Kind::Enum, &enumeration.name)?;
        self.add_enum_parts(scope, &enumeration.parts)
    }

    /// Appends a map field and the type of its entries.
    fn add_map(&mut self, scope: &str, field: &MapField) -> Result<(), AllocError>
        ensures { OnOk result (made.AddsNames self.old.names.items self.new.names.items
            (spec.names_in scope.now (spec.MapField (outline.word field.now.name) spec.Done))) }
    {
        self.declare(scope, Kind::Field, &field.name)?;
        let entry = entry_name(self.alloc, field.name.text.as_str())?;
        let name = within(self.alloc, scope, entry.as_str())?;
        let at = field.name.span.from;
        self.names.push(DeclaredName {
            name,
            kind: Kind::Entry,
            at,
        })?;
        Ok(())
    }

    /// Appends the names that a part of a oneof declares.
    fn add_oneof_part(&mut self, scope: &str, part: &OneofPart) -> Result<(), AllocError>
        ensures { OnOk result (made.AddsNames self.old.names.items self.new.names.items
            (spec.names_in scope.now (outline.of_oneof_part part.now spec.Done))) }
    {
        match part {
            OneofPart::Field(field) => self.declare(scope, Kind::Field, &field.name),
            OneofPart::Map(map) => self.add_map(scope, map),
            OneofPart::Empty(_) | OneofPart::Option(_) => Ok(()),
        }
    }

    /// Appends the names that the parts of a oneof declare.
    fn add_oneof_parts(&mut self, scope: &str, parts: &[OneofPart]) -> Result<(), AllocError>
        ensures { OnOk result (made.AddsNames self.old.names.items self.new.names.items
            (spec.names_in scope.now (outline.all_of outline.of_oneof_part parts.now spec.Done))) }
    {
        for part in parts {
            self.add_oneof_part(scope, part)?;
        }
        Ok(())
    }

    /// Appends the names that a oneof declares. Its members are next to it.
    fn add_oneof(&mut self, scope: &str, oneof: &Oneof) -> Result<(), AllocError>
        ensures { OnOk result (made.AddsNames self.old.names.items self.new.names.items
            (spec.names_in scope.now (outline.of_oneof oneof.now spec.Done))) }
    {
        self.declare(scope, Kind::Oneof, &oneof.name)?;
        self.add_oneof_parts(scope, &oneof.parts)
    }

    /// Appends the names that a part of a service declares.
    fn add_service_part(&mut self, scope: &str, part: &ServicePart) -> Result<(), AllocError>
        ensures { OnOk result (made.AddsNames self.old.names.items self.new.names.items
            (spec.names_in scope.now (outline.of_service_part part.now spec.Done))) }
    {
        match part {
            ServicePart::Rpc(rpc) => self.declare(scope, Kind::Method, &rpc.name),
            ServicePart::Empty(_) | ServicePart::Option(_) => Ok(()),
        }
    }

    /// Appends the names that the parts of a service declare.
    fn add_service_parts(&mut self, scope: &str, parts: &[ServicePart]) -> Result<(), AllocError>
        ensures { OnOk result (made.AddsNames self.old.names.items self.new.names.items
            (spec.names_in scope.now
            (outline.all_of outline.of_service_part parts.now spec.Done))) }
    {
        for part in parts {
            self.add_service_part(scope, part)?;
        }
        Ok(())
    }

    /// Appends the names that a service declares. Its methods are in it.
    fn add_service(&mut self, scope: &str, service: &Service) -> Result<(), AllocError>
        ensures { OnOk result (made.AddsNames self.old.names.items self.new.names.items
            (spec.names_in scope.now (outline.of_service service.now spec.Done))) }
    {
        self.declare(scope, Kind::Service, &service.name)?;
        let inner = within(self.alloc, scope, service.name.text.as_str())?;
        self.add_service_parts(inner.as_str(), &service.parts)
    }

    /// Appends the names that a part of a message declares.
    #[cycle(messages)]
    fn add_part(&mut self, scope: &str, part: &Part) -> Result<(), AllocError>
        ensures { OnOk result (made.AddsNames self.old.names.items self.new.names.items
            (spec.names_in scope.now (outline.of_part part.now spec.Done))) }
    {
        match part {
            Part::Message(message) => {
                self.add_message(scope, message)?;
                Ok(())
            }
            Part::Enum(enumeration) => self.add_enum(scope, enumeration),
            Part::Oneof(oneof) => self.add_oneof(scope, oneof),
            Part::Map(map) => self.add_map(scope, map),
            Part::Field(field) => self.declare(scope, Kind::Field, &field.name),
            Part::Empty(_) | Part::Option(_) | Part::Reserved(_) => Ok(()),
        }
    }

    /// Appends the names that the parts of a message declare.
    #[cycle(messages)]
    fn add_parts(&mut self, scope: &str, parts: &[Part]) -> Result<(), AllocError>
        ensures { OnOk result (made.AddsNames self.old.names.items self.new.names.items
            (spec.names_in scope.now (outline.all_of outline.of_part parts.now spec.Done))) }
    {
        for part in parts {
            self.add_part(scope, part)?;
        }
        Ok(())
    }

    /// Appends the names that a message declares. Its parts are in it.
    #[cycle(messages)]
    fn add_message(&mut self, scope: &str, message: &Message) -> Result<(), AllocError>
        ensures { OnOk result (made.AddsNames self.old.names.items self.new.names.items
            (spec.names_in scope.now (outline.of_message message.now spec.Done))) }
    {
        self.declare(scope, Kind::Message, &message.name)?;
        let inner = within(self.alloc, scope, message.name.text.as_str())?;
        self.add_parts(inner.as_str(), &message.parts)
    }

    /// Appends the names that a statement declares.
    fn add_statement(&mut self, scope: &str, statement: &Statement) -> Result<(), AllocError>
        ensures { OnOk result (made.AddsNames self.old.names.items self.new.names.items
            (spec.names_in scope.now (outline.of_statement statement.now spec.Done))) }
    {
        match statement {
            Statement::Message(message) => self.add_message(scope, message),
            Statement::Enum(enumeration) => self.add_enum(scope, enumeration),
            Statement::Service(service) => self.add_service(scope, service),
            Statement::Empty(_) | Statement::Import(_) | Statement::Option(_) => Ok(()),
        }
    }

    /// Appends the names that statements declare.
    fn add_statements(&mut self, scope: &str, statements: &[Statement]) -> Result<(), AllocError>
        ensures { OnOk result (made.AddsNames self.old.names.items self.new.names.items
            (spec.names_in scope.now
            (outline.all_of outline.of_statement statements.now spec.Done))) }
    {
        for statement in statements {
            self.add_statement(scope, statement)?;
        }
        Ok(())
    }

    /// Appends the name of a part of a package, and goes into its scope.
    fn add_package_part(&mut self, scope: &mut String, word: &Name) -> Result<(), AllocError>
        ensures declared { OnOk result (made.AddsNames self.old.names.items self.new.names.items
            (spec.declared (string_bytes scope.old) kinds.Package (outline.word word.now) ∷ [])) }
        ensures inner { OnOk result (string_bytes scope.new
            ≡ spec.within (string_bytes scope.old) (string_bytes word.now.text)) }
    {
        self.declare(scope.as_str(), Kind::Package, word)?;
        push_word(scope, word.text.as_str())
    }

    /// Appends the names of the parts of a package.
    fn add_package(&mut self, dotted: &Dotted) -> Result<(), AllocError>
        ensures { OnOk result (made.AddsNames self.old.names.items self.new.names.items
            (spec.package_names [] (outline.dotted_words dotted.now))) }
    {
        let mut scope = String::new(self.alloc);
        self.add_package_part(&mut scope, &dotted.first)?;
        for word in &dotted.more {
            self.add_package_part(&mut scope, word)?;
        }
        Ok(())
    }
}

/// The scope in a package.
fn package_scope(alloc: Global, dotted: &Dotted) -> Result<String, AllocError>
    ensures { IfOk result (λ scope. string_bytes scope
        ≡ spec.package_scope (outline.dotted_words dotted.now)) }
{
    let mut scope = String::new(alloc);
    push_word(&mut scope, dotted.first.text.as_str())?;
    for word in &dotted.more {
        push_word(&mut scope, word.text.as_str())?;
    }
    Ok(scope)
}

/// The names that a file declares, in the order of the words that declare them.
pub(crate) fn declared_names(
    alloc: Global,
    file: &FileTree,
) -> Result<Vec<DeclaredName>, AllocError>
    ensures { IfOk result (λ names. map made.declared_of names.items
        ≡ outline.file_names file.now) }
{
    let mut list = NameList {
        alloc,
        names: Vec::new(alloc),
    };
    let Some(packaged) = &file.packaged else {
        list.add_statements("", &file.statements)?;
        return Ok(list.names);
    };
    let scope = package_scope(alloc, &packaged.package.name)?;
    list.add_statements(scope.as_str(), &file.statements)?;
    list.add_package(&packaged.package.name)?;
    list.add_statements(scope.as_str(), &packaged.statements)?;
    Ok(list.names)
}
