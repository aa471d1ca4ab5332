//! The type names that a file uses.
ghost use Rattle.std.specs.Prelude.{◌≡◌, ◌++◌, ◌∷◌, [], IfOk, OnOk, map, flat_map, false, true};
ghost use Rattle.pg_link.specs.names.Names.{texts};
ghost use Rattle.pg_link.specs.names.Outline as outline;
ghost use Rattle.pg_link.specs.names.Resolves.{reference};
ghost use Rattle.pg_link.specs.inner.Made.{AddsUses, use_of};
ghost use Rattle.pg_link.specs.uses.Uses as spec;

pub(crate) mod found_scope;
pub(crate) mod target;
pub(crate) mod targets;

use pg_schema::Scalar;
use pg_syntax::tree::{
    Dotted, FileTree, MapField, Message, Oneof, OneofPart, Part, Rpc, Service, ServicePart,
    Statement, TypeName,
};
use std::alloc::{AllocError, Global};
use std::rc::Rc;

/// The words of a scope, which the uses in it share.
type Scope<'a> = Rc<Vec<&'a str>>;

/// A type name that is used, with the words of its scope, which the uses in one scope share, and
/// whether it may name an enum.
#[derive(Drop)]
pub(crate) struct Site<'a> {
    pub scope: Scope<'a>,
    pub name: &'a TypeName,
    pub takes_enums: bool,
}

/// Whether the type name of a field or map is one of the 15 scalar words. It then names no message
/// type and no enum; with a dot in front or among them it always does (proto3 language guide,
/// "Scalar Value Types").
pub(crate) fn is_scalar(name: &TypeName) -> bool
    ensures { result ≡ spec.is_scalar (reference name.now) }
{
    if name.is_full || !name.path.more.is_empty() {
        return false;
    }
    Scalar::named(name.path.first.text.as_str()).is_some()
}

/// The scope in this one that a word names.
fn inner<'a>(alloc: Global, scope: &Scope<'a>, word: &'a str) -> Result<Scope<'a>, AllocError>
    ensures { IfOk result (λ inner. texts inner.value.items ≡ texts scope.now.value.items
        ++ word.now ∷ []) }
{
    let mut words = Vec::from_slice(alloc, scope)?;
    words.push(word)?;
    Ok(Rc::new(alloc, words)?)
}

/// The uses that are gathered, in the order of the file's bytes.
#[derive(Drop)]
struct UseList<'a> {
    alloc: Global,
    uses: Vec<Site<'a>>,
}

impl<'a> UseList<'a> {
    /// Appends a use.
    fn add_use(
        &mut self,
        scope: &Scope<'a>,
        name: &'a TypeName,
        takes_enums: bool,
    ) -> Result<(), AllocError>
        ensures { OnOk result (AddsUses self.old.uses.items self.new.uses.items
            (spec.use_in (texts scope.now.value.items) takes_enums name.now ∷ [])) }
    {
        let scope = scope.clone()?;
        self.uses.push(Site {
            scope,
            name,
            takes_enums,
        })?;
        Ok(())
    }

    /// Appends the type of a field, where it is a name.
    fn add_field(&mut self, scope: &Scope<'a>, name: &'a TypeName) -> Result<(), AllocError>
        ensures { OnOk result (AddsUses self.old.uses.items self.new.uses.items
            (spec.field_uses (texts scope.now.value.items) name.now)) }
    {
        if is_scalar(name) {
            return Ok(());
        }
        self.add_use(scope, name, true)
    }

    /// Appends the key and the value of a map, where they are names.
    fn add_map(&mut self, scope: &Scope<'a>, field: &'a MapField) -> Result<(), AllocError>
        ensures { OnOk result (AddsUses self.old.uses.items self.new.uses.items
            (spec.map_uses (texts scope.now.value.items) field.now)) }
    {
        self.add_field(scope, &*field.key)?;
        self.add_field(scope, &field.value)
    }

    /// Appends the uses of a part of a oneof.
    fn add_oneof_part(&mut self, scope: &Scope<'a>, part: &'a OneofPart) -> Result<(), AllocError>
        ensures { OnOk result (AddsUses self.old.uses.items self.new.uses.items
            (spec.oneof_part_uses (texts scope.now.value.items) part.now)) }
    {
        match part {
            OneofPart::Field(field) => self.add_field(scope, &field.type_name),
            OneofPart::Map(map) => self.add_map(scope, map),
            OneofPart::Empty(_) | OneofPart::Option(_) => Ok(()),
        }
    }

    /// Appends the uses of a oneof. Its members are used in the scope of the message.
    fn add_oneof(&mut self, scope: &Scope<'a>, oneof: &'a Oneof) -> Result<(), AllocError>
        ensures { OnOk result (AddsUses self.old.uses.items self.new.uses.items
            (spec.oneof_uses (texts scope.now.value.items) oneof.now)) }
    {
        for part in &oneof.parts {
            self.add_oneof_part(scope, part)?;
        }
        Ok(())
    }

    /// Appends what an rpc takes and returns.
    fn add_rpc(&mut self, scope: &Scope<'a>, rpc: &'a Rpc) -> Result<(), AllocError>
        ensures { OnOk result (AddsUses self.old.uses.items self.new.uses.items
            (spec.rpc_uses (texts scope.now.value.items) rpc.now)) }
    {
        self.add_use(scope, &rpc.input.type_name, false)?;
        self.add_use(scope, &rpc.output.type_name, false)
    }

    /// Appends the uses of a part of a service.
    fn add_service_part(
        &mut self,
        scope: &Scope<'a>,
        part: &'a ServicePart,
    ) -> Result<(), AllocError>
        ensures { OnOk result (AddsUses self.old.uses.items self.new.uses.items
            (spec.service_part_uses (texts scope.now.value.items) part.now)) }
    {
        match part {
            ServicePart::Rpc(rpc) => self.add_rpc(scope, rpc),
            ServicePart::Empty(_) | ServicePart::Option(_) => Ok(()),
        }
    }

    /// Appends the uses of the parts of a service.
    fn add_service_parts(
        &mut self,
        scope: &Scope<'a>,
        parts: &'a [ServicePart],
    ) -> Result<(), AllocError>
        ensures { OnOk result (AddsUses self.old.uses.items self.new.uses.items
            (flat_map (spec.service_part_uses (texts scope.now.value.items)) parts.now)) }
    {
        for part in parts {
            self.add_service_part(scope, part)?;
        }
        Ok(())
    }

    /// Appends the uses of a service.
    fn add_service(&mut self, scope: &Scope<'a>, service: &'a Service) -> Result<(), AllocError>
        ensures { OnOk result (AddsUses self.old.uses.items self.new.uses.items
            (spec.service_uses (texts scope.now.value.items) service.now)) }
    {
        let words = inner(self.alloc, scope, service.name.text.as_str())?;
        self.add_service_parts(&words, &service.parts)
    }

    /// Appends the uses of a part of a message.
    #[cycle(uses)]
    fn add_part(&mut self, scope: &Scope<'a>, part: &'a Part) -> Result<(), AllocError>
        ensures { OnOk result (AddsUses self.old.uses.items self.new.uses.items
            (spec.part_uses (texts scope.now.value.items) part.now)) }
    {
        match part {
            Part::Message(message) => {
                self.add_message(scope, message)?;
                Ok(())
            }
            Part::Oneof(oneof) => self.add_oneof(scope, oneof),
            Part::Map(map) => self.add_map(scope, map),
            Part::Field(field) => self.add_field(scope, &field.type_name),
            Part::Enum(_) | Part::Empty(_) | Part::Option(_) | Part::Reserved(_) => Ok(()),
        }
    }

    /// Appends the uses of the parts of a message.
    #[cycle(uses)]
    fn add_parts(&mut self, scope: &Scope<'a>, parts: &'a [Part]) -> Result<(), AllocError>
        ensures { OnOk result (AddsUses self.old.uses.items self.new.uses.items
            (flat_map (spec.part_uses (texts scope.now.value.items)) parts.now)) }
    {
        for part in parts {
            self.add_part(scope, part)?;
        }
        Ok(())
    }

    /// Appends the uses of a message.
    #[cycle(uses)]
    fn add_message(&mut self, scope: &Scope<'a>, message: &'a Message) -> Result<(), AllocError>
        ensures { OnOk result (AddsUses self.old.uses.items self.new.uses.items
            (spec.message_uses (texts scope.now.value.items) message.now)) }
    {
        let words = inner(self.alloc, scope, message.name.text.as_str())?;
        self.add_parts(&words, &message.parts)
    }

    /// Appends the uses of a statement.
    fn add_statement(
        &mut self,
        scope: &Scope<'a>,
        statement: &'a Statement,
    ) -> Result<(), AllocError>
        ensures { OnOk result (AddsUses self.old.uses.items self.new.uses.items
            (spec.statement_uses (texts scope.now.value.items) statement.now)) }
    {
        match statement {
            Statement::Message(message) => self.add_message(scope, message),
            Statement::Service(service) => self.add_service(scope, service),
            Statement::Enum(_)
            | Statement::Empty(_)
            | Statement::Import(_)
            | Statement::Option(_) => Ok(()),
        }
    }

    /// Appends the uses of statements.
    fn add_statements(
        &mut self,
        scope: &Scope<'a>,
        statements: &'a [Statement],
    ) -> Result<(), AllocError>
        ensures { OnOk result (AddsUses self.old.uses.items self.new.uses.items
            (flat_map (spec.statement_uses (texts scope.now.value.items)) statements.now)) }
    {
        for statement in statements {
            self.add_statement(scope, statement)?;
        }
        Ok(())
    }
}

/// The words of a package.
fn words_of(alloc: Global, dotted: &Dotted) -> Result<Vec<&str>, AllocError>
    ensures { IfOk result (λ words. texts words.items
        ≡ map (λ w. w.text) (outline.dotted_words dotted.now)) }
{
    let mut words = Vec::new(alloc);
    words.push(dotted.first.text.as_str())?;
    for word in &dotted.more {
        words.push(word.text.as_str())?;
    }
    Ok(words)
}

/// The type names that a file uses, in the order of its bytes.
pub(crate) fn uses_of(alloc: Global, file: &FileTree) -> Result<Vec<Site<'_>>, AllocError>
    ensures { IfOk result (λ uses. map use_of uses.items ≡ spec.file_uses file.now) }
{
    let mut list = UseList {
        alloc,
        uses: Vec::new(alloc),
    };
    let Some(packaged) = &file.packaged else {
        let scope = Rc::new(alloc, Vec::new(alloc))?;
        list.add_statements(&scope, &file.statements)?;
        return Ok(list.uses);
    };
    let scope = Rc::new(alloc, words_of(alloc, &packaged.package.name)?)?;
    list.add_statements(&scope, &file.statements)?;
    list.add_statements(&scope, &packaged.statements)?;
    Ok(list.uses)
}
