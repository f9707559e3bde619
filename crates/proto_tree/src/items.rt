//! What a statement is where it stands.

ghost use Rattle.proto_tree.specs.Answer.{IsItemOf};
ghost use Rattle.proto_tree.specs.File.{service_item_tree, member_tree, item_tree};

use crate::context::Context;
use crate::piece::Statement;
use crate::tree::{
    EnumItem, Extension, Item, Member, Method, MethodEnd, MethodItem, OneofItem, ServiceItem,
    Setting,
};

/// What stands in a block that holds no other block: of an enum, a oneof or a method.
pub trait Single: Drop {
    ghost use Rattle.std.specs.Prelude.{◌≡◌, true, false};
    ghost use Rattle.proto_tree.specs.declared.context.Context.{Context};
    ghost use Rattle.proto_tree.specs.declared.context.Kind.TheVariants as kind;
    ghost use Rattle.proto_tree.specs.declared.piece.Header.{Header};
    ghost use Rattle.proto_tree.specs.Answer.{IsItemOf};
    ghost use Rattle.proto_tree.specs.Tree.{Tree, allows, header_kind};

    /// What block it is.
    ghost CONTEXT: { Context };

    /// What block it is.
    const CONTEXT: Context;

    /// Its tree.
    ghost tree: { Self → Tree };

    /// A statement of the block; none where it may not stand there.
    fn of(statement: Statement) -> Option<Self>
        ensures { IsItemOf CONTEXT tree statement result };

    /// A brace ends the block.
    ghost ends: { allows CONTEXT kind.Close ≡ true };

    /// No block stands in it.
    ghost holds_no_block: { (h : Header) → allows CONTEXT (header_kind h) ≡ false };
}

impl Single for OneofItem {
    ghost use Rattle.std.specs.Prelude.{refl};
    ghost use Rattle.proto_tree.specs.declared.context.Context.TheVariants as context;
    ghost use Rattle.proto_tree.specs.declared.piece.Header.TheVariants as header;
    ghost use Rattle.proto_tree.specs.File.{oneof_item_tree};

    ghost CONTEXT = { context.Oneof };

    const CONTEXT: Context = Context::Oneof;

    ghost tree = { oneof_item_tree };

    fn of(statement: Statement) -> Option<Self> {
        match statement {
            Statement::Field(field) => match field.label {
                Some(_) => {
                    drop(field);
                    None
                }
                None => Some(OneofItem::Field(field)),
            },
            Statement::Option(option) => match option.setting {
                Setting::Plain(_) => {
                    drop(option);
                    None
                }
                Setting::Custom(_) => Some(OneofItem::Option(option)),
            },
            other => {
                drop(other);
                None
            }
        }
    }

    ghost ends = { refl };

    ghost holds_no_block = { elim [ header.Message _ ↦ refl | _ ↦ refl ] };
}

impl Single for Extension {
    ghost use Rattle.std.specs.Prelude.{refl};
    ghost use Rattle.proto_tree.specs.declared.context.Context.TheVariants as context;
    ghost use Rattle.proto_tree.specs.declared.piece.Header.TheVariants as header;
    ghost use Rattle.proto_tree.specs.File.{extension_tree};

    ghost CONTEXT = { context.Extend };

    const CONTEXT: Context = Context::Extend;

    ghost tree = { extension_tree };

    fn of(statement: Statement) -> Option<Self> {
        match statement {
            Statement::Field(field) => Some(Extension { field }),
            other => {
                drop(other);
                None
            }
        }
    }

    ghost ends = { refl };

    ghost holds_no_block = { elim [ header.Message _ ↦ refl | _ ↦ refl ] };
}

impl Single for EnumItem {
    ghost use Rattle.std.specs.Prelude.{refl};
    ghost use Rattle.proto_tree.specs.declared.context.Context.TheVariants as context;
    ghost use Rattle.proto_tree.specs.declared.piece.Header.TheVariants as header;
    ghost use Rattle.proto_tree.specs.File.{enum_item_tree};

    ghost CONTEXT = { context.Enum };

    const CONTEXT: Context = Context::Enum;

    ghost tree = { enum_item_tree };

    fn of(statement: Statement) -> Option<Self> {
        match statement {
            Statement::Value(value) => Some(EnumItem::Value(value)),
            Statement::Option(option) => Some(EnumItem::Option(option)),
            Statement::EnumReserved(reserved) => Some(EnumItem::Reserved(reserved)),
            Statement::Empty(at) => Some(EnumItem::Empty(at)),
            other => {
                drop(other);
                None
            }
        }
    }

    ghost ends = { refl };

    ghost holds_no_block = { elim [ header.Message _ ↦ refl | _ ↦ refl ] };
}

impl Single for MethodItem {
    ghost use Rattle.std.specs.Prelude.{refl};
    ghost use Rattle.proto_tree.specs.declared.context.Context.TheVariants as context;
    ghost use Rattle.proto_tree.specs.declared.piece.Header.TheVariants as header;
    ghost use Rattle.proto_tree.specs.File.{method_item_tree};

    ghost CONTEXT = { context.Method };

    const CONTEXT: Context = Context::Method;

    ghost tree = { method_item_tree };

    fn of(statement: Statement) -> Option<Self> {
        match statement {
            Statement::Option(option) => Some(MethodItem::Option(option)),
            Statement::Empty(at) => Some(MethodItem::Empty(at)),
            other => {
                drop(other);
                None
            }
        }
    }

    ghost ends = { refl };

    ghost holds_no_block = { elim [ header.Message _ ↦ refl | _ ↦ refl ] };
}

/// A statement of a message; none where it may not stand there.
pub fn member_of(statement: Statement) -> Option<Member>
    ensures { IsItemOf Context.Message member_tree statement result }
{
    match statement {
        Statement::Field(field) => Some(Member::Field(field)),
        Statement::MapField(field) => Some(Member::MapField(field)),
        Statement::Option(option) => Some(Member::Option(option)),
        Statement::Reserved(reserved) => Some(Member::Reserved(reserved)),
        Statement::Extensions(extensions) => Some(Member::Extensions(extensions)),
        Statement::Empty(at) => Some(Member::Empty(at)),
        other => {
            drop(other);
            None
        }
    }
}

/// A statement of a service.
pub fn service_item_of(statement: Statement) -> Option<ServiceItem>
    ensures { IsItemOf Context.Service service_item_tree statement result }
{
    match statement {
        Statement::Method(signature, semicolon) => Some(ServiceItem::Method(Method {
            signature,
            end: MethodEnd::Semicolon(semicolon),
        })),
        Statement::Option(option) => Some(ServiceItem::Option(option)),
        Statement::Empty(at) => Some(ServiceItem::Empty(at)),
        other => {
            drop(other);
            None
        }
    }
}

/// A statement of a file; none where it may stand in no file.
pub fn item_of(statement: Statement) -> Option<Item>
    ensures { IsItemOf Context.Start item_tree statement result }
{
    match statement {
        Statement::Syntax(syntax) => Some(Item::Syntax(syntax)),
        Statement::Import(import) => Some(Item::Import(import)),
        Statement::Package(package) => Some(Item::Package(package)),
        Statement::Option(option) => Some(Item::Option(option)),
        Statement::Empty(at) => Some(Item::Empty(at)),
        other => {
            drop(other);
            None
        }
    }
}
