//! What the server can do.

ghost use Rattle.std.specs.Prelude.{◌≡◌, IfOk};
ghost use Rattle.serde_json.specs.View.{view};
ghost use Rattle.proto_messages.specs.Objects.{flag_data, name_data};
ghost use Rattle.proto_messages.specs.Results.{capabilities_data, code_actions_data, documents_data, encoding_word, provided_data};

use crate::objects::{Object, ToJson};
use crate::results::PositionEncoding;
use serde_json::{Value, json};
use std::alloc::{AllocError, Global};

fn encoding_word(encoding: PositionEncoding) -> &'static str
    ensures { result.now ≡ encoding_word encoding }
{
    match encoding {
        PositionEncoding::Utf8 => "utf-8",
        PositionEncoding::Utf16 => "utf-16",
    }
}

// The kinds of code actions.
fn code_actions(alloc: Global) -> Result<Value, AllocError>
    ensures { IfOk result (λ value. view value ≡ code_actions_data) }
{
    json!(in alloc; {"codeActionKinds": ["quickfix", "refactor"]})
}

// One truth value under its name.
#[derive(Drop)]
struct Flag {
    key: &'static str,
    is_set: bool,
}

impl ToJson for Flag {
    ghost json = { λ flag. flag_data flag.key.now flag.is_set };

    fn put_members(&self, out: &mut Object) {
        out.put_flag(self.key, self.is_set);
    }
}

// A name.
#[derive(Drop)]
struct Named {
    name: &'static str,
}

impl ToJson for Named {
    ghost json = { λ named. name_data named.name.now };

    fn put_members(&self, out: &mut Object) {
        out.put_text("name", self.name);
    }
}

// What the server wants to be said of documents.
#[derive(Drop)]
struct Documents;

impl ToJson for Documents {
    ghost json = { λ _. documents_data };

    fn put_members(&self, out: &mut Object) {
        let save = Flag {
            key: "includeText",
            is_set: false,
        };
        out.put_number("change", 1);
        out.put_flag("openClose", true);
        out.put_object("save", &save);
    }
}

#[derive(Drop)]
struct Provided {
    encoding: PositionEncoding,
}

impl ToJson for Provided {
    ghost json = { λ provided. provided_data provided.encoding };

    fn put_members(&self, out: &mut Object) {
        let rename = Flag {
            key: "prepareProvider",
            is_set: true,
        };
        let code_actions = code_actions(out.alloc);
        out.put("codeActionProvider", code_actions);
        out.put_flag("definitionProvider", true);
        out.put_flag("documentSymbolProvider", true);
        out.put_text("positionEncoding", encoding_word(self.encoding));
        out.put_flag("referencesProvider", true);
        out.put_object("renameProvider", &rename);
        out.put_object("textDocumentSync", &Documents);
    }
}

/// What the server can do, and its name.
#[derive(Drop)]
pub(crate) struct Capabilities {
    pub(crate) encoding: PositionEncoding,
}

impl ToJson for Capabilities {
    ghost json = { λ capabilities. capabilities_data capabilities.encoding };

    fn put_members(&self, out: &mut Object) {
        let provided = Provided {
            encoding: self.encoding,
        };
        out.put_object("capabilities", &provided);
        let server = Named {
            name: "protoref_serve",
        };
        out.put_object("serverInfo", &server);
    }
}
