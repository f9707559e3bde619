//! The text of a set of files, and of one file.

ghost use Rattle.std.specs.Prelude.{◌≡◌, IfOk, OnOk, map, take, drop, string_bytes, option_map, codes};
ghost use Rattle.serde.specs.Event.{Log};
ghost use Rattle.proto_descriptors_json.specs.DescriptorText.{optimize_mode_name, syntax_name, file_slots, file_text, file_options_slots, text_of_files};
ghost use Rattle.proto_descriptors_json.specs.JsonText.{json_string};
ghost use Rattle.proto_descriptors_json.specs.Written.{PutsValue, PutsMember, PutsMembers, EndsOptions, options_slot};
ghost use Rattle.proto_descriptors.specs.Views.{file_desc, file_options_desc};

use crate::members::{put, put_list, put_optional};
use crate::message::put_messages;
use crate::options::{close, put_option};
use crate::values::ToJson;
use proto_base::NoMemory;
use proto_descriptors::{FileDescriptor, FileOptions, OptimizeMode, Syntax};
use serde::{Described, Serialize, Serializer};
use std::alloc::Global;

/// The files at this key of one compact JSON object, in each object the keys in the order of bytes.
/// Numbers are always written; empty lists, options that are not given and false marks never. Fails
/// only when out of memory.
pub fn text_of_files(
    alloc: Global,
    key: &'static str,
    files: &[FileDescriptor],
) -> Result<String, NoMemory>
    ensures { IfOk result (λ s. string_bytes s ≡ text_of_files key.now (map file_desc files.now)) }
{
    match serde_json::to_string(alloc, &FileList { key, files }) {
        Ok(text) => Ok(text),
        Err(_error) => Err(NoMemory),
    }
}

/// The text of one file, as `text_of_files` has it in its list. Fails only when out of memory.
pub fn text_of_file(alloc: Global, file: &FileDescriptor) -> Result<String, NoMemory>
    ensures { IfOk result (λ s. string_bytes s ≡ file_text (file_desc file.now)) }
{
    match serde_json::to_string(alloc, &OneFile { file }) {
        Ok(text) => Ok(text),
        Err(_error) => Err(NoMemory),
    }
}

/// A file alone.
#[derive(Drop)]
struct OneFile<'a> {
    file: &'a FileDescriptor,
}

impl Described for OneFile<'_> {
    ghost writes = { λ one. PutsValue (file_text (file_desc one.file.now)) };
}

impl Serialize for OneFile<'_> {
    fn serialize<S: Serializer>(&self, out: &mut S) -> Result<(), S::Error> {
        self.file.send(out)
    }
}

/// One object, with the list of these files at this key.
#[derive(Drop)]
struct FileList<'a> {
    key: &'static str,
    files: &'a [FileDescriptor],
}

impl Described for FileList<'_> {
    ghost writes = { λ l. PutsValue (text_of_files l.key.now (map file_desc l.files.now)) };
}

impl Serialize for FileList<'_> {
    fn serialize<S: Serializer>(&self, out: &mut S) -> Result<(), S::Error> {
        out.begin_map(None)?;
        put_list(out, self.key, self.files)?;
        out.end_map()
    }
}

impl ToJson for OptimizeMode {
    ghost text = { λ m. json_string (optimize_mode_name m) };

    fn send<S: Serializer>(&self, out: &mut S) -> Result<(), S::Error> {
        out.str(self.name())
    }
}

impl ToJson for FileDescriptor {
    ghost text = { λ f. file_text (file_desc f) };

    fn send<S: Serializer>(&self, out: &mut S) -> Result<(), S::Error> {
        out.begin_map(None)?;
        put_first(out, self)?;
        put_rest(out, self)?;
        out.end_map()
    }
}

/// The members up to `name`.
fn put_first<S: Serializer>(out: &mut S, file: &FileDescriptor) -> Result<(), S::Error>
    ensures { OnOk result (PutsMembers (take 5 (file_slots (file_desc file.now)))
        (S.written out.old) (S.written out.new)) }
{
    put_list(out, "dependency", &file.dependency)?;
    put_list(out, "enumType", &file.enum_type)?;
    put_list(out, "extension", &file.extension)?;
    put_messages(out, "messageType", &file.message_type)?;
    put(out, "name", &file.name)
}

/// The members from `options` on.
fn put_rest<S: Serializer>(out: &mut S, file: &FileDescriptor) -> Result<(), S::Error>
    ensures { OnOk result (PutsMembers (drop 5 (file_slots (file_desc file.now)))
        (S.written out.old) (S.written out.new)) }
{
    put_options(out, &file.options)?;
    put_optional(out, "package", &file.package)?;
    put_list(out, "publicDependency", &file.public_dependency)?;
    put_list(out, "service", &file.service)?;
    put_syntax(out, file.syntax)?;
    put_list(out, "weakDependency", &file.weak_dependency)
}

/// The name of the version, left out for proto2: a file without one is proto2.
fn put_syntax<S: Serializer>(out: &mut S, syntax: Syntax) -> Result<(), S::Error>
    ensures { OnOk result (PutsMember (codes "syntax", option_map json_string (syntax_name syntax))
        (S.written out.old) (S.written out.new)) }
{
    match syntax {
        Syntax::Proto2 => Ok(()),
        Syntax::Proto3 => {
            out.key("syntax")?;
            out.str("proto3")
        }
    }
}

/// The options in a file, left out where none is written.
fn put_options<S: Serializer>(out: &mut S, options: &FileOptions) -> Result<(), S::Error>
    ensures { OnOk result (PutsMember
        (options_slot (file_options_slots (file_options_desc options.now)))
        (S.written out.old) (S.written out.new)) }
{
    let is_open = put_first_options(out, options)?;
    let is_open = put_java_options(out, is_open, options)?;
    let is_open = put_middle_options(out, is_open, options)?;
    put_later_options(out, is_open, options)
}

/// The options up to `goPackage`. Answers whether their object has begun.
fn put_first_options<S: Serializer>(out: &mut S, options: &FileOptions) -> Result<bool, S::Error>
    ensures { IfOk result (λ is_open. (last : Log)
        → EndsOptions is_open (drop 5 (file_options_slots (file_options_desc options.now)))
        (S.written out.new) last
        → PutsMember (options_slot (file_options_slots (file_options_desc options.now)))
        (S.written out.old) last) }
{
    let is_open = put_option(out, false, "ccEnableArenas", &options.cc_enable_arenas)?;
    let services = &options.cc_generic_services;
    let is_open = put_option(out, is_open, "ccGenericServices", services)?;
    let is_open = put_option(out, is_open, "csharpNamespace", &options.csharp_namespace)?;
    let is_open = put_option(out, is_open, "deprecated", &options.deprecated)?;
    put_option(out, is_open, "goPackage", &options.go_package)
}

/// The options of Java. Answers whether the object has begun.
fn put_java_options<S: Serializer>(
    out: &mut S,
    is_open: bool,
    options: &FileOptions,
) -> Result<bool, S::Error>
    ensures { IfOk result (λ is_open_then. (last : Log)
        → EndsOptions is_open_then (drop 11 (file_options_slots (file_options_desc options.now)))
        (S.written out.new) last
        → EndsOptions is_open (drop 5 (file_options_slots (file_options_desc options.now)))
        (S.written out.old) last) }
{
    let equals = &options.java_generate_equals_and_hash;
    let is_open = put_option(out, is_open, "javaGenerateEqualsAndHash", equals)?;
    let services = &options.java_generic_services;
    let is_open = put_option(out, is_open, "javaGenericServices", services)?;
    let multiple = &options.java_multiple_files;
    let is_open = put_option(out, is_open, "javaMultipleFiles", multiple)?;
    let outer = &options.java_outer_classname;
    let is_open = put_option(out, is_open, "javaOuterClassname", outer)?;
    let is_open = put_option(out, is_open, "javaPackage", &options.java_package)?;
    let checks = &options.java_string_check_utf8;
    put_option(out, is_open, "javaStringCheckUtf8", checks)
}

/// The options up to `phpMetadataNamespace`. Answers whether the object has begun.
fn put_middle_options<S: Serializer>(
    out: &mut S,
    is_open: bool,
    options: &FileOptions,
) -> Result<bool, S::Error>
    ensures { IfOk result (λ is_open_then. (last : Log)
        → EndsOptions is_open_then (drop 16 (file_options_slots (file_options_desc options.now)))
        (S.written out.new) last
        → EndsOptions is_open (drop 11 (file_options_slots (file_options_desc options.now)))
        (S.written out.old) last) }
{
    let is_open = put_option(out, is_open, "objcClassPrefix", &options.objc_class_prefix)?;
    let is_open = put_option(out, is_open, "optimizeFor", &options.optimize_for)?;
    let is_open = put_option(out, is_open, "phpClassPrefix", &options.php_class_prefix)?;
    let services = &options.php_generic_services;
    let is_open = put_option(out, is_open, "phpGenericServices", services)?;
    let namespace = &options.php_metadata_namespace;
    put_option(out, is_open, "phpMetadataNamespace", namespace)
}

/// The options from `phpNamespace` on, and the end of their object.
fn put_later_options<S: Serializer>(
    out: &mut S,
    is_open: bool,
    options: &FileOptions,
) -> Result<(), S::Error>
    ensures { OnOk result (EndsOptions
        is_open (drop 16 (file_options_slots (file_options_desc options.now)))
        (S.written out.old) (S.written out.new)) }
{
    let is_open = put_option(out, is_open, "phpNamespace", &options.php_namespace)?;
    let services = &options.py_generic_services;
    let is_open = put_option(out, is_open, "pyGenericServices", services)?;
    let is_open = put_option(out, is_open, "rubyPackage", &options.ruby_package)?;
    let is_open = put_option(out, is_open, "swiftPrefix", &options.swift_prefix)?;
    close(out, is_open)
}
