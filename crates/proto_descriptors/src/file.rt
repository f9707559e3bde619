//! The descriptor of a file, and copies of those of files.

ghost use Rattle.std.specs.Prelude.{◌≡◌, IfOk, map, option_map, string_bytes};
ghost use Rattle.proto_descriptors.specs.Descriptors.{FileDesc};
ghost use Rattle.proto_descriptors.specs.Names.{optimize_mode_name};
ghost use Rattle.proto_descriptors.specs.Views.{descriptor_tree, enum_desc, field_desc, file_desc, file_options_desc, service_desc};

use crate::copying::{HasCopy, copied_text, copies};
use crate::enumeration::EnumDescriptor;
use crate::field::FieldDescriptor;
use crate::message::{MessageDescriptor, copied_messages};
use crate::service::ServiceDescriptor;
use proto_base::NoMemory;
use std::alloc::Global;

/// The same files in the same order, with texts and lists of their own. Fails only when out of
/// memory.
pub fn copy_files(alloc: Global, files: &[FileDescriptor]) -> Result<Vec<FileDescriptor>, NoMemory>
    ensures { IfOk result (λ copy. map file_desc copy.items ≡ map file_desc files.now) }
{
    copies(alloc, files)
}

/// What one file declares. All lists are in source order.
#[derive(Drop)]
pub struct FileDescriptor {
    /// The path in the workspace.
    pub name: String,
    /// The name of the package, its words joined by dots.
    pub package: Option<String>,
    /// The imported paths.
    pub dependency: Vec<String>,
    /// The places of the public imports in `dependency`, from 0.
    pub public_dependency: Vec<usize>,
    /// The places of the weak imports in `dependency`, from 0.
    pub weak_dependency: Vec<usize>,
    /// The messages right in the file.
    pub message_type: Vec<MessageDescriptor>,
    /// The enums right in the file.
    pub enum_type: Vec<EnumDescriptor>,
    /// The services.
    pub service: Vec<ServiceDescriptor>,
    /// The extensions right in the file.
    pub extension: Vec<FieldDescriptor>,
    /// The options right in the file.
    pub options: FileOptions,
    /// The language version.
    pub syntax: Syntax,
}

impl HasCopy for FileDescriptor {
    ghost View = { FileDesc };

    ghost view = { λ f. file_desc f };

    fn copy(&self, alloc: Global) -> Result<FileDescriptor, NoMemory> {
        let head = copied_head(alloc, self)?;
        let contents = copied_contents(alloc, self)?;
        let options = copied_options(alloc, &self.options)?;
        Ok(FileDescriptor {
            name: head.name,
            package: head.package,
            dependency: head.dependency,
            public_dependency: head.public_dependency,
            weak_dependency: head.weak_dependency,
            message_type: contents.message_type,
            enum_type: contents.enum_type,
            service: contents.service,
            extension: contents.extension,
            options,
            syntax: self.syntax,
        })
    }
}

/// The name of a file, its package and its imports.
#[derive(Drop)]
struct Head {
    name: String,
    package: Option<String>,
    dependency: Vec<String>,
    public_dependency: Vec<usize>,
    weak_dependency: Vec<usize>,
}

fn copied_head(alloc: Global, file: &FileDescriptor) -> Result<Head, NoMemory>
    ensures name { IfOk result (λ copy. string_bytes copy.name ≡ string_bytes file.now.name) }
    ensures package_name { IfOk result (λ copy.
        option_map string_bytes copy.package ≡ option_map string_bytes file.now.package) }
    ensures dependency { IfOk result (λ copy.
        map string_bytes copy.dependency.items ≡ map string_bytes file.now.dependency.items) }
    ensures public_dependency { IfOk result
        (λ copy. copy.public_dependency.items ≡ file.now.public_dependency.items) }
    ensures weak_dependency { IfOk result
        (λ copy. copy.weak_dependency.items ≡ file.now.weak_dependency.items) }
{
    let name = file.name.copy(alloc)?;
    let package = copied_text(alloc, &file.package)?;
    let dependency = copies(alloc, &file.dependency)?;
    let public_dependency = Vec::from_slice(alloc, &file.public_dependency)?;
    let weak_dependency = Vec::from_slice(alloc, &file.weak_dependency)?;
    Ok(Head {
        name,
        package,
        dependency,
        public_dependency,
        weak_dependency,
    })
}

/// What stands in a file.
#[derive(Drop)]
struct Contents {
    message_type: Vec<MessageDescriptor>,
    enum_type: Vec<EnumDescriptor>,
    service: Vec<ServiceDescriptor>,
    extension: Vec<FieldDescriptor>,
}

fn copied_contents(alloc: Global, file: &FileDescriptor) -> Result<Contents, NoMemory>
    ensures message_type { IfOk result (λ copy. map descriptor_tree copy.message_type.items
        ≡ map descriptor_tree file.now.message_type.items) }
    ensures enum_type { IfOk result (λ copy.
        map enum_desc copy.enum_type.items ≡ map enum_desc file.now.enum_type.items) }
    ensures service { IfOk result (λ copy.
        map service_desc copy.service.items ≡ map service_desc file.now.service.items) }
    ensures extension { IfOk result (λ copy.
        map field_desc copy.extension.items ≡ map field_desc file.now.extension.items) }
{
    let message_type = copied_messages(alloc, &file.message_type)?;
    let enum_type = copies(alloc, &file.enum_type)?;
    let service = copies(alloc, &file.service)?;
    let extension = copies(alloc, &file.extension)?;
    Ok(Contents {
        message_type,
        enum_type,
        service,
        extension,
    })
}

/// The language version of a file.
#[derive(Clone, Copy)]
pub enum Syntax {
    /// `proto2`: also where the file names no version.
    Proto2,
    /// `proto3`.
    Proto3,
}

/// The options that stand in a file, each by its own name.
#[derive(Drop)]
pub struct FileOptions {
    /// The package of the Java classes.
    pub java_package: Option<String>,
    /// The name of the outer Java class.
    pub java_outer_classname: Option<String>,
    /// Whether each message has a Java file of its own.
    pub java_multiple_files: Option<bool>,
    /// What generated code is optimized for.
    pub optimize_for: Option<OptimizeMode>,
    /// The path of the Go package.
    pub go_package: Option<String>,
    /// Whether the file is no longer to be used.
    pub deprecated: Option<bool>,
    /// Whether C++ messages may be allocated in arenas.
    pub cc_enable_arenas: Option<bool>,
    /// What stands before the names of Objective-C classes.
    pub objc_class_prefix: Option<String>,
    /// The namespace of the C# classes.
    pub csharp_namespace: Option<String>,
    /// The namespace of the PHP classes.
    pub php_namespace: Option<String>,
    /// Whether Java classes have `equals` and `hashCode`; of no effect any more.
    pub java_generate_equals_and_hash: Option<bool>,
    /// Whether Java classes of services are made that stand on no RPC system.
    pub java_generic_services: Option<bool>,
    /// The package of the Ruby classes.
    pub ruby_package: Option<String>,
    /// Whether Java code checks that texts are UTF-8.
    pub java_string_check_utf8: Option<bool>,
    /// Whether C++ classes of services are made that stand on no RPC system.
    pub cc_generic_services: Option<bool>,
    /// The same of Python.
    pub py_generic_services: Option<bool>,
    /// The same of PHP.
    pub php_generic_services: Option<bool>,
    /// What stands before the names of Swift types.
    pub swift_prefix: Option<String>,
    /// What stands before the names of PHP classes.
    pub php_class_prefix: Option<String>,
    /// The namespace of the PHP classes that describe the file.
    pub php_metadata_namespace: Option<String>,
}

/// The same texts, each where there is one. Three at a time, since each early exit drops the texts
/// before it.
fn copied_texts(
    alloc: Global,
    first: &Option<String>,
    second: &Option<String>,
    third: &Option<String>,
) -> Result<(Option<String>, Option<String>, Option<String>), NoMemory>
    ensures first { IfOk result (λ t.
        option_map string_bytes t.0 ≡ option_map string_bytes first.now) }
    ensures second { IfOk result (λ t.
        option_map string_bytes t.1 ≡ option_map string_bytes second.now) }
    ensures third { IfOk result (λ t.
        option_map string_bytes t.2 ≡ option_map string_bytes third.now) }
{
    let first = copied_text(alloc, first)?;
    let second = copied_text(alloc, second)?;
    let third = copied_text(alloc, third)?;
    Ok((first, second, third))
}

/// The same options.
fn copied_options(alloc: Global, options: &FileOptions) -> Result<FileOptions, NoMemory>
    ensures { IfOk result (λ copy. file_options_desc copy ≡ file_options_desc options.now) }
{
    let (java_package, java_outer_classname, go_package) = copied_texts(
        alloc,
        &options.java_package,
        &options.java_outer_classname,
        &options.go_package,
    )?;
    let (objc_class_prefix, csharp_namespace, php_namespace) = copied_texts(
        alloc,
        &options.objc_class_prefix,
        &options.csharp_namespace,
        &options.php_namespace,
    )?;
    let (swift_prefix, php_class_prefix, php_metadata_namespace) = copied_texts(
        alloc,
        &options.swift_prefix,
        &options.php_class_prefix,
        &options.php_metadata_namespace,
    )?;
    let ruby_package = copied_text(alloc, &options.ruby_package)?;
    Ok(FileOptions {
        java_package,
        java_outer_classname,
        java_multiple_files: options.java_multiple_files,
        optimize_for: options.optimize_for,
        go_package,
        deprecated: options.deprecated,
        cc_enable_arenas: options.cc_enable_arenas,
        objc_class_prefix,
        csharp_namespace,
        php_namespace,
        java_generate_equals_and_hash: options.java_generate_equals_and_hash,
        java_generic_services: options.java_generic_services,
        ruby_package,
        java_string_check_utf8: options.java_string_check_utf8,
        cc_generic_services: options.cc_generic_services,
        py_generic_services: options.py_generic_services,
        php_generic_services: options.php_generic_services,
        swift_prefix,
        php_class_prefix,
        php_metadata_namespace,
    })
}

/// What generated code is optimized for.
#[derive(Clone, Copy)]
pub enum OptimizeMode {
    /// Fast code.
    Speed,
    /// Little code, which uses descriptors as it runs.
    CodeSize,
    /// Code for a runtime without descriptors.
    LiteRuntime,
}

impl OptimizeMode {
    /// The name in descriptor.proto.
    pub fn name(self) -> &'static str
        ensures { result.now ≡ optimize_mode_name self }
    {
        match self {
            OptimizeMode::Speed => "SPEED",
            OptimizeMode::CodeSize => "CODE_SIZE",
            OptimizeMode::LiteRuntime => "LITE_RUNTIME",
        }
    }
}
