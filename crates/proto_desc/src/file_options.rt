//! The options right in a file, and its language version.

ghost use Rattle.std.specs.Prelude.{◌≡◌, if◌then◌else◌, map, option_map, string_bytes, IfOk};
ghost use Rattle.proto_tree.specs.File.{tree_of_file};
ghost use Rattle.proto_ast.specs.Options.{text_option};
ghost use Rattle.proto_ast.specs.Parts.{options_in};
ghost use Rattle.proto_ast.specs.Scenes.{text, value};
ghost use Rattle.proto_ast.specs.Views.{option_of};
ghost use Rattle.proto_descriptors.specs.declared.file.Syntax.TheVariants as syntax;
ghost use Rattle.proto_desc_build.specs.Described.{file_options, mode_named};
ghost use Rattle.proto_descriptors.specs.Views.{file_options_desc};

use proto_ast::{OptionAt, Scene, file_options, text_option, truth_option, word_option};
use proto_base::NoMemory;
use proto_descriptors::{FileOptions, OptimizeMode, Syntax};
use proto_tree::File;
use std::alloc::Global;

fn mode_named(word: &str) -> OptimizeMode
    ensures { result ≡ mode_named word.now }
{
    match word {
        "CODE_SIZE" => OptimizeMode::CodeSize,
        "LITE_RUNTIME" => OptimizeMode::LiteRuntime,
        _ => OptimizeMode::Speed,
    }
}

// The values of three options that are texts, by their names. Three at a time, since each early
// exit drops the texts before it, and six in one function take the check long.
fn texts(
    alloc: Global,
    scene: &Scene,
    options: &[OptionAt],
    first: &str,
    second: &str,
    third: &str,
) -> Result<(Option<String>, Option<String>, Option<String>), NoMemory>
    ensures first { IfOk result (λ t. option_map string_bytes t.0
        ≡ text_option (text scene.now) (value scene.now) first.now (map option_of options.now)) }
    ensures second { IfOk result (λ t. option_map string_bytes t.1
        ≡ text_option (text scene.now) (value scene.now) second.now (map option_of options.now)) }
    ensures third { IfOk result (λ t. option_map string_bytes t.2
        ≡ text_option (text scene.now) (value scene.now) third.now (map option_of options.now)) }
{
    let first = text_option(alloc, scene, options, first)?;
    let second = text_option(alloc, scene, options, second)?;
    let third = text_option(alloc, scene, options, third)?;
    Ok((first, second, third))
}

fn options_of_file(
    alloc: Global,
    scene: &Scene,
    options: &[OptionAt],
) -> Result<FileOptions, NoMemory>
    ensures { IfOk result (λ o. file_options_desc o
        ≡ file_options scene.now (map option_of options.now)) }
{
    let (java_package, java_outer_classname, go_package) = texts(
        alloc,
        scene,
        options,
        "java_package",
        "java_outer_classname",
        "go_package",
    )?;
    let (objc_class_prefix, csharp_namespace, php_namespace) = texts(
        alloc,
        scene,
        options,
        "objc_class_prefix",
        "csharp_namespace",
        "php_namespace",
    )?;
    let (swift_prefix, php_class_prefix, php_metadata_namespace) = texts(
        alloc,
        scene,
        options,
        "swift_prefix",
        "php_class_prefix",
        "php_metadata_namespace",
    )?;
    let ruby_package = text_option(alloc, scene, options, "ruby_package")?;
    Ok(FileOptions {
        java_package,
        java_outer_classname,
        java_multiple_files: truth_option(scene, options, "java_multiple_files"),
        optimize_for: word_option(scene, options, "optimize_for").map(mode_named),
        go_package,
        deprecated: truth_option(scene, options, "deprecated"),
        cc_enable_arenas: truth_option(scene, options, "cc_enable_arenas"),
        objc_class_prefix,
        csharp_namespace,
        php_namespace,
        java_generate_equals_and_hash: truth_option(
            scene,
            options,
            "java_generate_equals_and_hash",
        ),
        java_generic_services: truth_option(scene, options, "java_generic_services"),
        ruby_package,
        java_string_check_utf8: truth_option(scene, options, "java_string_check_utf8"),
        cc_generic_services: truth_option(scene, options, "cc_generic_services"),
        py_generic_services: truth_option(scene, options, "py_generic_services"),
        php_generic_services: truth_option(scene, options, "php_generic_services"),
        swift_prefix,
        php_class_prefix,
        php_metadata_namespace,
    })
}

/// The options right in a file.
pub(crate) fn written_options(
    alloc: Global,
    scene: &Scene,
    file: &File,
) -> Result<FileOptions, NoMemory>
    ensures { IfOk result (λ o. file_options_desc o
        ≡ file_options scene.now (options_in (tree_of_file file.now))) }
{
    let options = file_options(alloc, file)?;
    options_of_file(alloc, scene, &options)
}

/// The language version of a file.
pub(crate) fn syntax(scene: &Scene) -> Syntax
    ensures { result ≡ (if scene.now.is_proto3 then syntax.Proto3 else syntax.Proto2) }
{
    if scene.is_proto3() {
        Syntax::Proto3
    } else {
        Syntax::Proto2
    }
}
