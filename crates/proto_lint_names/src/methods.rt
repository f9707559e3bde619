//! The rules of methods.

ghost use Rattle.std.specs.Prelude.{◌≡◌, ◌++◌, ◌||◌, codes, OnOk};
ghost use Rattle.std.specs.Str.{bytes_eq};
ghost use Rattle.proto_lint_names.specs.Readings.{reading_of, word_in};
ghost use Rattle.proto_lint_names.specs.Methods.{is_shared, is_standard, method_finds, type_meant};

use crate::Rule;
use crate::found::{FileFindings, Verdict};
use crate::names::add_name;
use crate::parts::last_part;
use crate::reading::LintFile;
use crate::shared::Messages;
use crate::walk::Walk;
use proto_base::NoMemory;
use proto_case::is_pascal;
use proto_tree::{MethodType, Signature};

/// A service as the rules of its methods name it: its full name, and the token of its own.
#[derive(Clone, Copy)]
pub(crate) struct ServiceName<'a> {
    pub(crate) full: &'a str,
    pub(crate) token: u32,
}

fn type_meant<'a>(reading: &LintFile<'a>, kind: &MethodType) -> &'a str
    ensures { result.now ≡ type_meant (reading_of reading.now) kind.now }
{
    reading.meant_name(&kind.reference)
}

// ---- names of inputs and outputs

// Whether bytes are two others, one behind the other.
fn is_joined(bytes: &[u8], front: &[u8], back: &[u8]) -> bool
    ensures { result ≡ bytes_eq bytes.now (front.now ++ back.now) }
{
    match bytes.strip_prefix(front) {
        Some(rest) => rest == back,
        None => false,
    }
}

// Whether bytes are three others, one behind the other.
fn is_joined_of_three(bytes: &[u8], front: &[u8], middle: &[u8], back: &[u8]) -> bool
    ensures { result ≡ bytes_eq bytes.now (front.now ++ (middle.now ++ back.now)) }
{
    match bytes.strip_prefix(front) {
        Some(rest) => is_joined(rest, middle, back),
        None => false,
    }
}

fn is_standard(service: &str, method: &str, suffix: &str, name: &str) -> bool
    ensures { result ≡ is_standard service.now method.now suffix.now name.now }
{
    let word = last_part(name).as_bytes();
    let service = service.as_bytes();
    let method = method.as_bytes();
    let suffix = suffix.as_bytes();
    is_joined(word, method, suffix) || is_joined_of_three(word, service, method, suffix)
}

// Whether the message that a method of the service takes has a standard name.
fn is_request_standard(reading: &LintFile, service: u32, method: &Signature) -> bool
    ensures { result ≡ is_standard (word_in (reading_of reading.now) service)
        (word_in (reading_of reading.now) method.now.name) (codes "Request")
        (type_meant (reading_of reading.now) method.now.input) }
{
    let name = type_meant(reading, &method.input);
    is_standard(
        reading.text(service),
        reading.text(method.name),
        "Request",
        name,
    )
}

// Whether the message that a method of the service answers has a standard name.
fn is_response_standard(reading: &LintFile, service: u32, method: &Signature) -> bool
    ensures { result ≡ is_standard (word_in (reading_of reading.now) service)
        (word_in (reading_of reading.now) method.now.name) (codes "Response")
        (type_meant (reading_of reading.now) method.now.output) }
{
    let name = type_meant(reading, &method.output);
    is_standard(
        reading.text(service),
        reading.text(method.name),
        "Response",
        name,
    )
}

// ---- messages of one method alone

fn has_shared(reading: &LintFile, messages: &Messages, method: &Signature) -> bool
    ensures { result ≡
        (is_shared messages.now (type_meant (reading_of reading.now) method.now.input)
        || is_shared messages.now (type_meant (reading_of reading.now) method.now.output)) }
{
    let input = type_meant(reading, &method.input);
    let output = type_meant(reading, &method.output);
    messages.is_shared(input) || messages.is_shared(output)
}

// ---- all of them

/// Adds what the rules find at a method of a service.
pub(crate) fn add_method(
    found: &mut FileFindings,
    walk: &Walk,
    service: &ServiceName,
    method: &Signature,
) -> Result<(), NoMemory>
    ensures { OnOk result (found.new ≡ found.old
        ++ method_finds walk.now.rules.now.chosen (reading_of walk.now.reading.now)
        walk.now.messages.now service.now.full.now service.now.token method.now) }
{
    let reading = walk.reading;
    let scope = service.full;
    let token = method.name;
    let rule = Rule::RpcNoClientStreaming;
    let passes = method.input.stream.is_none();
    add_name(found, walk, Verdict { rule, passes }, scope, token)?;
    let rule = Rule::RpcNoServerStreaming;
    let passes = method.output.stream.is_none();
    add_name(found, walk, Verdict { rule, passes }, scope, token)?;
    let rule = Rule::RpcPascalCase;
    let passes = is_pascal(reading.text(token));
    add_name(found, walk, Verdict { rule, passes }, scope, token)?;
    let rule = Rule::RpcRequestResponseUnique;
    let passes = !has_shared(reading, walk.messages, method);
    add_name(found, walk, Verdict { rule, passes }, scope, token)?;
    let rule = Rule::RpcRequestStandardName;
    let passes = is_request_standard(reading, service.token, method);
    add_name(found, walk, Verdict { rule, passes }, scope, token)?;
    let rule = Rule::RpcResponseStandardName;
    let passes = is_response_standard(reading, service.token, method);
    add_name(found, walk, Verdict { rule, passes }, scope, token)
}
