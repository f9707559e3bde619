//! The rules.

ghost use Rattle.std.specs.Prelude.{◌≡◌, ◌↔◌, Some};

use std::fmt;

/// How many rules there are.
pub(crate) const RULE_COUNT: usize = 27;

/// A lint rule, by what it finds, in the order of their identifiers.
#[derive(Clone, Copy, Debug, PartialEq, Eq, PartialOrd, Ord)]
pub enum Rule {
    /// A file whose package is not that of the first file of its directory.
    DirectorySamePackage,
    /// The first value of an enum, where its number is not 0.
    EnumFirstValueZero,
    /// The option `allow_alias = true`.
    EnumNoAllowAlias,
    /// An enum whose name is not Pascal.
    EnumPascalCase,
    /// A value whose name does not begin with that of its enum in upper snake and `_`.
    EnumValuePrefix,
    /// A value whose name is not upper snake.
    EnumValueUpperSnakeCase,
    /// A value with number 0 whose name does not end in `_UNSPECIFIED`.
    EnumZeroValueSuffix,
    /// A field whose name is not lower snake.
    FieldLowerSnakeCase,
    /// A file whose name is not lower snake.
    FileLowerSnakeCase,
    /// A public import.
    ImportNoPublic,
    /// An import that is not public and leads to no file that a reference needs.
    ImportUsed,
    /// A message whose name is not Pascal.
    MessagePascalCase,
    /// A oneof whose name is not lower snake.
    OneofLowerSnakeCase,
    /// A file without a package.
    PackageDefined,
    /// A file whose directory is not its package with `/` for `.`.
    PackageDirectoryMatch,
    /// A package with a part that is not lower snake.
    PackageLowerSnakeCase,
    /// A file whose directory is not that of the first file of its package.
    PackageSameDirectory,
    /// A package whose last part is no version.
    PackageVersionSuffix,
    /// A method with a stream of inputs.
    RpcNoClientStreaming,
    /// A method with a stream of outputs.
    RpcNoServerStreaming,
    /// A method whose name is not Pascal.
    RpcPascalCase,
    /// A method that shares a message with another method, or has one message as input and output.
    RpcRequestResponseUnique,
    /// A method whose input is not named after it and `Request`.
    RpcRequestStandardName,
    /// A method whose output is not named after it and `Response`.
    RpcResponseStandardName,
    /// A service whose name is not Pascal.
    ServicePascalCase,
    /// A service whose name does not end in `Service`.
    ServiceSuffix,
    /// A file without a syntax statement.
    SyntaxSpecified,
}

impl fmt::Display for Rule {
    fn fmt<W: fmt::Write>(&self, f: &mut fmt::Formatter<W>) -> fmt::Result {
        f.write_str(self.name())
    }
}

impl Rule {
    ghost use Rattle.proto_lint_rules.specs.Rules.{identifier};
    ghost use Rattle.proto_lint_rules.specs.declared.rule.Rule.{Rule};

    /// All rules, in the order of their identifiers.
    const ALL: [Rule; RULE_COUNT] = [
        Rule::DirectorySamePackage,
        Rule::EnumFirstValueZero,
        Rule::EnumNoAllowAlias,
        Rule::EnumPascalCase,
        Rule::EnumValuePrefix,
        Rule::EnumValueUpperSnakeCase,
        Rule::EnumZeroValueSuffix,
        Rule::FieldLowerSnakeCase,
        Rule::FileLowerSnakeCase,
        Rule::ImportNoPublic,
        Rule::ImportUsed,
        Rule::MessagePascalCase,
        Rule::OneofLowerSnakeCase,
        Rule::PackageDefined,
        Rule::PackageDirectoryMatch,
        Rule::PackageLowerSnakeCase,
        Rule::PackageSameDirectory,
        Rule::PackageVersionSuffix,
        Rule::RpcNoClientStreaming,
        Rule::RpcNoServerStreaming,
        Rule::RpcPascalCase,
        Rule::RpcRequestResponseUnique,
        Rule::RpcRequestStandardName,
        Rule::RpcResponseStandardName,
        Rule::ServicePascalCase,
        Rule::ServiceSuffix,
        Rule::SyntaxSpecified,
    ];

    /// The identifier of the rule.
    pub fn name(self) -> &'static str
        ensures { result.now ≡ identifier self }
    {
        match self {
            Rule::DirectorySamePackage => "DIRECTORY_SAME_PACKAGE",
            Rule::EnumFirstValueZero => "ENUM_FIRST_VALUE_ZERO",
            Rule::EnumNoAllowAlias => "ENUM_NO_ALLOW_ALIAS",
            Rule::EnumPascalCase => "ENUM_PASCAL_CASE",
            Rule::EnumValuePrefix => "ENUM_VALUE_PREFIX",
            Rule::EnumValueUpperSnakeCase => "ENUM_VALUE_UPPER_SNAKE_CASE",
            Rule::EnumZeroValueSuffix => "ENUM_ZERO_VALUE_SUFFIX",
            Rule::FieldLowerSnakeCase => "FIELD_LOWER_SNAKE_CASE",
            Rule::FileLowerSnakeCase => "FILE_LOWER_SNAKE_CASE",
            Rule::ImportNoPublic => "IMPORT_NO_PUBLIC",
            Rule::ImportUsed => "IMPORT_USED",
            Rule::MessagePascalCase => "MESSAGE_PASCAL_CASE",
            Rule::OneofLowerSnakeCase => "ONEOF_LOWER_SNAKE_CASE",
            Rule::PackageDefined => "PACKAGE_DEFINED",
            Rule::PackageDirectoryMatch => "PACKAGE_DIRECTORY_MATCH",
            Rule::PackageLowerSnakeCase => "PACKAGE_LOWER_SNAKE_CASE",
            Rule::PackageSameDirectory => "PACKAGE_SAME_DIRECTORY",
            Rule::PackageVersionSuffix => "PACKAGE_VERSION_SUFFIX",
            Rule::RpcNoClientStreaming => "RPC_NO_CLIENT_STREAMING",
            Rule::RpcNoServerStreaming => "RPC_NO_SERVER_STREAMING",
            Rule::RpcPascalCase => "RPC_PASCAL_CASE",
            Rule::RpcRequestResponseUnique => "RPC_REQUEST_RESPONSE_UNIQUE",
            Rule::RpcRequestStandardName => "RPC_REQUEST_STANDARD_NAME",
            Rule::RpcResponseStandardName => "RPC_RESPONSE_STANDARD_NAME",
            Rule::ServicePascalCase => "SERVICE_PASCAL_CASE",
            Rule::ServiceSuffix => "SERVICE_SUFFIX",
            Rule::SyntaxSpecified => "SYNTAX_SPECIFIED",
        }
    }

    /// The rule with this identifier; none for any other text. Takes no memory.
    pub fn from_name(name: &str) -> Option<Rule>
        ensures { (rule : Rule) → (result ≡ Some rule) ↔ (name.now ≡ identifier rule) }
    {
        for rule in Rule::ALL {
            if rule.name() == name {
                return Some(rule);
            }
        }
        None
    }
}
