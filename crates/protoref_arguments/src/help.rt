//! What stands below the help of each command: what its numbers and its statuses mean.

/// Of the program.
pub(crate) const PROGRAM: &str =
    "Status: 0 where it is done; 1 where something is told of the schemas,
the edit or the journal; 2 with a line on standard error.
What the numbers mean stands in the help of each command: protoref rename --help

With --as-written as the first word custom options are read, and `extend` in proto3:
protoref --as-written lint schemas

protoref --version prints the version; the file's checksum (sha256sum) tells one build from
another.";

/// Of `compile`.
pub(crate) const COMPILE: &str = "Status: 0; 1 with the least fault of the schemas,
as path:line:column: NUMBER NAME; 2 with a line on standard error.

Faults:
   1 TooLarge           a file of more than 1,048,576 bytes
   2 NotUtf8            a file that is not UTF-8
   3 BadChar            a character that begins no token, white space or comment
   4 OpenComment        a block comment that is not closed
   5 OpenString         a string that is not closed
   6 BadEscape          a string with a refused escape, or whose value is not UTF-8
   7 BadNumber          a word that begins with a digit and is no number
   8 Syntax             a statement that the grammar does not have
   9 TooDeep            more than 32 braces open at once
  10 UnknownImport      an import of a path that is not in the workspace
  11 DoubleImport       an import of a path that the file imports before
  12 ImportCycle        an import that leads back to its file
  13 DuplicateName      a full name that an earlier declaration or a package has
  14 Unresolved         a reference that means nothing
  15 WrongKind          a reference of a method or of an `extend` that means an enum
  16 MapEntryRef        a reference that means a generated map entry
  17 NumberRange        a number or a range outside its limits
  18 DuplicateNumber    a field number that an earlier field has
  19 ReservedNumber     a number inside a reserved or extension range
  20 ReservedName       a name that is reserved, or reserved twice
  21 RangeOverlap       a range that shares a number with an earlier one
  22 EmptyEnum          an enum without values
  23 FirstNotZero       an enum whose first value has to be 0 and is not
  24 ClosedEnum         an enum of a proto2 file in a field of a proto3 file
  25 Label              a proto2 field without a label
  26 BadMap             a map key of a type that no key has
  27 BadOption          an option that the element does not have, or with a value of another kind
  28 BadDefault         a default that the field does not have
  29 EmptyOneof         a oneof without fields
  30 JsonClash          a JSON name that an earlier field has
  31 NotInProto3        a word of proto2 in a proto3 file
  32 AliasNotAllowed    a value number that an earlier value has, without leave
  33 BadPath            a path that is no workspace path
  34 DoublePath         a path that is given twice
  35 TooManyFiles       more files than a workspace holds
  36 NotExtendable      an extension's number inside no extension range of what it extends
  37 DuplicateExtension an extension's number that an earlier one of the same message has
  38 RequiredExtension  a required extension
  39 NotAnOption        a custom option whose extension is one of another element

Example: protoref compile schemas";

/// Of `lint`.
pub(crate) const LINT: &str = "Rules:
  DIRECTORY_SAME_PACKAGE       a file whose package is not that of the first file of its directory
  ENUM_FIRST_VALUE_ZERO        the first value of an enum, if its number is not 0
  ENUM_NO_ALLOW_ALIAS          the option allow_alias = true
  ENUM_PASCAL_CASE             an enum whose name is not PascalCase
  ENUM_VALUE_PREFIX            a value whose name does not begin with its enum's in UPPER_SNAKE_CASE
  ENUM_VALUE_UPPER_SNAKE_CASE  a value whose name is not UPPER_SNAKE_CASE
  ENUM_ZERO_VALUE_SUFFIX       a value 0 whose name does not end in _UNSPECIFIED
  FIELD_LOWER_SNAKE_CASE       a field whose name is not lower_snake_case
  FILE_LOWER_SNAKE_CASE        a file whose name is not lower_snake_case
  IMPORT_NO_PUBLIC             a public import
  IMPORT_USED                  an import that no reference needs
  MESSAGE_PASCAL_CASE          a message whose name is not PascalCase
  ONEOF_LOWER_SNAKE_CASE       a oneof whose name is not lower_snake_case
  PACKAGE_DEFINED              a file without a package
  PACKAGE_DIRECTORY_MATCH      a file whose directory is not that of its package's name
  PACKAGE_LOWER_SNAKE_CASE     a package with a part that is not lower_snake_case
  PACKAGE_SAME_DIRECTORY       a file whose directory is not that of the first file of its package
  PACKAGE_VERSION_SUFFIX       a package that does not end in a version
  RPC_NO_CLIENT_STREAMING      a method with a stream of inputs
  RPC_NO_SERVER_STREAMING      a method with a stream of outputs
  RPC_PASCAL_CASE              a method whose name is not PascalCase
  RPC_REQUEST_RESPONSE_UNIQUE  a method that shares a message with another, or with itself
  RPC_REQUEST_STANDARD_NAME    a method whose input is not named after it and Request
  RPC_RESPONSE_STANDARD_NAME   a method whose output is not named after it and Response
  SERVICE_PASCAL_CASE          a service whose name is not PascalCase
  SERVICE_SUFFIX               a service whose name does not end in Service
  SYNTAX_SPECIFIED             a file without a syntax statement

Example: protoref lint schemas IMPORT_USED PACKAGE_DEFINED

Status: 0 without a finding; 1 with findings, as path:line:column: RULE name, or with a fault of
the schemas (protoref compile --help); 2 with a line on standard error.";

/// Of `rename`.
pub(crate) const RENAME: &str = "Status: 0; 1 where nothing is changed,
with a fault of the schemas (its number: protoref compile --help), with a refusal,
as refused: NUMBER NAME, or with a journal that takes no entry, as journal: NUMBER NAME;
2 with a line on standard error.

Refusals:
   1 UnknownTarget   no symbol has the name
   2 KindNotAllowed  the edit is not for a symbol of this kind
   3 NotAnIdentifier the new name is no word
   4 KeywordName     the new name is a listed word
   5 SameName        the new name is the present one
   6 Collision       a new name is the name of another symbol
   7 Captured        a reference would mean something else
   8 NameReserved    the new name is reserved
   9 JsonClash       two fields would have one JSON name
  16 TooLarge        a changed file would have more than 1,048,576 bytes
  19 OptionValue     a word of an option may stand for the symbol
  20 FixedName       options are looked up by this name

Journal:
   1 BadJournal  the journal is damaged
   3 OpenEntry   the last entry is open: run recover
   5 JournalFull the journal would have more than 16,777,216 bytes

Example: protoref rename schemas shop.v1.Order.price total_price";

/// Of `delete-field`.
pub(crate) const DELETE_FIELD: &str = "Status: 0; 1 where nothing is changed,
with a fault of the schemas (its number: protoref compile --help), with a refusal,
as refused: NUMBER NAME, or with a journal that takes no entry, as journal: NUMBER NAME;
2 with a line on standard error.

Refusals:
   1 UnknownTarget  no symbol has the name
   2 KindNotAllowed the edit is not for a symbol of this kind
  10 LastOfOneof    the field is the only one of its oneof
  16 TooLarge       a changed file would have more than 1,048,576 bytes
  19 OptionValue    a word of an option may stand for the field
  20 FixedName      options are looked up by this name

Journal:
   1 BadJournal  the journal is damaged
   3 OpenEntry   the last entry is open: run recover
   5 JournalFull the journal would have more than 16,777,216 bytes

Example: protoref delete-field schemas shop.v1.Order.price";

/// Of `add-import`.
pub(crate) const ADD_IMPORT: &str = "Status: 0; 1 where nothing is changed,
with a fault of the schemas (its number: protoref compile --help), with a refusal,
as refused: NUMBER NAME, or with a journal that takes no entry, as journal: NUMBER NAME;
2 with a line on standard error.

Refusals:
   7 Captured        a reference would mean something else
  11 UnknownFile     the file is not in the workspace
  12 AlreadyImported the file imports the path
  14 Cycle           an import cycle would be closed
  16 TooLarge        a changed file would have more than 1,048,576 bytes

Journal:
   1 BadJournal  the journal is damaged
   3 OpenEntry   the last entry is open: run recover
   5 JournalFull the journal would have more than 16,777,216 bytes

Example: protoref add-import schemas shop/v1/order.proto shop/v1/item.proto";

/// Of `drop-import`.
pub(crate) const DROP_IMPORT: &str = "Status: 0; 1 where nothing is changed,
with a fault of the schemas (its number: protoref compile --help), with a refusal,
as refused: NUMBER NAME, or with a journal that takes no entry, as journal: NUMBER NAME;
2 with a line on standard error.

Refusals:
  11 UnknownFile the file is not in the workspace
  13 NotImported the file does not import the path
  15 Needed      a reference means a symbol that would no longer be seen

Journal:
   1 BadJournal  the journal is damaged
   3 OpenEntry   the last entry is open: run recover
   5 JournalFull the journal would have more than 16,777,216 bytes

Example: protoref drop-import schemas shop/v1/order.proto shop/v1/item.proto";

/// Of `undo`.
pub(crate) const UNDO: &str = "Status: 0; 1 where nothing is changed,
with a fault of the schemas (its number: protoref compile --help), with a refusal,
as refused: NUMBER NAME, or with a journal that gives none, as journal: NUMBER NAME;
2 with a line on standard error.

Refusals:
  17 Stale the files are not as the entry left them

Journal:
   1 BadJournal    the journal is damaged
   2 NothingToUndo the journal has no entry
   3 OpenEntry     the last entry is open: run recover

Example: protoref undo schemas";

/// Of `log`.
pub(crate) const LOG: &str = "Status: 0; 1 with journal: NUMBER NAME;
2 with a line on standard error.

Journal:
   1 BadJournal the journal is damaged

Example: protoref log schemas";

/// Of `recover`.
pub(crate) const RECOVER: &str = "Status: 0; 1 where nothing is changed,
with refused: NUMBER NAME or journal: NUMBER NAME; 2 with a line on standard error.

Refusals:
  17 Stale the files are not as the entry left them

Journal:
   1 BadJournal the journal is damaged

Example: protoref recover schemas";

/// Of `migrate`.
pub(crate) const MIGRATE: &str = "Status: 0; 1 where nothing is changed,
with journal: NUMBER NAME; 2 with a line on standard error.

Journal:
   1 BadJournal  the journal is damaged
   3 OpenEntry   the last entry is open: run recover
   5 JournalFull the journal would have more than 16,777,216 bytes

Example: protoref migrate schemas";
