//! Sessions over a folder of two schemas, each a text: a line with its name, then one for each message
//! and each reply, and one for its end.
//!
//! `> ` stands before a message, `+ ` before one that another follows, `! ` before one that comes
//! while the folder cannot be read, `< ` before a reply to the message above, and `= ` before the
//! exit status at the end, and how the last message was taken where it was not.

/// The files of the folder.
pub(crate) const FILES: &[(&str, &str)] = &[
    (
        "p/v1/a.proto",
        r#"syntax = "proto3"; package p.v1; message A {}"#,
    ),
    (
        "p/v1/b.proto",
        r#"syntax = "proto3"; package p.v1; import "p/v1/a.proto"; message B { A a = 1; }"#,
    ),
];

pub(crate) const A_WHOLE_SESSION: &str = r#"# a whole session
> {"jsonrpc":"2.0","id":1,"method":"initialize","params":{"rootUri":"file:///w","capabilities":{}}}
< {"id":1,"jsonrpc":"2.0","result":{"capabilities":{"codeActionProvider":{"codeActionKinds":["quickfix","refactor"]},"definitionProvider":true,"documentSymbolProvider":true,"positionEncoding":"utf-16","referencesProvider":true,"renameProvider":{"prepareProvider":true},"textDocumentSync":{"change":1,"openClose":true,"save":{"includeText":false}}},"serverInfo":{"name":"protoref_serve"}}}
> {"jsonrpc":"2.0","method":"initialized","params":{}}
> {"jsonrpc":"2.0","method":"textDocument/didOpen","params":{"textDocument":{"uri":"file:///w/p/v1/a.proto","languageId":"","version":1,"text":"message A {"}}}
< {"jsonrpc":"2.0","method":"textDocument/publishDiagnostics","params":{"diagnostics":[{"code":"Syntax","message":"8 Syntax","range":{"end":{"character":11,"line":0},"start":{"character":11,"line":0}},"severity":1,"source":"protoref"}],"uri":"file:///w/p/v1/a.proto","version":1}}
> {"jsonrpc":"2.0","id":2,"method":"textDocument/rename","params":{"textDocument":{"uri":"file:///w/p/v1/a.proto"},"position":{"line":0,"character":8},"newName":"C"}}
< {"error":{"code":-32803,"message":"p/v1/a.proto:1:12: 8 Syntax"},"id":2,"jsonrpc":"2.0"}
> {"jsonrpc":"2.0","method":"textDocument/didClose","params":{"textDocument":{"uri":"file:///w/p/v1/a.proto"}}}
< {"jsonrpc":"2.0","method":"textDocument/publishDiagnostics","params":{"diagnostics":[],"uri":"file:///w/p/v1/a.proto"}}
> {"jsonrpc":"2.0","id":3,"method":"textDocument/rename","params":{"textDocument":{"uri":"file:///w/p/v1/b.proto"},"position":{"line":0,"character":68},"newName":"C"}}
< {"id":3,"jsonrpc":"2.0","result":{"documentChanges":[{"edits":[{"newText":"C","range":{"end":{"character":42,"line":0},"start":{"character":41,"line":0}}}],"textDocument":{"uri":"file:///w/p/v1/a.proto","version":null}},{"edits":[{"newText":"C","range":{"end":{"character":69,"line":0},"start":{"character":68,"line":0}}}],"textDocument":{"uri":"file:///w/p/v1/b.proto","version":null}}]}}
> {"jsonrpc":"2.0","id":4,"method":"textDocument/rename","params":{"textDocument":{"uri":"file:///w/p/v1/b.proto"},"position":{"line":0,"character":68},"newName":"B"}}
< {"error":{"code":-32803,"message":"refused: 6 Collision"},"id":4,"jsonrpc":"2.0"}
> {"jsonrpc":"2.0","id":5,"method":"textDocument/rename","params":{"textDocument":{"uri":"file:///w/p/v1/b.proto"},"position":{"line":0,"character":0},"newName":"B"}}
< {"error":{"code":-32803,"message":"no name that may be renamed stands here"},"id":5,"jsonrpc":"2.0"}
> {"jsonrpc":"2.0","id":6,"method":"shutdown"}
< {"id":6,"jsonrpc":"2.0","result":null}
> {"jsonrpc":"2.0","id":7,"method":"shutdown"}
< {"error":{"code":-32600,"message":"the server is shut down"},"id":7,"jsonrpc":"2.0"}
> {"jsonrpc":"2.0","method":"textDocument/didOpen","params":{"textDocument":{"uri":"file:///w/p/v1/a.proto","languageId":"","version":1,"text":"message A {"}}}
> {"jsonrpc":"2.0","method":"exit"}
= 0"#;

pub(crate) const BEFORE_INITIALIZE: &str = r#"# before initialize
> {"jsonrpc":"2.0","id":1,"method":"shutdown"}
< {"error":{"code":-32002,"message":"initialize has not come yet"},"id":1,"jsonrpc":"2.0"}
> {"jsonrpc":"2.0","method":"textDocument/didOpen","params":{"textDocument":{"uri":"file:///w/p/v1/a.proto","languageId":"","version":1,"text":"message A {"}}}
> {"jsonrpc":"2.0","id":2,"method":"no/method"}
< {"error":{"code":-32002,"message":"initialize has not come yet"},"id":2,"jsonrpc":"2.0"}
> {"jsonrpc":"2.0","id":1,"method":"initialize","params":{"rootUri":"file:///w","capabilities":{}}}
< {"id":1,"jsonrpc":"2.0","result":{"capabilities":{"codeActionProvider":{"codeActionKinds":["quickfix","refactor"]},"definitionProvider":true,"documentSymbolProvider":true,"positionEncoding":"utf-16","referencesProvider":true,"renameProvider":{"prepareProvider":true},"textDocumentSync":{"change":1,"openClose":true,"save":{"includeText":false}}},"serverInfo":{"name":"protoref_serve"}}}
> {"jsonrpc":"2.0","id":2,"method":"initialize","params":{"rootUri":"file:///w","capabilities":{}}}
< {"error":{"code":-32600,"message":"initialize has come before"},"id":2,"jsonrpc":"2.0"}
> {"jsonrpc":"2.0","method":"exit"}
= 1"#;

pub(crate) const NO_MESSAGES: &str = r#"# no messages
> {
< {"error":{"code":-32700,"message":"no JSON in UTF-8"},"id":null,"jsonrpc":"2.0"}
> []
< {"error":{"code":-32600,"message":"no message of JSON-RPC"},"id":null,"jsonrpc":"2.0"}
> {"id":1,"jsonrpc":"2.0","result":null}
> {"jsonrpc":"2.0","method":"exit"}
= 1"#;

pub(crate) const A_CHANGE_OF_A_TEXT_THAT_IS_NOT_OPEN: &str =
    r#"# a change of a text that is not open
> {"jsonrpc":"2.0","id":1,"method":"initialize","params":{"rootUri":"file:///w","capabilities":{}}}
< {"id":1,"jsonrpc":"2.0","result":{"capabilities":{"codeActionProvider":{"codeActionKinds":["quickfix","refactor"]},"definitionProvider":true,"documentSymbolProvider":true,"positionEncoding":"utf-16","referencesProvider":true,"renameProvider":{"prepareProvider":true},"textDocumentSync":{"change":1,"openClose":true,"save":{"includeText":false}}},"serverInfo":{"name":"protoref_serve"}}}
> {"jsonrpc":"2.0","method":"initialized","params":{}}
> {"jsonrpc":"2.0","method":"textDocument/didChange","params":{"textDocument":{"uri":"file:///w/p/v1/a.proto","version":2},"contentChanges":[{"text":"syntax = \"proto3\"; package p.v1; message A {}"}]}}
= 1 refused"#;

pub(crate) const A_CHANGE_OF_A_RANGE: &str = r#"# a change of a range
> {"jsonrpc":"2.0","id":1,"method":"initialize","params":{"rootUri":"file:///w","capabilities":{}}}
< {"id":1,"jsonrpc":"2.0","result":{"capabilities":{"codeActionProvider":{"codeActionKinds":["quickfix","refactor"]},"definitionProvider":true,"documentSymbolProvider":true,"positionEncoding":"utf-16","referencesProvider":true,"renameProvider":{"prepareProvider":true},"textDocumentSync":{"change":1,"openClose":true,"save":{"includeText":false}}},"serverInfo":{"name":"protoref_serve"}}}
> {"jsonrpc":"2.0","method":"textDocument/didOpen","params":{"textDocument":{"uri":"file:///w/p/v1/a.proto","languageId":"","version":1,"text":"syntax = \"proto3\"; package p.v1; message A {}"}}}
> {"jsonrpc":"2.0","method":"textDocument/didChange","params":{"textDocument":{"uri":"file:///w/p/v1/a.proto","version":2},"contentChanges":[{"range":{"start":{"line":0,"character":0},"end":{"line":0,"character":0}},"text":"x"}]}}
= 1 refused"#;

pub(crate) const A_NOTIFICATION_WITHOUT_ITS_PARAMETERS: &str =
    r#"# a notification without its parameters
> {"jsonrpc":"2.0","id":1,"method":"initialize","params":{"rootUri":"file:///w","capabilities":{}}}
< {"id":1,"jsonrpc":"2.0","result":{"capabilities":{"codeActionProvider":{"codeActionKinds":["quickfix","refactor"]},"definitionProvider":true,"documentSymbolProvider":true,"positionEncoding":"utf-16","referencesProvider":true,"renameProvider":{"prepareProvider":true},"textDocumentSync":{"change":1,"openClose":true,"save":{"includeText":false}}},"serverInfo":{"name":"protoref_serve"}}}
> {"jsonrpc":"2.0","method":"textDocument/didSave"}
= 1 refused"#;

pub(crate) const A_RANGE_IS_PASSED_OVER_BEFORE_INITIALIZE: &str =
    r#"# a range is passed over before initialize
> {"jsonrpc":"2.0","method":"textDocument/didChange","params":{"textDocument":{"uri":"file:///w/p/v1/a.proto","version":2},"contentChanges":[{"range":{"start":{"line":0,"character":0},"end":{"line":0,"character":0}},"text":"x"}]}}
= 1"#;

pub(crate) const TWO_URIS_OF_ONE_PATH: &str = r#"# two URIs of one path
> {"jsonrpc":"2.0","id":1,"method":"initialize","params":{"rootUri":"file:///w","capabilities":{}}}
< {"id":1,"jsonrpc":"2.0","result":{"capabilities":{"codeActionProvider":{"codeActionKinds":["quickfix","refactor"]},"definitionProvider":true,"documentSymbolProvider":true,"positionEncoding":"utf-16","referencesProvider":true,"renameProvider":{"prepareProvider":true},"textDocumentSync":{"change":1,"openClose":true,"save":{"includeText":false}}},"serverInfo":{"name":"protoref_serve"}}}
> {"jsonrpc":"2.0","method":"initialized","params":{}}
> {"jsonrpc":"2.0","method":"textDocument/didOpen","params":{"textDocument":{"uri":"file:///w/p/v1/a.proto","languageId":"","version":1,"text":"message A {"}}}
< {"jsonrpc":"2.0","method":"textDocument/publishDiagnostics","params":{"diagnostics":[{"code":"Syntax","message":"8 Syntax","range":{"end":{"character":11,"line":0},"start":{"character":11,"line":0}},"severity":1,"source":"protoref"}],"uri":"file:///w/p/v1/a.proto","version":1}}
> {"jsonrpc":"2.0","method":"textDocument/didOpen","params":{"textDocument":{"uri":"file:///w/p/v1/%61.proto","languageId":"","version":4,"text":"message A { "}}}
< {"jsonrpc":"2.0","method":"textDocument/publishDiagnostics","params":{"diagnostics":[{"code":"Syntax","message":"8 Syntax","range":{"end":{"character":12,"line":0},"start":{"character":12,"line":0}},"severity":1,"source":"protoref"}],"uri":"file:///w/p/v1/%61.proto","version":4}}
< {"jsonrpc":"2.0","method":"textDocument/publishDiagnostics","params":{"diagnostics":[],"uri":"file:///w/p/v1/a.proto"}}
> {"jsonrpc":"2.0","method":"textDocument/didChange","params":{"textDocument":{"uri":"file:///w/p/v1/a.proto","version":5},"contentChanges":[{"text":"syntax = \"proto3\"; package p.v1; message A {}"}]}}
< {"jsonrpc":"2.0","method":"textDocument/publishDiagnostics","params":{"diagnostics":[],"uri":"file:///w/p/v1/%61.proto"}}
> {"jsonrpc":"2.0","id":2,"method":"textDocument/rename","params":{"textDocument":{"uri":"file:///w/p/v1/%61.proto"},"position":{"line":0,"character":41},"newName":"C"}}
< {"id":2,"jsonrpc":"2.0","result":{"documentChanges":[{"edits":[{"newText":"C","range":{"end":{"character":42,"line":0},"start":{"character":41,"line":0}}}],"textDocument":{"uri":"file:///w/p/v1/a.proto","version":5}},{"edits":[{"newText":"C","range":{"end":{"character":69,"line":0},"start":{"character":68,"line":0}}}],"textDocument":{"uri":"file:///w/p/v1/b.proto","version":null}}]}}
> {"jsonrpc":"2.0","method":"textDocument/didClose","params":{"textDocument":{"uri":"file:///w/p/v1/%61.proto"}}}
> {"jsonrpc":"2.0","method":"textDocument/didChange","params":{"textDocument":{"uri":"file:///w/p/v1/a.proto","version":6},"contentChanges":[{"text":"syntax = \"proto3\"; package p.v1; message A {}"}]}}
= 1 refused"#;

pub(crate) const MESSAGES_THAT_FOLLOW: &str = r#"# messages that follow
> {"jsonrpc":"2.0","id":1,"method":"initialize","params":{"rootUri":"file:///w","capabilities":{}}}
< {"id":1,"jsonrpc":"2.0","result":{"capabilities":{"codeActionProvider":{"codeActionKinds":["quickfix","refactor"]},"definitionProvider":true,"documentSymbolProvider":true,"positionEncoding":"utf-16","referencesProvider":true,"renameProvider":{"prepareProvider":true},"textDocumentSync":{"change":1,"openClose":true,"save":{"includeText":false}}},"serverInfo":{"name":"protoref_serve"}}}
+ {"jsonrpc":"2.0","method":"textDocument/didOpen","params":{"textDocument":{"uri":"file:///w/p/v1/a.proto","languageId":"","version":1,"text":"message A {"}}}
+ {"jsonrpc":"2.0","method":"textDocument/didChange","params":{"textDocument":{"uri":"file:///w/p/v1/a.proto","version":2},"contentChanges":[{"text":"syntax = \"proto3\"; package p.v1; message A {}"}]}}
+ {"jsonrpc":"2.0","method":"textDocument/didChange","params":{"textDocument":{"uri":"file:///w/p/v1/a.proto","version":3},"contentChanges":[{"text":"message A { "}]}}
> {"jsonrpc":"2.0","id":2,"method":"no/method"}
< {"error":{"code":-32601,"message":"the method is not known"},"id":2,"jsonrpc":"2.0"}
< {"jsonrpc":"2.0","method":"textDocument/publishDiagnostics","params":{"diagnostics":[{"code":"Syntax","message":"8 Syntax","range":{"end":{"character":12,"line":0},"start":{"character":12,"line":0}},"severity":1,"source":"protoref"}],"uri":"file:///w/p/v1/a.proto","version":3}}
> {"jsonrpc":"2.0","id":3,"method":"no/method"}
< {"error":{"code":-32601,"message":"the method is not known"},"id":3,"jsonrpc":"2.0"}
> {"jsonrpc":"2.0","method":"textDocument/didChange","params":{"textDocument":{"uri":"file:///w/p/v1/a.proto","version":9},"contentChanges":[]}}
< {"jsonrpc":"2.0","method":"textDocument/publishDiagnostics","params":{"diagnostics":[{"code":"Syntax","message":"8 Syntax","range":{"end":{"character":12,"line":0},"start":{"character":12,"line":0}},"severity":1,"source":"protoref"}],"uri":"file:///w/p/v1/a.proto","version":9}}
= 1"#;

pub(crate) const A_FOLDER_THAT_VANISHES: &str = r#"# a folder that vanishes
> {"jsonrpc":"2.0","id":1,"method":"initialize","params":{"rootUri":"file:///w","capabilities":{}}}
< {"id":1,"jsonrpc":"2.0","result":{"capabilities":{"codeActionProvider":{"codeActionKinds":["quickfix","refactor"]},"definitionProvider":true,"documentSymbolProvider":true,"positionEncoding":"utf-16","referencesProvider":true,"renameProvider":{"prepareProvider":true},"textDocumentSync":{"change":1,"openClose":true,"save":{"includeText":false}}},"serverInfo":{"name":"protoref_serve"}}}
! {"jsonrpc":"2.0","method":"initialized","params":{}}
< {"jsonrpc":"2.0","method":"window/showMessage","params":{"message":"protoref_serve cannot read the folder of the schemas","type":2}}
! {"jsonrpc":"2.0","method":"textDocument/didOpen","params":{"textDocument":{"uri":"file:///w/p/v1/a.proto","languageId":"","version":1,"text":"syntax = \"proto3\"; package p.v1; message A {}"}}}
! {"jsonrpc":"2.0","id":2,"method":"textDocument/rename","params":{"textDocument":{"uri":"file:///w/p/v1/a.proto"},"position":{"line":0,"character":41},"newName":"C"}}
< {"error":{"code":-32803,"message":"protoref_serve cannot read the folder of the schemas"},"id":2,"jsonrpc":"2.0"}
> {"jsonrpc":"2.0","id":3,"method":"textDocument/rename","params":{"textDocument":{"uri":"file:///w/p/v1/a.proto"},"position":{"line":0,"character":41},"newName":"C"}}
< {"id":3,"jsonrpc":"2.0","result":{"documentChanges":[{"edits":[{"newText":"C","range":{"end":{"character":42,"line":0},"start":{"character":41,"line":0}}}],"textDocument":{"uri":"file:///w/p/v1/a.proto","version":1}},{"edits":[{"newText":"C","range":{"end":{"character":69,"line":0},"start":{"character":68,"line":0}}}],"textDocument":{"uri":"file:///w/p/v1/b.proto","version":null}}]}}
! {"jsonrpc":"2.0","method":"textDocument/didSave","params":{"textDocument":{"uri":"file:///w/p/v1/a.proto"}}}
< {"jsonrpc":"2.0","method":"window/showMessage","params":{"message":"protoref_serve cannot read the folder of the schemas","type":2}}
> {"jsonrpc":"2.0","id":4,"method":"textDocument/rename","params":{"textDocument":{"uri":"file:///w/p/v1/a.proto"},"position":{"line":0,"character":41},"newName":"C"}}
< {"id":4,"jsonrpc":"2.0","result":{"documentChanges":[{"edits":[{"newText":"C","range":{"end":{"character":42,"line":0},"start":{"character":41,"line":0}}}],"textDocument":{"uri":"file:///w/p/v1/a.proto","version":1}},{"edits":[{"newText":"C","range":{"end":{"character":69,"line":0},"start":{"character":68,"line":0}}}],"textDocument":{"uri":"file:///w/p/v1/b.proto","version":null}}]}}
= 1"#;

pub(crate) const TEXTS_THAT_ARE_NO_SCHEMAS: &str = r#"# texts that are no schemas
> {"jsonrpc":"2.0","id":1,"method":"initialize","params":{"rootUri":"file:///w","capabilities":{}}}
< {"id":1,"jsonrpc":"2.0","result":{"capabilities":{"codeActionProvider":{"codeActionKinds":["quickfix","refactor"]},"definitionProvider":true,"documentSymbolProvider":true,"positionEncoding":"utf-16","referencesProvider":true,"renameProvider":{"prepareProvider":true},"textDocumentSync":{"change":1,"openClose":true,"save":{"includeText":false}}},"serverInfo":{"name":"protoref_serve"}}}
> {"jsonrpc":"2.0","method":"initialized","params":{}}
> {"jsonrpc":"2.0","method":"textDocument/didOpen","params":{"textDocument":{"uri":"untitled:1","languageId":"","version":1,"text":"message A {"}}}
> {"jsonrpc":"2.0","method":"textDocument/didChange","params":{"textDocument":{"uri":"untitled:1","version":2},"contentChanges":[{"text":"message A {"}]}}
> {"jsonrpc":"2.0","id":"d","method":"textDocument/definition","params":{"textDocument":{"uri":"untitled:1"},"position":{"line":0,"character":8}}}
< {"id":"d","jsonrpc":"2.0","result":null}
> {"jsonrpc":"2.0","id":"r","method":"textDocument/rename","params":{"textDocument":{"uri":"untitled:1"},"position":{"line":0,"character":8},"newName":"C"}}
< {"id":"r","jsonrpc":"2.0","result":null}
> {"jsonrpc":"2.0","id":"s","method":"textDocument/documentSymbol","params":{"textDocument":{"uri":"untitled:1"}}}
< {"id":"s","jsonrpc":"2.0","result":null}
> {"jsonrpc":"2.0","method":"textDocument/didClose","params":{"textDocument":{"uri":"untitled:1"}}}
> {"jsonrpc":"2.0","method":"textDocument/didOpen","params":{"textDocument":{"uri":"file:///elsewhere/a.proto","languageId":"","version":1,"text":"message A {"}}}
> {"jsonrpc":"2.0","method":"textDocument/didChange","params":{"textDocument":{"uri":"file:///elsewhere/a.proto","version":2},"contentChanges":[{"text":"message A {"}]}}
> {"jsonrpc":"2.0","id":"d","method":"textDocument/definition","params":{"textDocument":{"uri":"file:///elsewhere/a.proto"},"position":{"line":0,"character":8}}}
< {"id":"d","jsonrpc":"2.0","result":null}
> {"jsonrpc":"2.0","id":"r","method":"textDocument/rename","params":{"textDocument":{"uri":"file:///elsewhere/a.proto"},"position":{"line":0,"character":8},"newName":"C"}}
< {"id":"r","jsonrpc":"2.0","result":null}
> {"jsonrpc":"2.0","id":"s","method":"textDocument/documentSymbol","params":{"textDocument":{"uri":"file:///elsewhere/a.proto"}}}
< {"id":"s","jsonrpc":"2.0","result":null}
> {"jsonrpc":"2.0","method":"textDocument/didClose","params":{"textDocument":{"uri":"file:///elsewhere/a.proto"}}}
> {"jsonrpc":"2.0","method":"textDocument/didOpen","params":{"textDocument":{"uri":"file:///w/a.txt","languageId":"","version":1,"text":"message A {"}}}
> {"jsonrpc":"2.0","method":"textDocument/didChange","params":{"textDocument":{"uri":"file:///w/a.txt","version":2},"contentChanges":[{"text":"message A {"}]}}
> {"jsonrpc":"2.0","id":"d","method":"textDocument/definition","params":{"textDocument":{"uri":"file:///w/a.txt"},"position":{"line":0,"character":8}}}
< {"id":"d","jsonrpc":"2.0","result":null}
> {"jsonrpc":"2.0","id":"r","method":"textDocument/rename","params":{"textDocument":{"uri":"file:///w/a.txt"},"position":{"line":0,"character":8},"newName":"C"}}
< {"id":"r","jsonrpc":"2.0","result":null}
> {"jsonrpc":"2.0","id":"s","method":"textDocument/documentSymbol","params":{"textDocument":{"uri":"file:///w/a.txt"}}}
< {"id":"s","jsonrpc":"2.0","result":null}
> {"jsonrpc":"2.0","method":"textDocument/didClose","params":{"textDocument":{"uri":"file:///w/a.txt"}}}
> {"jsonrpc":"2.0","method":"textDocument/didOpen","params":{"textDocument":{"uri":"file:///w/.a.proto","languageId":"","version":1,"text":"message A {"}}}
> {"jsonrpc":"2.0","method":"textDocument/didChange","params":{"textDocument":{"uri":"file:///w/.a.proto","version":2},"contentChanges":[{"text":"message A {"}]}}
> {"jsonrpc":"2.0","id":"d","method":"textDocument/definition","params":{"textDocument":{"uri":"file:///w/.a.proto"},"position":{"line":0,"character":8}}}
< {"id":"d","jsonrpc":"2.0","result":null}
> {"jsonrpc":"2.0","id":"r","method":"textDocument/rename","params":{"textDocument":{"uri":"file:///w/.a.proto"},"position":{"line":0,"character":8},"newName":"C"}}
< {"id":"r","jsonrpc":"2.0","result":null}
> {"jsonrpc":"2.0","id":"s","method":"textDocument/documentSymbol","params":{"textDocument":{"uri":"file:///w/.a.proto"}}}
< {"id":"s","jsonrpc":"2.0","result":null}
> {"jsonrpc":"2.0","method":"textDocument/didClose","params":{"textDocument":{"uri":"file:///w/.a.proto"}}}
> {"jsonrpc":"2.0","method":"textDocument/didOpen","params":{"textDocument":{"uri":"file:///w/p/../a.proto","languageId":"","version":1,"text":"message A {"}}}
> {"jsonrpc":"2.0","method":"textDocument/didChange","params":{"textDocument":{"uri":"file:///w/p/../a.proto","version":2},"contentChanges":[{"text":"message A {"}]}}
> {"jsonrpc":"2.0","id":"d","method":"textDocument/definition","params":{"textDocument":{"uri":"file:///w/p/../a.proto"},"position":{"line":0,"character":8}}}
< {"id":"d","jsonrpc":"2.0","result":null}
> {"jsonrpc":"2.0","id":"r","method":"textDocument/rename","params":{"textDocument":{"uri":"file:///w/p/../a.proto"},"position":{"line":0,"character":8},"newName":"C"}}
< {"id":"r","jsonrpc":"2.0","result":null}
> {"jsonrpc":"2.0","id":"s","method":"textDocument/documentSymbol","params":{"textDocument":{"uri":"file:///w/p/../a.proto"}}}
< {"id":"s","jsonrpc":"2.0","result":null}
> {"jsonrpc":"2.0","method":"textDocument/didClose","params":{"textDocument":{"uri":"file:///w/p/../a.proto"}}}
> {"jsonrpc":"2.0","method":"textDocument/didOpen","params":{"textDocument":{"uri":"file:///w/%ff.proto","languageId":"","version":1,"text":"message A {"}}}
> {"jsonrpc":"2.0","method":"textDocument/didChange","params":{"textDocument":{"uri":"file:///w/%ff.proto","version":2},"contentChanges":[{"text":"message A {"}]}}
> {"jsonrpc":"2.0","id":"d","method":"textDocument/definition","params":{"textDocument":{"uri":"file:///w/%ff.proto"},"position":{"line":0,"character":8}}}
< {"id":"d","jsonrpc":"2.0","result":null}
> {"jsonrpc":"2.0","id":"r","method":"textDocument/rename","params":{"textDocument":{"uri":"file:///w/%ff.proto"},"position":{"line":0,"character":8},"newName":"C"}}
< {"id":"r","jsonrpc":"2.0","result":null}
> {"jsonrpc":"2.0","id":"s","method":"textDocument/documentSymbol","params":{"textDocument":{"uri":"file:///w/%ff.proto"}}}
< {"id":"s","jsonrpc":"2.0","result":null}
> {"jsonrpc":"2.0","method":"textDocument/didClose","params":{"textDocument":{"uri":"file:///w/%ff.proto"}}}
= 1"#;

pub(crate) const BYTES_AS_UNITS: &str = r#"# bytes as units
> {"jsonrpc":"2.0","id":1,"method":"initialize","params":{"rootUri":"file:///w","capabilities":{"general":{"positionEncodings":["utf-32","utf-8"]}}}}
< {"id":1,"jsonrpc":"2.0","result":{"capabilities":{"codeActionProvider":{"codeActionKinds":["quickfix","refactor"]},"definitionProvider":true,"documentSymbolProvider":true,"positionEncoding":"utf-8","referencesProvider":true,"renameProvider":{"prepareProvider":true},"textDocumentSync":{"change":1,"openClose":true,"save":{"includeText":false}}},"serverInfo":{"name":"protoref_serve"}}}
> {"jsonrpc":"2.0","method":"initialized","params":{}}
> {"jsonrpc":"2.0","method":"textDocument/didOpen","params":{"textDocument":{"uri":"file:///w/p/v1/a.proto","languageId":"","version":1,"text":"/* é */ message A {"}}}
< {"jsonrpc":"2.0","method":"textDocument/publishDiagnostics","params":{"diagnostics":[{"code":"Syntax","message":"8 Syntax","range":{"end":{"character":20,"line":0},"start":{"character":20,"line":0}},"severity":1,"source":"protoref"}],"uri":"file:///w/p/v1/a.proto","version":1}}
= 1"#;

pub(crate) const FINDINGS: &str = r#"# findings
> {"jsonrpc":"2.0","id":1,"method":"initialize","params":{"rootUri":"file:///w","capabilities":{}}}
< {"id":1,"jsonrpc":"2.0","result":{"capabilities":{"codeActionProvider":{"codeActionKinds":["quickfix","refactor"]},"definitionProvider":true,"documentSymbolProvider":true,"positionEncoding":"utf-16","referencesProvider":true,"renameProvider":{"prepareProvider":true},"textDocumentSync":{"change":1,"openClose":true,"save":{"includeText":false}}},"serverInfo":{"name":"protoref_serve"}}}
> {"jsonrpc":"2.0","method":"initialized","params":{}}
> {"jsonrpc":"2.0","method":"textDocument/didOpen","params":{"textDocument":{"uri":"file:///w/p/v1/a.proto","languageId":"","version":1,"text":"syntax = \"proto3\"; package p.v1; message A {} message b {}"}}}
< {"jsonrpc":"2.0","method":"textDocument/publishDiagnostics","params":{"diagnostics":[{"code":"MESSAGE_PASCAL_CASE","message":"MESSAGE_PASCAL_CASE p.v1.b","range":{"end":{"character":55,"line":0},"start":{"character":54,"line":0}},"severity":2,"source":"protoref"}],"uri":"file:///w/p/v1/a.proto","version":1}}
> {"jsonrpc":"2.0","method":"textDocument/didChange","params":{"textDocument":{"uri":"file:///w/p/v1/a.proto","version":2},"contentChanges":[{"text":"syntax = \"proto3\"; package p.v1; message A {} message C {}"}]}}
< {"jsonrpc":"2.0","method":"textDocument/publishDiagnostics","params":{"diagnostics":[],"uri":"file:///w/p/v1/a.proto"}}
= 1"#;

pub(crate) const WHAT_STANDS_THERE: &str = r#"# what stands there
> {"jsonrpc":"2.0","id":1,"method":"initialize","params":{"rootUri":"file:///w","capabilities":{}}}
< {"id":1,"jsonrpc":"2.0","result":{"capabilities":{"codeActionProvider":{"codeActionKinds":["quickfix","refactor"]},"definitionProvider":true,"documentSymbolProvider":true,"positionEncoding":"utf-16","referencesProvider":true,"renameProvider":{"prepareProvider":true},"textDocumentSync":{"change":1,"openClose":true,"save":{"includeText":false}}},"serverInfo":{"name":"protoref_serve"}}}
> {"jsonrpc":"2.0","method":"initialized","params":{}}
> {"jsonrpc":"2.0","method":"textDocument/didOpen","params":{"textDocument":{"uri":"file:///w/shop/v1/money.proto","languageId":"","version":1,"text":"syntax = \"proto3\";\npackage shop.v1;\n\nmessage Money {\n  int64 units = 1;\n  int32 nanos = 2;\n}\n"}}}
> {"jsonrpc":"2.0","method":"textDocument/didOpen","params":{"textDocument":{"uri":"file:///w/shop/v1/order.proto","languageId":"","version":1,"text":"syntax = \"proto3\";\npackage shop.v1;\n\nimport \"shop/v1/money.proto\";\n\nmessage Order {\n  Money price = 1;\n  /* 😀 */ Money tax = 2;\n}\n"}}}
> {"jsonrpc":"2.0","id":2,"method":"textDocument/definition","params":{"textDocument":{"uri":"file:///w/shop/v1/order.proto"},"position":{"line":7,"character":11}}}
< {"id":2,"jsonrpc":"2.0","result":[{"range":{"end":{"character":13,"line":3},"start":{"character":8,"line":3}},"uri":"file:///w/shop/v1/money.proto"}]}
> {"jsonrpc":"2.0","id":3,"method":"textDocument/definition","params":{"textDocument":{"uri":"file:///w/shop/v1/order.proto"},"position":{"line":6,"character":8}}}
< {"id":3,"jsonrpc":"2.0","result":[{"range":{"end":{"character":13,"line":6},"start":{"character":8,"line":6}},"uri":"file:///w/shop/v1/order.proto"}]}
> {"jsonrpc":"2.0","id":4,"method":"textDocument/definition","params":{"textDocument":{"uri":"file:///w/shop/v1/order.proto"},"position":{"line":3,"character":0}}}
< {"id":4,"jsonrpc":"2.0","result":null}
> {"jsonrpc":"2.0","id":5,"method":"textDocument/references","params":{"textDocument":{"uri":"file:///w/shop/v1/money.proto"},"position":{"line":3,"character":8},"context":{"includeDeclaration":true}}}
< {"id":5,"jsonrpc":"2.0","result":[{"range":{"end":{"character":13,"line":3},"start":{"character":8,"line":3}},"uri":"file:///w/shop/v1/money.proto"},{"range":{"end":{"character":7,"line":6},"start":{"character":2,"line":6}},"uri":"file:///w/shop/v1/order.proto"},{"range":{"end":{"character":16,"line":7},"start":{"character":11,"line":7}},"uri":"file:///w/shop/v1/order.proto"}]}
> {"jsonrpc":"2.0","id":6,"method":"textDocument/references","params":{"textDocument":{"uri":"file:///w/shop/v1/money.proto"},"position":{"line":3,"character":8},"context":{"includeDeclaration":false}}}
< {"id":6,"jsonrpc":"2.0","result":[{"range":{"end":{"character":7,"line":6},"start":{"character":2,"line":6}},"uri":"file:///w/shop/v1/order.proto"},{"range":{"end":{"character":16,"line":7},"start":{"character":11,"line":7}},"uri":"file:///w/shop/v1/order.proto"}]}
> {"jsonrpc":"2.0","id":7,"method":"textDocument/prepareRename","params":{"textDocument":{"uri":"file:///w/shop/v1/order.proto"},"position":{"line":7,"character":11}}}
< {"id":7,"jsonrpc":"2.0","result":{"placeholder":"Money","range":{"end":{"character":16,"line":7},"start":{"character":11,"line":7}}}}
> {"jsonrpc":"2.0","id":8,"method":"textDocument/prepareRename","params":{"textDocument":{"uri":"file:///w/shop/v1/order.proto"},"position":{"line":3,"character":8}}}
< {"id":8,"jsonrpc":"2.0","result":null}
> {"jsonrpc":"2.0","id":9,"method":"textDocument/rename","params":{"textDocument":{"uri":"file:///w/shop/v1/order.proto"},"position":{"line":6,"character":2},"newName":"Amount"}}
< {"id":9,"jsonrpc":"2.0","result":{"documentChanges":[{"edits":[{"newText":"Amount","range":{"end":{"character":13,"line":3},"start":{"character":8,"line":3}}}],"textDocument":{"uri":"file:///w/shop/v1/money.proto","version":1}},{"edits":[{"newText":"Amount","range":{"end":{"character":7,"line":6},"start":{"character":2,"line":6}}},{"newText":"Amount","range":{"end":{"character":16,"line":7},"start":{"character":11,"line":7}}}],"textDocument":{"uri":"file:///w/shop/v1/order.proto","version":1}}]}}
> {"jsonrpc":"2.0","id":10,"method":"textDocument/rename","params":{"textDocument":{"uri":"file:///w/shop/v1/money.proto"},"position":{"line":5,"character":2},"newName":"Amount"}}
< {"error":{"code":-32803,"message":"no name that may be renamed stands here"},"id":10,"jsonrpc":"2.0"}
> {"jsonrpc":"2.0","id":11,"method":"textDocument/codeAction","params":{"textDocument":{"uri":"file:///w/shop/v1/money.proto"},"range":{"start":{"line":4,"character":8},"end":{"line":4,"character":8}},"context":{"diagnostics":[]}}}
< {"id":11,"jsonrpc":"2.0","result":[{"edit":{"documentChanges":[{"edits":[{"newText":"reserved 1; reserved \"units\";","range":{"end":{"character":18,"line":4},"start":{"character":2,"line":4}}}],"textDocument":{"uri":"file:///w/shop/v1/money.proto","version":1}}]},"kind":"refactor","title":"Delete the field and reserve its number and name"}]}
> {"jsonrpc":"2.0","id":12,"method":"textDocument/codeAction","params":{"textDocument":{"uri":"file:///w/shop/v1/money.proto"},"range":{"start":{"line":3,"character":8},"end":{"line":3,"character":8}},"context":{"diagnostics":[]}}}
< {"id":12,"jsonrpc":"2.0","result":[]}
> {"jsonrpc":"2.0","id":13,"method":"textDocument/documentSymbol","params":{"textDocument":{"uri":"file:///w/shop/v1/money.proto"}}}
< {"id":13,"jsonrpc":"2.0","result":[{"children":[],"kind":4,"name":"shop","range":{"end":{"character":12,"line":1},"start":{"character":8,"line":1}},"selectionRange":{"end":{"character":12,"line":1},"start":{"character":8,"line":1}}},{"children":[],"kind":4,"name":"v1","range":{"end":{"character":15,"line":1},"start":{"character":13,"line":1}},"selectionRange":{"end":{"character":15,"line":1},"start":{"character":13,"line":1}}},{"children":[],"kind":23,"name":"Money","range":{"end":{"character":13,"line":3},"start":{"character":8,"line":3}},"selectionRange":{"end":{"character":13,"line":3},"start":{"character":8,"line":3}}},{"children":[],"kind":8,"name":"units","range":{"end":{"character":13,"line":4},"start":{"character":8,"line":4}},"selectionRange":{"end":{"character":13,"line":4},"start":{"character":8,"line":4}}},{"children":[],"kind":8,"name":"nanos","range":{"end":{"character":13,"line":5},"start":{"character":8,"line":5}},"selectionRange":{"end":{"character":13,"line":5},"start":{"character":8,"line":5}}}]}
> {"jsonrpc":"2.0","method":"textDocument/didChange","params":{"textDocument":{"uri":"file:///w/shop/v1/order.proto","version":2},"contentChanges":[{"text":"syntax = \"proto3\";\npackage shop.v1;\n\nimport \"shop/v1/money.proto\";\n\nmessage Order {\n}\n"}]}}
< {"jsonrpc":"2.0","method":"textDocument/publishDiagnostics","params":{"diagnostics":[{"code":"IMPORT_USED","message":"IMPORT_USED shop/v1/money.proto","range":{"end":{"character":6,"line":3},"start":{"character":0,"line":3}},"severity":2,"source":"protoref"}],"uri":"file:///w/shop/v1/order.proto","version":2}}
> {"jsonrpc":"2.0","method":"textDocument/didChange","params":{"textDocument":{"uri":"file:///w/shop/v1/money.proto","version":2},"contentChanges":[{"text":"syntax = \"proto3\";\npackage shop.v1;\n\nmessage Money {\n  int64 units = 1;\n  int32 nanos = 2;\n}\n\n"}]}}
> {"jsonrpc":"2.0","id":14,"method":"textDocument/codeAction","params":{"textDocument":{"uri":"file:///w/shop/v1/order.proto"},"range":{"start":{"line":3,"character":0},"end":{"line":3,"character":0}},"context":{"diagnostics":[]}}}
< {"id":14,"jsonrpc":"2.0","result":[{"edit":{"documentChanges":[{"edits":[{"newText":"","range":{"end":{"character":29,"line":3},"start":{"character":0,"line":3}}}],"textDocument":{"uri":"file:///w/shop/v1/order.proto","version":2}}]},"kind":"quickfix","title":"Drop the unused import"}]}
> {"jsonrpc":"2.0","id":15,"method":"textDocument/codeAction","params":{"textDocument":{"uri":"file:///w/shop/v1/order.proto"},"range":{"start":{"line":4,"character":0},"end":{"line":5,"character":0}},"context":{"diagnostics":[]}}}
< {"id":15,"jsonrpc":"2.0","result":[]}
= 1"#;
