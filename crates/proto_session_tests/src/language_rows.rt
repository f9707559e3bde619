//! Sessions over schemas as written, and over the same in the core language.

pub(crate) const A_CUSTOM_OPTION: &str = r#"# a custom option
> {"jsonrpc":"2.0","id":1,"method":"initialize","params":{"rootUri":"file:///w","capabilities":{}}}
< {"id":1,"jsonrpc":"2.0","result":{"capabilities":{"codeActionProvider":{"codeActionKinds":["quickfix","refactor"]},"definitionProvider":true,"documentSymbolProvider":true,"positionEncoding":"utf-16","referencesProvider":true,"renameProvider":{"prepareProvider":true},"textDocumentSync":{"change":1,"openClose":true,"save":{"includeText":false}}},"serverInfo":{"name":"protoref_serve"}}}
> {"jsonrpc":"2.0","method":"initialized","params":{}}
> {"jsonrpc":"2.0","method":"textDocument/didOpen","params":{"textDocument":{"uri":"file:///w/p/v1/a.proto","languageId":"","version":1,"text":"syntax = \"proto3\"; package p.v1; message A {} option (x.y) = { b: 1 };"}}}
< {"jsonrpc":"2.0","method":"textDocument/publishDiagnostics","params":{"diagnostics":[{"code":"Unresolved","message":"14 Unresolved","range":{"end":{"character":55,"line":0},"start":{"character":54,"line":0}},"severity":1,"source":"protoref"}],"uri":"file:///w/p/v1/a.proto","version":1}}
> {"jsonrpc":"2.0","id":3,"method":"textDocument/rename","params":{"textDocument":{"uri":"file:///w/p/v1/b.proto"},"position":{"line":0,"character":68},"newName":"C"}}
< {"error":{"code":-32803,"message":"p/v1/a.proto:1:55: 14 Unresolved"},"id":3,"jsonrpc":"2.0"}
> {"jsonrpc":"2.0","method":"textDocument/didOpen","params":{"textDocument":{"uri":"file:///w/google/protobuf/d.proto","languageId":"","version":1,"text":"syntax = \"proto2\"; package google.protobuf; message FileOptions { extensions 1000; } extend FileOptions { optional O y = 1000; } message O { optional int32 b = 1; }"}}}
> {"jsonrpc":"2.0","method":"textDocument/didChange","params":{"textDocument":{"uri":"file:///w/p/v1/a.proto","version":2},"contentChanges":[{"text":"syntax = \"proto3\"; package p.v1; import \"google/protobuf/d.proto\"; message A {} option (google.protobuf.y) = { b: 1 };"}]}}
< {"jsonrpc":"2.0","method":"textDocument/publishDiagnostics","params":{"diagnostics":[{"code":"PACKAGE_VERSION_SUFFIX","message":"PACKAGE_VERSION_SUFFIX google.protobuf","range":{"end":{"character":33,"line":0},"start":{"character":27,"line":0}},"severity":2,"source":"protoref"}],"uri":"file:///w/google/protobuf/d.proto","version":1}}
< {"jsonrpc":"2.0","method":"textDocument/publishDiagnostics","params":{"diagnostics":[],"uri":"file:///w/p/v1/a.proto"}}
> {"jsonrpc":"2.0","id":4,"method":"textDocument/definition","params":{"textDocument":{"uri":"file:///w/p/v1/a.proto"},"position":{"line":0,"character":104}}}
< {"id":4,"jsonrpc":"2.0","result":[{"range":{"end":{"character":118,"line":0},"start":{"character":117,"line":0}},"uri":"file:///w/google/protobuf/d.proto"}]}
> {"jsonrpc":"2.0","id":5,"method":"textDocument/references","params":{"textDocument":{"uri":"file:///w/p/v1/a.proto"},"position":{"line":0,"character":104},"context":{"includeDeclaration":true}}}
< {"id":5,"jsonrpc":"2.0","result":[{"range":{"end":{"character":118,"line":0},"start":{"character":117,"line":0}},"uri":"file:///w/google/protobuf/d.proto"},{"range":{"end":{"character":105,"line":0},"start":{"character":104,"line":0}},"uri":"file:///w/p/v1/a.proto"}]}
> {"jsonrpc":"2.0","id":6,"method":"textDocument/definition","params":{"textDocument":{"uri":"file:///w/p/v1/a.proto"},"position":{"line":0,"character":111}}}
< {"id":6,"jsonrpc":"2.0","result":null}
> {"jsonrpc":"2.0","id":7,"method":"textDocument/rename","params":{"textDocument":{"uri":"file:///w/p/v1/a.proto"},"position":{"line":0,"character":104},"newName":"z"}}
< {"id":7,"jsonrpc":"2.0","result":{"documentChanges":[{"edits":[{"newText":"z","range":{"end":{"character":118,"line":0},"start":{"character":117,"line":0}}}],"textDocument":{"uri":"file:///w/google/protobuf/d.proto","version":1}},{"edits":[{"newText":"z","range":{"end":{"character":105,"line":0},"start":{"character":104,"line":0}}}],"textDocument":{"uri":"file:///w/p/v1/a.proto","version":2}}]}}
> {"jsonrpc":"2.0","id":8,"method":"textDocument/rename","params":{"textDocument":{"uri":"file:///w/p/v1/b.proto"},"position":{"line":0,"character":68},"newName":"C"}}
< {"id":8,"jsonrpc":"2.0","result":{"documentChanges":[{"edits":[{"newText":"C","range":{"end":{"character":76,"line":0},"start":{"character":75,"line":0}}}],"textDocument":{"uri":"file:///w/p/v1/a.proto","version":2}},{"edits":[{"newText":"C","range":{"end":{"character":69,"line":0},"start":{"character":68,"line":0}}}],"textDocument":{"uri":"file:///w/p/v1/b.proto","version":null}}]}}
> {"jsonrpc":"2.0","id":9,"method":"textDocument/rename","params":{"textDocument":{"uri":"file:///w/google/protobuf/d.proto"},"position":{"line":0,"character":156},"newName":"c"}}
< {"error":{"code":-32803,"message":"refused: 19 OptionValue p/v1/a.proto:1:112"},"id":9,"jsonrpc":"2.0"}
> {"jsonrpc":"2.0","id":10,"method":"textDocument/rename","params":{"textDocument":{"uri":"file:///w/google/protobuf/d.proto"},"position":{"line":0,"character":52},"newName":"F"}}
< {"error":{"code":-32803,"message":"refused: 20 FixedName"},"id":10,"jsonrpc":"2.0"}
> {"jsonrpc":"2.0","method":"textDocument/didChange","params":{"textDocument":{"uri":"file:///w/p/v1/a.proto","version":3},"contentChanges":[{"text":"syntax = \"proto3\"; package p.v1; import \"google/protobuf/d.proto\"; message A { option (google.protobuf.y) = { b: 1 }; }"}]}}
< {"jsonrpc":"2.0","method":"textDocument/publishDiagnostics","params":{"diagnostics":[{"code":"NotAnOption","message":"39 NotAnOption","range":{"end":{"character":93,"line":0},"start":{"character":87,"line":0}},"severity":1,"source":"protoref"}],"uri":"file:///w/p/v1/a.proto","version":3}}
< {"jsonrpc":"2.0","method":"textDocument/publishDiagnostics","params":{"diagnostics":[],"uri":"file:///w/google/protobuf/d.proto"}}
> {"jsonrpc":"2.0","method":"textDocument/didChange","params":{"textDocument":{"uri":"file:///w/p/v1/a.proto","version":4},"contentChanges":[{"text":"message A { option (x) = 1 }"}]}}
< {"jsonrpc":"2.0","method":"textDocument/publishDiagnostics","params":{"diagnostics":[{"code":"Syntax","message":"8 Syntax","range":{"end":{"character":18,"line":0},"start":{"character":12,"line":0}},"severity":1,"source":"protoref"}],"uri":"file:///w/p/v1/a.proto","version":4}}
= 1"#;

pub(crate) const A_CUSTOM_OPTION_IN_THE_CORE_LANGUAGE: &str =
    r#"# a custom option in the core language
> {"jsonrpc":"2.0","id":1,"method":"initialize","params":{"rootUri":"file:///w","capabilities":{}}}
< {"id":1,"jsonrpc":"2.0","result":{"capabilities":{"codeActionProvider":{"codeActionKinds":["quickfix","refactor"]},"definitionProvider":true,"documentSymbolProvider":true,"positionEncoding":"utf-16","referencesProvider":true,"renameProvider":{"prepareProvider":true},"textDocumentSync":{"change":1,"openClose":true,"save":{"includeText":false}}},"serverInfo":{"name":"protoref_serve"}}}
> {"jsonrpc":"2.0","method":"initialized","params":{}}
> {"jsonrpc":"2.0","method":"textDocument/didOpen","params":{"textDocument":{"uri":"file:///w/p/v1/a.proto","languageId":"","version":1,"text":"syntax = \"proto3\"; package p.v1; message A {} option (x.y) = { b: 1 };"}}}
< {"jsonrpc":"2.0","method":"textDocument/publishDiagnostics","params":{"diagnostics":[{"code":"BadChar","message":"3 BadChar","range":{"end":{"character":64,"line":0},"start":{"character":64,"line":0}},"severity":1,"source":"protoref"}],"uri":"file:///w/p/v1/a.proto","version":1}}
= 1"#;

pub(crate) const IMPORTS_OF_FILES_THAT_ARE_NOT_THERE: &str =
    r#"# imports of files that are not there
> {"jsonrpc":"2.0","id":1,"method":"initialize","params":{"rootUri":"file:///w","capabilities":{}}}
< {"id":1,"jsonrpc":"2.0","result":{"capabilities":{"codeActionProvider":{"codeActionKinds":["quickfix","refactor"]},"definitionProvider":true,"documentSymbolProvider":true,"positionEncoding":"utf-16","referencesProvider":true,"renameProvider":{"prepareProvider":true},"textDocumentSync":{"change":1,"openClose":true,"save":{"includeText":false}}},"serverInfo":{"name":"protoref_serve"}}}
> {"jsonrpc":"2.0","method":"initialized","params":{}}
> {"jsonrpc":"2.0","method":"textDocument/didOpen","params":{"textDocument":{"uri":"file:///w/p/v1/c.proto","languageId":"","version":1,"text":"syntax = \"proto3\"; package p.v1; import \"google/protobuf/empty.proto\"; import \"q.proto\";"}}}
< {"jsonrpc":"2.0","method":"textDocument/publishDiagnostics","params":{"diagnostics":[{"code":"UnknownImport","message":"10 UnknownImport. The files of google/protobuf are not bundled, and have to lie below ROOT.","range":{"end":{"character":40,"line":0},"start":{"character":40,"line":0}},"severity":1,"source":"protoref"},{"code":"UnknownImport","message":"10 UnknownImport","range":{"end":{"character":78,"line":0},"start":{"character":78,"line":0}},"severity":1,"source":"protoref"}],"uri":"file:///w/p/v1/c.proto","version":1}}
= 1"#;
