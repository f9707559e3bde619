//! Frames as editors sent them, byte for byte: each is read, and written again as it was.

use crate::expecting::expect_that;
use proto_frames::{read_frame, write_frame};
use std::process::Abort;

/// What neovim 0.7.2 sent after `initialize`, of a file `a b#é.proto`.
const NEOVIM: &str = "\
Content-Length: 52\r\n\r\n{\"jsonrpc\":\"2.0\",\"method\":\"initialized\",\"params\":{}}\
Content-Length: 204\r\n\r\n{\"jsonrpc\":\"2.0\",\"method\":\"textDocument\\/didOpen\",\"params\":{\"textDocument\":{\"uri\":\"file:\\/\\/\\/ws\\/shop\\/a%20b%23%c3%a9.proto\",\"text\":\"syntax = \\\"proto3\\\";\\nmessage A {\\n}\\n\",\"languageId\":\"\",\"version\":0}}}\
Content-Length: 184\r\n\r\n{\"id\":2,\"method\":\"textDocument\\/rename\",\"params\":{\"newName\":\"X\",\"position\":{\"character\":0,\"line\":0},\"textDocument\":{\"uri\":\"file:\\/\\/\\/ws\\/shop\\/a%20b%23%c3%a9.proto\"}},\"jsonrpc\":\"2.0\"}\
Content-Length: 211\r\n\r\n{\"jsonrpc\":\"2.0\",\"method\":\"textDocument\\/didChange\",\"params\":{\"contentChanges\":[{\"text\":\"syntax = \\\"proto3\\\";\\nmessage Z {\\n}\\n\"}],\"textDocument\":{\"uri\":\"file:\\/\\/\\/ws\\/shop\\/a%20b%23%c3%a9.proto\",\"version\":5}}}\
Content-Length: 128\r\n\r\n{\"jsonrpc\":\"2.0\",\"method\":\"textDocument\\/didSave\",\"params\":{\"textDocument\":{\"uri\":\"file:\\/\\/\\/ws\\/shop\\/a%20b%23%c3%a9.proto\"}}}\
Content-Length: 44\r\n\r\n{\"id\":3,\"method\":\"shutdown\",\"jsonrpc\":\"2.0\"}\
Content-Length: 33\r\n\r\n{\"jsonrpc\":\"2.0\",\"method\":\"exit\"}";

/// What Emacs 28 with eglot 1.9 sent after `initialize`, of a file with CR LF.
const EMACS: &str = "\
Content-Length: 52\r\n\r\n{\"jsonrpc\":\"2.0\",\"method\":\"initialized\",\"params\":{}}\
Content-Length: 206\r\n\r\n{\"jsonrpc\":\"2.0\",\"method\":\"textDocument/didOpen\",\"params\":{\"textDocument\":{\"uri\":\"file:///ws/shop/a.proto\",\"version\":0,\"languageId\":\"proto\",\"text\":\"syntax = \\\"proto3\\\";\\nmessage A {\\n  int32 b = 1;\\n}\\n\"}}}\
Content-Length: 86\r\n\r\n{\"jsonrpc\":\"2.0\",\"method\":\"workspace/didChangeConfiguration\",\"params\":{\"settings\":{}}}\
Content-Length: 217\r\n\r\n{\"jsonrpc\":\"2.0\",\"method\":\"textDocument/didChange\",\"params\":{\"textDocument\":{\"uri\":\"file:///ws/shop/a.proto\",\"version\":1},\"contentChanges\":[{\"text\":\"// late\\nsyntax = \\\"proto3\\\";\\nmessage A {\\n  int32 b = 1;\\n}\\n\"}]}}\
Content-Length: 165\r\n\r\n{\"jsonrpc\":\"2.0\",\"id\":2,\"method\":\"textDocument/rename\",\"params\":{\"textDocument\":{\"uri\":\"file:///ws/shop/a.proto\"},\"position\":{\"line\":1,\"character\":0},\"newName\":\"X\"}}\
Content-Length: 231\r\n\r\n{\"jsonrpc\":\"2.0\",\"method\":\"textDocument/didChange\",\"params\":{\"textDocument\":{\"uri\":\"file:///ws/shop/a.proto\",\"version\":2},\"contentChanges\":[{\"text\":\"// late\\nsyntax = \\\"proto3\\\";\\nmessage A {\\n  reserved 1;\\n  reserved 2;\\n}\\n\"}]}}\
Content-Length: 196\r\n\r\n{\"jsonrpc\":\"2.0\",\"method\":\"textDocument/didSave\",\"params\":{\"text\":\"// late\\nsyntax = \\\"proto3\\\";\\nmessage A {\\n  reserved 1;\\n  reserved 2;\\n}\\n\",\"textDocument\":{\"uri\":\"file:///ws/shop/a.proto\"}}}\
Content-Length: 58\r\n\r\n{\"jsonrpc\":\"2.0\",\"id\":3,\"method\":\"shutdown\",\"params\":null}\
Content-Length: 47\r\n\r\n{\"jsonrpc\":\"2.0\",\"method\":\"exit\",\"params\":null}";

// Reads the next frame and writes it again. Answers how many bytes its content has.
fn pass_on<R: AllocGlobal + Abort>(rt: &R, from: &mut &[u8], to: &mut Vec<u8>) -> usize {
    let content = read_frame(rt.alloc(), from, 1000).expect(rt, "a frame");
    let content = content.expect(rt, "a frame");
    write_frame(rt.alloc(), to, content.as_slice()).expect(rt, "memory");
    content.len()
}

// The stream has contents of these lengths.
fn expect_passed<R: AllocGlobal + Abort>(rt: &R, stream: &[u8], lengths: &[usize]) {
    let mut from = stream;
    let mut to = Vec::new(rt.alloc());
    for length in lengths {
        let is_passed = pass_on(rt, &mut from, &mut to) == *length;
        expect_that(rt, is_passed, "a length");
    }
    expect_that(rt, from.is_empty() && to.as_slice() == stream, "all of it");
}

#[test]
fn recorded_frames_are_read(rt: HostRuntime) {
    let lengths = [52, 204, 184, 211, 128, 44, 33];
    expect_passed(&rt, NEOVIM.as_bytes(), &lengths);
    let lengths = [52, 206, 86, 217, 165, 231, 196, 58, 47];
    expect_passed(&rt, EMACS.as_bytes(), &lengths);
}
