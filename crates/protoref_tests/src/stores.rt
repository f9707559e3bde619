//! Stores with a journal, and what is asked of the program.

use crate::calls::given_files;
use protoref_commands::{Command, Edit, MemoryStore, RuleSet};
use std::process::Abort;

/// A file with one field, of 48 bytes.
pub(crate) const OLD: &str = "a.proto syntax = \"proto3\"; message A { string b_c = 1; }";

/// The same after the field's rename to `d_e`.
pub(crate) const NEW: &str = "a.proto syntax = \"proto3\"; message A { string d_e = 1; }";

/// The journal of that rename.
pub(crate) const LINE: &str =
    "{\"edit\":{\"kind\":\"rename\",\"name\":\"A.b_c\",\"to\":\"d_e\"},\"files\":[{\"after\":48,\"before\":48,\"path\":\"a.proto\",\"splices\":[{\"at\":38,\"new\":\"d_e\",\"old\":\"b_c\"}]}],\"state\":\"done\",\"version\":2}\n";

/// The same with the entry open.
pub(crate) const OPEN_LINE: &str =
    "{\"edit\":{\"kind\":\"rename\",\"name\":\"A.b_c\",\"to\":\"d_e\"},\"files\":[{\"after\":48,\"before\":48,\"path\":\"a.proto\",\"splices\":[{\"at\":38,\"new\":\"d_e\",\"old\":\"b_c\"}]}],\"state\":\"open\",\"version\":2}\n";

/// The journal of that rename in the first version, which does not tell it.
pub(crate) const FIRST_LINE: &str =
    "{\"files\":[{\"after\":48,\"before\":48,\"path\":\"a.proto\",\"splices\":[{\"at\":38,\"new\":\"d_e\",\"old\":\"b_c\"}]}],\"state\":\"done\",\"version\":1}\n";

/// The same with the entry open.
pub(crate) const FIRST_OPEN: &str =
    "{\"files\":[{\"after\":48,\"before\":48,\"path\":\"a.proto\",\"splices\":[{\"at\":38,\"new\":\"d_e\",\"old\":\"b_c\"}]}],\"state\":\"open\",\"version\":1}\n";

/// What becomes of the line of the first version in the second.
pub(crate) const NULL_LINE: &str =
    "{\"edit\":null,\"files\":[{\"after\":48,\"before\":48,\"path\":\"a.proto\",\"splices\":[{\"at\":38,\"new\":\"d_e\",\"old\":\"b_c\"}]}],\"state\":\"done\",\"version\":2}\n";

/// What a change of `a.proto` prints.
pub(crate) const CHANGED: &str = "changed a.proto\n";

/// What is printed of bytes that are no journal.
pub(crate) const NO_JOURNAL: &str = "journal: 1 BadJournal\n";

/// What is printed where the files are others than the last entry says.
pub(crate) const STALE: &str = "refused: 17 Stale\n";

/// That rename. What is asked is the words of a command line, without a root.
pub(crate) const RENAME: &str = "rename A.b_c d_e";

fn text<R: AllocGlobal + Abort>(rt: &R, word: Option<&str>) -> String {
    String::from_str(rt.alloc(), word.unwrap_or("")).expect(rt, "memory")
}

/// The command of these words.
pub(crate) fn command_of<R: AllocGlobal + Abort>(rt: &R, asked: &str) -> Command {
    let mut words = asked.split(' ');
    let command = words.next().unwrap_or("");
    let of = text(rt, words.next());
    let to = text(rt, words.next());
    match command {
        "rename" => Command::Edit(Edit::Rename { name: of, to }),
        "delete-field" => Command::Edit(Edit::DeleteField { name: of }),
        "add-import" => Command::Edit(Edit::AddImport { file: of, path: to }),
        "drop-import" => Command::Edit(Edit::DropImport { file: of, path: to }),
        "compile" => Command::Compile,
        "lint" => Command::Lint(RuleSet::all()),
        "undo" => Command::Undo,
        "log" => Command::Log,
        "recover" => Command::Recover,
        "migrate" => Command::Migrate,
        _ => panic!(rt; "no command {asked}"),
    }
}

/// Two texts, one behind the other.
pub(crate) fn joined_text<R: AllocGlobal + Abort>(rt: &R, first: &str, second: &str) -> String {
    let mut text = String::from_str(rt.alloc(), first).expect(rt, "memory");
    text.push_str(second).expect(rt, "memory");
    text
}

/// A store of these files and this journal.
pub(crate) fn store_of<R: AllocGlobal + Abort>(rt: &R, files: &str, journal: &str) -> MemoryStore {
    let journal = journal.as_bytes().to_vec(rt.alloc()).expect(rt, "memory");
    MemoryStore::new(rt.alloc(), given_files(rt, files), journal).expect(rt, "memory")
}
