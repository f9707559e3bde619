//! What a command still holds when its answer is made.

ghost use Rattle.std.specs.Prelude.{◌≡◌, None};

use proto_desc::CheckedSchema;
use proto_files::Files;
use std::mem;

/// What a run still holds when it has ended. A caller that goes on drops it by `release`; a program
/// that ends need not.
#[derive(Drop)]
pub struct Retained {
    files: Option<Files>,
    checked: Option<CheckedSchema>,
}

// Lets files go, by the call that proves no drop.
fn let_go(files: Option<Files>) {
    match files {
        Some(files) => files.release(),
        None => {}
    }
}

fn let_checked_go(checked: Option<CheckedSchema>) {
    match checked {
        Some(schema) => schema.release(),
        None => {}
    }
}

impl Retained {
    /// Nothing is held yet.
    pub fn new() -> Retained
        ensures files { result.files ≡ None }
        ensures checked { result.checked ≡ None }
    {
        Retained {
            files: None,
            checked: None,
        }
    }

    /// Keeps files, in place of any kept before.
    pub(crate) fn keep(&mut self, files: Files) {
        let_go(mem::replace(&mut self.files, Some(files)));
    }

    /// Keeps schemas without descriptors, in place of any kept before.
    pub(crate) fn keep_checked(&mut self, schema: CheckedSchema) {
        let_checked_go(mem::replace(&mut self.checked, Some(schema)));
    }

    /// Lets all of it go.
    pub fn release(self) {
        let_go(self.files);
        let_checked_go(self.checked);
    }
}
