//! `protoref`: a compiler, a linter and an editor of Protocol Buffers schemas.
#![tactic(auto)]

mod errand;

ghost use Rattle.std.specs.Prelude.{◌≡◌, ◌≤◌, IfOk};

use errand::{Errand, Way, errand_for, way_for};
use proto_base::Profile;
use protoref_arguments::{UsageError, parse_arguments};
use protoref_commands::{
    Command, FolderStore, Retained, RunFault, Status, Store, StoreFault, fault_line, run_keeping,
    write_text,
};
use std::fs::File;
use std::process::ExitCode;
use std::rt::{Clock, Env, Files};
use std::{env, io, mem};

const BAD_COMMAND_LINE: &str = "protoref: bad command line";

/// What `protoref --version` prints. `VERSION`, at the top of the repository, has the same number.
const VERSION: &str = "protoref 0.2.0\n";

fn main(rt: HostRuntime) -> ExitCode {
    match answer(&rt) {
        Ok(code) => ExitCode::from(code),
        Err(line) => {
            let _ = rt.eprintln(line);
            ExitCode::from(2)
        }
    }
}

// The exit status, or the line for standard error.
fn answer<R: Files<File = File> + Env + Clock + Print + AllocGlobal>(
    rt: &R,
) -> Result<u8, &'static str> {
    let asked = match words(rt) {
        Ok(words) => parse_arguments(rt.alloc(), words.as_slice()),
        Err(fault) => Err(fault),
    };
    match asked {
        Ok((profile, request)) => carry_out(rt, profile, errand_for(request)),
        Err(UsageError::BadCommandLine) => Err(BAD_COMMAND_LINE),
        Err(UsageError::NoMemory) => Err(fault_line(&RunFault::NoMemory)),
    }
}

fn carry_out<R: Files<File = File> + Clock + Print + AllocGlobal>(
    rt: &R,
    profile: Profile,
    errand: Errand,
) -> Result<u8, &'static str> {
    match errand {
        Errand::Print(text) => print_text(rt, text.as_str()),
        Errand::PrintVersion => print_text(rt, VERSION),
        Errand::Run(command, root) => run_over(rt, profile, command, root.as_str()),
    }
}

// Prints a text on standard output.
fn print_text<R: Print>(rt: &R, text: &str) -> Result<u8, &'static str> {
    match write_text(&mut io::writer(rt), text.as_bytes()) {
        Ok(()) => Ok(0),
        Err(_) => Err(fault_line(&RunFault::Output)),
    }
}

// The words of the command line, where they are texts.
fn words<R: Env + AllocGlobal>(rt: &R) -> Result<Vec<String>, UsageError> {
    match env::args(rt) {
        Ok(words) => Ok(words.collect(rt.alloc())?),
        Err(error) if error.kind() == io::ErrorKind::OutOfMemory => Err(UsageError::NoMemory),
        Err(_) => Err(UsageError::BadCommandLine),
    }
}

// Runs a command over the folder at a path, whose files are of a language.
fn run_over<R: Files<File = File> + Clock + Print + AllocGlobal>(
    rt: &R,
    profile: Profile,
    command: Command,
    root: &str,
) -> Result<u8, &'static str> {
    let mut store = FolderStore::of_language(rt, root, profile);
    let mut kept = Retained::new();
    let code = match begin(&mut store, way_for(&command)) {
        Ok(()) => {
            let writer = &mut io::writer(rt);
            code_of(run_keeping(rt.alloc(), command, &mut store, writer, &mut kept))
        }
        Err(_) => Err(fault_line(&RunFault::Store)),
    };
    // The program ends here, so that what it held is not freed piece by piece.
    mem::forget(kept);
    code
}

// What comes before a command: one that writes takes the folder for itself, and removes what runs
// that were cut off have left there. A recovery goes on where some of that cannot be removed.
fn begin<'a, R: Files<File = File> + Clock + AllocGlobal>(
    store: &mut FolderStore<'a, R>,
    way: Way,
) -> Result<(), StoreFault>
    requires { ⟦<FolderStore<'a, R> as Store>⟧.failure_count store.old ≡ 0 }
    ensures { IfOk result (λ _.
        ⟦<FolderStore<'a, R> as Store>⟧.failure_count store.new ≤ 1) }
{
    match way {
        Way::Reads => Ok(()),
        Way::Changes => {
            store.lock()?;
            store.clear_leftovers()
        }
        Way::Recovers => {
            store.lock()?;
            match store.clear_leftovers() {
                Ok(()) => Ok(()),
                Err(_) => Ok(()),
            }
        }
    }
}

// The exit status of a run, or its line for standard error.
fn code_of(ended: Result<Status, RunFault>) -> Result<u8, &'static str> {
    match ended {
        Ok(status) => Ok(status.code()),
        Err(fault) => Err(fault_line(&fault)),
    }
}
