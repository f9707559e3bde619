//! `protoref_serve`: a language server of Protocol Buffers schemas, over standard input and output.
#![tactic(auto)]

mod arguments;
mod folders;

use arguments::{UsageError, parse_arguments};
use folders::HostFolders;
use proto_base::Profile;
use proto_serving::{ServeFault, TakeFault, serve};
use proto_session::Server;
use std::fs::File;
use std::io::BufReader;
use std::process::ExitCode;
use std::rt::{Clock, Env, Files};
use std::{env, io};

/// The most bytes that a message has.
const MAX_MESSAGE_LEN: u64 = 67_108_864;

/// How many bytes of input are read at once.
const INPUT_LEN: usize = 65_536;

fn main(rt: HostRuntime) -> ExitCode {
    let asked = match words(&rt) {
        Ok(words) => parse_arguments(words),
        Err(fault) => Err(fault),
    };
    match asked {
        Ok((profile, root)) => ExitCode::from(run(&rt, profile, root)),
        Err(fault) => {
            let _ = eprintln!(rt; "protoref_serve: {fault}");
            ExitCode::from(2)
        }
    }
}

// The words of the command line, where they are texts.
fn words<R: Env + AllocGlobal>(rt: &R) -> Result<Vec<String>, UsageError> {
    match env::args(rt) {
        Ok(words) => Ok(words.collect(rt.alloc())?),
        Err(error) if error.kind() == io::ErrorKind::OutOfMemory => Err(UsageError::NoMemory),
        Err(_) => Err(UsageError::BadCommandLine),
    }
}

// Serves the client, whose schemas are of a language, and answers the exit status.
fn run<R: Files<File = File> + Clock + Input + Print + Eprint + AllocGlobal>(
    rt: &R,
    profile: Profile,
    root: Option<String>,
) -> u8 {
    let mut server = Server::new(rt.alloc(), profile, root, HostFolders::new(rt));
    let served = serve_client(rt, &mut server);
    let status = server.status();
    server.release();
    match served {
        Ok(()) => status,
        Err(fault) => {
            let _ = eprintln!(rt; "protoref_serve: {fault}");
            1
        }
    }
}

// Takes the messages of standard input, and writes the replies to standard output.
fn serve_client<'a, R: Files<File = File> + Clock + Input + Print + AllocGlobal>(
    rt: &'a R,
    server: &mut Server<HostFolders<'a, R>>,
) -> Result<(), ServeFault> {
    let Ok(mut reader) = BufReader::with_capacity(rt.alloc(), INPUT_LEN, rt.reader()) else {
        return Err(ServeFault::Take(TakeFault::NoMemory));
    };
    let mut writer = io::writer(rt);
    serve(
        rt.alloc(),
        &mut reader,
        &mut writer,
        server,
        MAX_MESSAGE_LEN,
    )
}
