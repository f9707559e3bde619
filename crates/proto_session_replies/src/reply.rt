//! What is replied to a request.

ghost use Rattle.std.specs.Prelude.{◌≡◌, [], ◌∷◌, IfOk};
ghost use Rattle.proto_messages.specs.Messages.{id_view};
ghost use Rattle.proto_session_replies.specs.Replies.{IsFailureOf, nameless_failure, reply_text};
ghost use Rattle.proto_serving.specs.Serving.{texts};

use proto_base::NoMemory;
use proto_messages::{Answer, ErrorCode, Id, error_message, result_message};
use std::alloc::Global;

/// What is replied to a request.
#[derive(Drop)]
pub enum Reply {
    /// Its result.
    Result(Answer),
    /// Why it has none.
    Failure(ErrorCode, String),
}

/// The message of a reply under the id of its request. Fails only when out of memory.
pub fn reply_message(alloc: Global, id: &Id, reply: &Reply) -> Result<Vec<u8>, NoMemory>
    ensures { IfOk result (λ text. text.items ≡ reply_text (id_view id.now) reply.now) }
{
    match reply {
        Reply::Result(answer) => Ok(result_message(alloc, id, answer)?),
        Reply::Failure(code, text) => Ok(error_message(alloc, Some(id), *code, text.as_str())?),
    }
}

/// A failure that says this.
pub fn failure(alloc: Global, code: ErrorCode, text: &str) -> Result<Reply, NoMemory>
    ensures { IfOk result (IsFailureOf code (λ said. said ≡ text.now)) }
{
    Ok(Reply::Failure(code, String::from_str(alloc, text)?))
}

/// The list of one message.
pub fn one(alloc: Global, message: Vec<u8>) -> Result<Vec<Vec<u8>>, NoMemory>
    ensures { IfOk result (λ all. texts all.items ≡ message.items ∷ []) }
{
    let mut all = Vec::new(alloc);
    all.push(message)?;
    Ok(all)
}

/// The failure of what is no request. Fails only when out of memory.
pub fn nameless_failure(
    alloc: Global,
    code: ErrorCode,
    text: &str,
) -> Result<Vec<Vec<u8>>, NoMemory>
    ensures { IfOk result (λ all. texts all.items ≡ nameless_failure code text.now) }
{
    let message = error_message(alloc, None, code, text)?;
    one(alloc, message)
}
