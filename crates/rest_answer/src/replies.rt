//! Replies that are made at once.
ghost use Rattle.std.specs.Prelude.{◌≡◌, IfOk, string_bytes};
ghost use Rattle.operator_answers.specs.AnswerTexts.{answer_text};
ghost use Rattle.rest_message.specs.Replies.{reply_text};
ghost use Rattle.rest_answer.specs.Replies.{json_of, text_of, status_alone};

use operator_answers::Text;
use rest_message::Reply;
use std::alloc::{AllocError, Global};

/// A reply with JSON.
pub fn json_reply(status: u16, text: String) -> Reply
    ensures { reply_text result ≡ json_of status (string_bytes text) }
{
    Reply {
        status,
        json: true,
        body: text,
    }
}

/// A reply with the words of an answer to operators. It fails only for want of memory.
pub fn text_reply(alloc: Global, status: u16, text: Text) -> Result<Reply, AllocError>
    ensures { IfOk result (λ reply. reply_text reply ≡ text_of status (answer_text text)) }
{
    let words = format!(in alloc; "{text}")?;
    Ok(Reply {
        status,
        json: false,
        body: words,
    })
}

/// A reply with no content.
pub(crate) fn status_reply(alloc: Global, status: u16) -> Reply
    ensures { reply_text result ≡ status_alone status }
{
    Reply {
        status,
        json: false,
        body: String::new(alloc),
    }
}
