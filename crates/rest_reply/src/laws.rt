//! Laws of replies. Each is a function without a body whose contract is what is proved.
ghost use Rattle.std.specs.Prelude.{◌≡◌, ◌++◌, true, false, codes, decimal, length};
ghost use Rattle.rest_message.specs.Replies.{ReplyText};
ghost use Rattle.rest_reply.specs.Replies.{HasField, head_of, reply_bytes};

/// With and without its body a reply has the same head, and the length that this head tells is that of the body: so a client
/// knows from either where the body ends (RFC 9110, sections 8.6 and 9.3.2).
pub fn replies_tell_their_length()
    ensures without_body { (reply : ReplyText) → reply_bytes reply true ≡ head_of reply }
    ensures with_body { (reply : ReplyText) → reply_bytes reply false ≡ head_of reply ++ reply.body }
    ensures length { (reply : ReplyText) → HasField (codes "Content-Length") (decimal (length reply.body)) (head_of reply) }
{}
