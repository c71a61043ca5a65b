// A view itself: the part of the stream that a reply says.
ghost use Rattle.std.specs.Prelude.{◌≡◌, ◌+◌, length};
ghost use Rattle.mrd_ask.specs.Replies.{meaning};
ghost use Rattle.mrd_ask.specs.Shown.{span_of, fitted, spanned};

use crate::question::Reply;
use mrd_stream::Refused;
use mrd_views::Span;

// That part of s where the reply is a view's place; of any other reply, and of a place outside s, the empty
// part at the front of s.
pub fn reply_view(s: &[u8], reply: Result<Reply, Refused>) -> &[u8]
    ensures result_value { result.now ≡ spanned (fitted (length s.now) (span_of (meaning reply))) s.now }
    ensures ref_ptr_value { (result.ref_ptr.0 ≡ s.entry.ref_ptr.0) × (result.ref_ptr.1 ≡ s.entry.ref_ptr.1 + (fitted (length s.now) (span_of (meaning reply))).start) }
{
    let span = span_of(reply);
    part_at(s, span)
}

fn span_of(reply: Result<Reply, Refused>) -> Span
    ensures { result ≡ span_of (meaning reply) }
{
    match reply {
        Ok(Reply::View(span)) => span,
        _ => Span {
            start: 0,
            length: 0,
        },
    }
}

// The bytes of s at this place, where s has them.
#[tactic(auto, unfolding(crate::specs::Shown::fitted))]
fn part_at(s: &[u8], span: Span) -> &[u8]
    ensures result_value { result.now ≡ spanned (fitted (length s.now) span) s.now }
    ensures ref_ptr_value { (result.ref_ptr.0 ≡ s.entry.ref_ptr.0) × (result.ref_ptr.1 ≡ s.entry.ref_ptr.1 + (fitted (length s.now) span).start) }
{
    let start = span.start;
    let length = span.length;
    if s.len() < start {
        return &s[..0];
    }
    if s.len() - start < length {
        return &s[..0];
    }
    let end = start + length;
    &s[start..end]
}
