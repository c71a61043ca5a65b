// A question with no index given: each kind of question by the function that answers it.
ghost use Rattle.mrd_ask.specs.Replies.{Says};
ghost use Rattle.mrd_ask.specs.Questions.{ask_of};

use crate::question::{Question, Reply};
use mrd_format::Rules;
use mrd_stream::Refused;

// The reply to a question about s; the counters are looked at where it is a search. Refused with a number alone, it
// is 16, 17 or 20.
#[tactic(auto, unfolding(crate::specs::Questions::ask_of))]
pub fn ask(
    rules: Rules,
    s: &[u8],
    question: Question,
    counters: &[u16; 17],
) -> Result<Reply, Refused>
    ensures { Says result (ask_of rules s.now question counters.now) }
{
    match question {
        Question::Place(n) => mrd_stream::place(rules, s, n).map(Reply::Place),
        Question::View(n, part) => mrd_views::view_place(rules, s, n, part).map(Reply::View),
        Question::Field(n, offset) => mrd_fields::field(rules, s, n, offset).map(Reply::Field),
        Question::Find(n) => mrd_find::find(rules, s, n, counters).map(Reply::Found),
    }
}
