// A question with an index given: the stream's refusal, then 15 where the index is not the stream's own, then
// what is replied with none.
ghost use Rattle.mrd_logic.specs.Answer.{and_then};
ghost use Rattle.mrd_index_match.specs.Compare.{file_match, columns_match};
ghost use Rattle.mrd_ask.specs.Replies.{Says};
ghost use Rattle.mrd_ask.specs.Questions.{ask_of};

use crate::asked::ask;
use crate::question::{Question, Reply};
use mrd_format::Rules;
use mrd_index_match::{columns_match, index_matches};
use mrd_stream::Refused;

// The index as a file.
pub fn ask_with_file(
    rules: Rules,
    s: &[u8],
    question: Question,
    counters: &[u16; 17],
    file: &[u8],
) -> Result<Reply, Refused>
    ensures { Says result (and_then (file_match rules s.now file.now) (λ _. ask_of rules s.now question counters.now)) }
{
    index_matches(rules, s, file)?;
    ask(rules, s, question, counters)
}

// The index as three columns.
pub fn ask_with_columns(
    rules: Rules,
    s: &[u8],
    question: Question,
    counters: &[u16; 17],
    starts: &[u64],
    ids: &[u16],
    scan_counters: &[u32],
) -> Result<Reply, Refused>
    ensures { Says result (and_then (columns_match rules s.now starts.now ids.now scan_counters.now) (λ _. ask_of rules s.now question counters.now)) }
{
    columns_match(rules, s, starts, ids, scan_counters)?;
    ask(rules, s, question, counters)
}
