// The questions with an index given: 15 where it is not the stream's own.
ghost use Rattle.std.specs.Prelude.{◌≡◌};
ghost use Rattle.mrd_logic.specs.Answer.{and_then};
ghost use Rattle.mrd_index_match.specs.Compare.{file_match, columns_match};
ghost use Rattle.mrd_ask.specs.Questions.{ask_of};
ghost use Rattle.c_ask.specs.AskStructs.{question_of, c_reply};
ghost use Rattle.c_rules.specs.RulesStruct.{rules_of};

use c_ask::{Question, Reply};
use c_rules::Rules;

// The index as a file.
#[unsafe(no_mangle)]
pub extern "C" fn mrd_ask_with_file(
    rules: Rules,
    stream: &[u8],
    question: Question,
    file: &[u8],
) -> Reply
    ensures { result ≡ c_reply (and_then (file_match (rules_of rules) stream.now file.now) (λ _. ask_of (rules_of rules) stream.now (question_of question) question.counters)) }
{
    let asked = question.into();
    Reply::of(mrd_ask::ask_with_file(rules.into(), stream, asked, &question.counters, file))
}

// The index as three columns.
#[unsafe(no_mangle)]
pub extern "C" fn mrd_ask_with_columns(
    rules: Rules,
    stream: &[u8],
    question: Question,
    starts: &[u64],
    ids: &[u16],
    counters: &[u32],
) -> Reply
    ensures { result ≡ c_reply (and_then (columns_match (rules_of rules) stream.now starts.now ids.now counters.now) (λ _. ask_of (rules_of rules) stream.now (question_of question) question.counters)) }
{
    let asked = question.into();
    Reply::of(mrd_ask::ask_with_columns(
        rules.into(),
        stream,
        asked,
        &question.counters,
        starts,
        ids,
        counters,
    ))
}
