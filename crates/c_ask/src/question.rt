// A question as a C struct.
ghost use Rattle.std.specs.Prelude.{◌≡◌};
ghost use Rattle.c_ask.specs.AskStructs.{question_of};

use c_record::part_of;

// What is asked: 1 the place and kind of record `number`, 2 where a part of it lies, 3 the element of its header
// that starts at `offset`, 4 the first acquisition from it on with these counters. Members that the question
// does not need are not looked at.
#[repr(C)]
#[derive(Clone, Copy)]
pub struct Question {
    pub what: u32,
    pub part: u32,
    pub number: usize,
    pub channel: usize,
    pub offset: usize,
    pub counters: [u16; 17],
}

// The question that a C struct stands for; any other `what` asks for a part that no record has.
impl From<Question> for mrd_ask::Question {
    ghost from_gives = { λ question q. q ≡ question_of question };

    #[tactic(auto, unfolding(crate::specs::AskStructs::question_of, c_record::specs::PartNumbers::part_numbered))]
    fn from(question: Question) -> mrd_ask::Question {
        let what = question.what;
        let n = question.number;
        let part = part_of(question.part, question.channel);
        match what {
            1 => mrd_ask::Question::Place(n),
            2 => mrd_ask::Question::View(n, part),
            3 => mrd_ask::Question::Field(n, question.offset),
            4 => mrd_ask::Question::Find(n),
            _ => mrd_ask::Question::View(n, part_of(0, 0)),
        }
    }
}
