// What is saved of a stream, as a C struct.
ghost use Rattle.std.specs.Prelude.{◌≡◌};
ghost use Rattle.mrd_logic.specs.Answer.{answered};
ghost use Rattle.mrd_salvage.specs.Salvage.{salvaged_meaning};
ghost use Rattle.c_salvage.specs.SalvagedStruct.{refused_salvage, c_salvaged};

use mrd_format::Refusal;
use mrd_salvage::Report;

// The report on a stream that is saved; all 0 and false beside a refusal.
#[repr(C)]
#[derive(Clone, Copy)]
pub struct Salvaged {
    pub refusal: u32,
    pub messages_kept: usize,
    pub bytes_not_kept: usize,
    pub length: usize,
    pub close_added: bool,
}

impl Salvaged {
    // An answer without a report.
    fn refused(number: u8) -> Salvaged
        ensures { result ≡ refused_salvage number }
    {
        Salvaged {
            refusal: number as u32,
            messages_kept: 0,
            bytes_not_kept: 0,
            length: 0,
            close_added: false,
        }
    }
}

// The report alone, which is never refused.
impl From<Report> for Salvaged {
    ghost from_gives = { λ report r. r ≡ c_salvaged (answered report) };

    fn from(report: Report) -> Salvaged {
        Salvaged {
            refusal: 0,
            messages_kept: report.messages_kept,
            bytes_not_kept: report.bytes_not_kept,
            length: report.length,
            close_added: report.close_added,
        }
    }
}

impl From<Result<Report, Refusal>> for Salvaged {
    ghost from_gives = { λ answer r. r ≡ c_salvaged (salvaged_meaning answer) };

    fn from(answer: Result<Report, Refusal>) -> Salvaged {
        match answer {
            Ok(report) => Salvaged::from(report),
            Err(refusal) => Salvaged::refused(refusal.number()),
        }
    }
}
