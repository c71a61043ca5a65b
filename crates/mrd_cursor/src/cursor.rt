// How far the order of messages has come, and where a walk over a stream is.
ghost use Rattle.std.specs.Prelude.{◌≡◌, ◌+◌, ◌<◌, ◌^◌};
ghost use Rattle.mrd_cursor.specs.Order.{is_start, is_before_header, is_headed, is_open, is_closed, allowed, next_phase};
ghost use Rattle.mrd_cursor.specs.Cursors.{max_messages, after, beginning};

use mrd_format::Kind;

// How far the order of messages has come.
#[derive(Clone, Copy)]
pub enum Phase {
    // Texts at most.
    Start,
    // A configuration, and no header yet.
    Configured,
    // A header.
    Headed,
    // A close.
    Closed,
}

// Where a walk is: the number of the message that is due, the phase, and the message's first byte. The phase
// comes second so that a loop reads a yielded cursor back as it was stored, field by field, which is faster.
#[derive(Clone, Copy)]
pub struct Cursor {
    pub number: usize,
    pub phase: Phase,
    pub start: usize,
}

impl Phase {
    fn is_start(self) -> bool
        ensures { result ≡ is_start self }
    {
        matches!(self, Phase::Start)
    }

    fn is_before_header(self) -> bool
        ensures { result ≡ is_before_header self }
    {
        matches!(self, Phase::Start | Phase::Configured)
    }

    fn is_headed(self) -> bool
        ensures { result ≡ is_headed self }
    {
        matches!(self, Phase::Headed)
    }

    fn is_open(self) -> bool
        ensures { result ≡ is_open self }
    {
        !self.is_closed()
    }

    pub fn is_closed(self) -> bool
        ensures { result ≡ is_closed self }
    {
        matches!(self, Phase::Closed)
    }

    // Whether the order allows a message of this kind now. Each kind has an arm of its own, so that the compiler goes
    // on from it to what the kind's fixed part is asked.
    pub fn allows(self, kind: Kind) -> bool
        ensures { result ≡ allowed kind self }
    {
        match kind {
            Kind::ConfigurationName => self.is_start(),
            Kind::ConfigurationText => self.is_start(),
            Kind::HeaderText => self.is_before_header(),
            Kind::Close => self.is_open(),
            Kind::Text => self.is_open(),
            Kind::Acquisition => self.is_headed(),
            Kind::Image => self.is_headed(),
            Kind::Waveform(_) => self.is_headed(),
        }
    }

    // The phase after a message of this kind.
    fn next(self, kind: Kind) -> Phase
        ensures { result ≡ next_phase kind self }
    {
        match kind {
            Kind::ConfigurationName | Kind::ConfigurationText => Phase::Configured,
            Kind::HeaderText => Phase::Headed,
            Kind::Close => Phase::Closed,
            Kind::Text | Kind::Acquisition | Kind::Image | Kind::Waveform(_) => self,
        }
    }
}

impl Cursor {
    // Where each walk begins.
    pub fn beginning() -> Cursor
        ensures { result ≡ beginning }
    {
        Cursor {
            number: 0,
            start: 0,
            phase: Phase::Start,
        }
    }

    // Where the walk is after a message of this kind and size.
    pub fn after(self, kind: Kind, size: usize) -> Cursor
        requires { (self.number < max_messages) × (self.start + size < 2 ^ 64) }
        ensures { result ≡ after self kind size }
    {
        Cursor {
            number: self.number + 1,
            start: self.start + size,
            phase: self.phase.next(kind),
        }
    }
}
