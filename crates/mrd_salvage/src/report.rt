// What is said of a stream that is saved.
ghost use Rattle.std.specs.Prelude.{◌≡◌, ◌≤◌, ◌<◌, ◌^◌};
ghost use Rattle.mrd_salvage.specs.Reached.{as_they_are, with_close};

use mrd_format::Kind;

// What is kept of a stream: how many of its messages; how many of its bytes are not; whether a close was added, which
// is none of these messages; and the length of what is written.
#[derive(Clone, Copy)]
pub struct Report {
    pub messages_kept: usize,
    pub bytes_not_kept: usize,
    pub close_added: bool,
    pub length: usize,
}

impl Report {
    // So many messages, up to byte `end` of a stream of this length, with nothing added.
    pub(crate) fn as_they_are(messages: usize, end: usize, length: usize) -> Report
        requires { end ≤ length }
        ensures { result ≡ as_they_are messages end length }
    {
        Report {
            messages_kept: messages,
            bytes_not_kept: length - end,
            close_added: false,
            length: end,
        }
    }

    // The same with a close after them.
    pub(crate) fn with_close(messages: usize, end: usize, length: usize) -> Report
        requires { (end ≤ length) × (length < 2 ^ 63) }
        ensures { result ≡ with_close messages end length }
    {
        Report {
            messages_kept: messages,
            bytes_not_kept: length - end,
            close_added: true,
            length: end + Kind::ID_SIZE,
        }
    }
}
