// The lengths of the seven parts that a message may have.

#[derive(Clone, Copy, Debug, Default, PartialEq, Eq)]
pub struct Lengths {
    pub name: usize,
    pub text: usize,
    pub trajectory: usize,
    pub samples: usize,
    pub attributes: usize,
    pub pixels: usize,
    pub waveform: usize,
}
