// What a caller says of a whole stream: nothing in a stream tells it.
ghost use Rattle.std.specs.Prelude.{◌≡◌, ◌≤◌};
ghost use Rattle.mrd_format.specs.Waveform.{header_bytes, offsets_of, front_filler};

// Where the elements of a waveform's header stand.
#[derive(Clone, Copy)]
pub enum Layout {
    // One after the other, in 32 bytes.
    Packed,
    // Each at a multiple of its size, in 40 bytes.
    Aligned,
}

// The offset of each element, counted from the header's first byte.
#[derive(Clone, Copy)]
pub struct WaveformOffsets {
    pub version: usize,
    pub flags: usize,
    pub measurement_uid: usize,
    pub scan_counter: usize,
    pub time_stamp: usize,
    pub number_of_samples: usize,
    pub channels: usize,
    pub sample_time_us: usize,
    pub waveform_id: usize,
}

impl Layout {
    // The size of a waveform's header.
    pub fn header_size(self) -> usize
        ensures { result ≡ header_bytes self }
    {
        match self {
            Layout::Packed => 32,
            Layout::Aligned => 40,
        }
    }

    // Where each element stands: in an aligned header so many bytes further on, the version apart.
    pub fn offsets(self) -> WaveformOffsets
        ensures { result ≡ offsets_of self }
    {
        let filler = self.front_filler();
        WaveformOffsets {
            version: 0,
            flags: 2 + filler,
            measurement_uid: 10 + filler,
            scan_counter: 14 + filler,
            time_stamp: 18 + filler,
            number_of_samples: 22 + filler,
            channels: 24 + filler,
            sample_time_us: 26 + filler,
            waveform_id: 30 + filler,
        }
    }

    // The filler between the version and the flags. The offsets go by it, and are no list for each layout: a
    // message is judged faster where one number decides them all.
    fn front_filler(self) -> usize
        ensures { (result ≡ front_filler self) × (result ≤ 6) }
    {
        match self {
            Layout::Packed => 0,
            Layout::Aligned => 6,
        }
    }
}

// What is asked of the texts of a stream: names, the three kinds of texts, and attributes.
#[derive(Clone, Copy)]
pub enum Profile {
    // Any bytes.
    Plain,
    // UTF-8, each text by itself.
    Strict,
}

// The rules that a stream is read and written by.
#[derive(Clone, Copy)]
pub struct Rules {
    pub layout: Layout,
    pub profile: Profile,
}
