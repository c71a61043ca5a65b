// The waveform header: its check, its size and numbers, and its filler. Offsets count from the header's
// first byte.
ghost use Rattle.std.specs.Prelude.{◌≡◌, ◌<◌, ◌≤◌, ◌^◌, length, take};
ghost use Rattle.mrd_numbers.specs.Stored.{front};
ghost use Rattle.mrd_logic.specs.Checks.{first};
ghost use Rattle.mrd_format.specs.Refusals.{number_in};
ghost use Rattle.mrd_format.specs.Waveform.{checks, body_size, numbers, header_bytes, get, cleared};
ghost use Rattle.mrd_format.specs.Waveform.{«measurement-uid», «scan-counter»};
ghost use Rattle.mrd_format.specs.Shapes.{waveform_numbers};
ghost use Rattle.mrd_format.specs.declared.rules.Layout.«TheVariants».{Aligned};

use mrd_format::size::product;
use mrd_format::{Layout, Refusal, WaveformShape};
use mrd_numbers::{Little, put_zeros};

// A waveform's header in its layout.
#[derive(Clone, Copy)]
pub struct WaveformHeader<'a> {
    pub layout: Layout,
    pub bytes: &'a [u8],
    pub ghost long: { length bytes.now ≡ header_bytes layout },
}

impl WaveformHeader<'_> {
    // Check 4 of the header.
    pub fn check(self) -> Result<(), Refusal>
        ensures { number_in result ≡ first (checks self.entry.layout self.entry.bytes.now) }
    {
        let at = self.layout.offsets();
        if u16::read(self.bytes, at.version) != 1 {
            return Err(Refusal::Version);
        }
        Ok(())
    }

    // The bytes after the header: every channel's samples.
    pub fn body_size(self) -> usize
        ensures { (result ≡ body_size self.entry.layout self.entry.bytes.now) × (result < 2 ^ 40) }
    {
        let at = self.layout.offsets();
        (product(
            u16::read(self.bytes, at.channels),
            u16::read(self.bytes, at.number_of_samples),
        ) * 4) as usize
    }

    // The header's own numbers.
    pub fn shape(self) -> WaveformShape
        ensures { (result.layout ≡ self.entry.layout) × (waveform_numbers result ≡ numbers self.entry.layout self.entry.bytes.now) }
    {
        let at = self.layout.offsets();
        WaveformShape {
            layout: self.layout,
            number_of_samples: u16::read(self.bytes, at.number_of_samples),
            channels: u16::read(self.bytes, at.channels),
        }
    }

    pub fn scan_counter(self) -> u32
        ensures { result ≡ get self.entry.layout «scan-counter» self.entry.bytes.now }
    {
        let at = self.layout.offsets();
        u32::read(self.bytes, at.scan_counter)
    }

    pub fn measurement_uid(self) -> u32
        ensures { result ≡ get self.entry.layout «measurement-uid» self.entry.bytes.now }
    {
        let at = self.layout.offsets();
        u32::read(self.bytes, at.measurement_uid)
    }
}

// Makes the filler zero in the header at the front of out. A packed header has none.
pub fn clear_filler(layout: Layout, out: &mut [u8])
    requires { header_bytes layout ≤ length out.old }
    ensures { out.new ≡ front (cleared layout (take (header_bytes layout) out.old)) out.old }
{
    match layout {
        Layout::Packed => {}
        Layout::Aligned => clear_aligned(out),
    }
}

// The bytes of an aligned header between the version and the flags, and those after the waveform id.
fn clear_aligned(out: &mut [u8])
    requires { header_bytes Aligned ≤ length out.old }
    ensures { out.new ≡ front (cleared Aligned (take (header_bytes Aligned) out.old)) out.old }
{
    put_zeros(&mut out[2..], 6);
    put_zeros(&mut out[38..], 2);
}
