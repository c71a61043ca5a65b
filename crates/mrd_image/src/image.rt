// The image header and the 8-byte attribute length after it: the checks that they must pass, and the
// sizes and numbers that they give. Offsets count from the header's first byte.
ghost use Rattle.std.specs.Prelude.{◌≡◌, ◌<◌, ◌≤◌, ◌^◌, length};
ghost use Rattle.mrd_logic.specs.Checks.{first};
ghost use Rattle.mrd_format.specs.Image.{header_checks, checks, type_unknown, lengths_differ, attribute_length, element_size, pixel_count, pixels_size, body_size, numbers, get, «measurement-uid»};
ghost use Rattle.mrd_format.specs.Kinds.{fixed_size, header_size};
ghost use Rattle.mrd_format.specs.Refusals.{number_in};
ghost use Rattle.mrd_format.specs.declared.kind.Kind.«TheVariants».{Image};
ghost use Rattle.mrd_format.specs.Sizes.{capped};
ghost use Rattle.mrd_format.specs.Shapes.{image_numbers};

use mrd_format::size::{cap, product};
use mrd_format::{ImageShape, Kind, Refusal};
use mrd_numbers::Little;

const VERSION: usize = 0;

const DATA_TYPE: usize = 2;

const MEASUREMENT_UID: usize = 12;

const MATRIX_SIZE_X: usize = 16;

const MATRIX_SIZE_Y: usize = 18;

const MATRIX_SIZE_Z: usize = 20;

const CHANNELS: usize = 34;

// The 8-byte length stands after the header.
const ATTRIBUTE_LENGTH: usize = 198;

// Bytes of one element, by data type.
const ELEMENT_SIZES: [u64; 9] = [0, 2, 2, 4, 4, 4, 8, 8, 16];

// An image's header, at the front of these bytes.
#[derive(Clone, Copy)]
pub struct ImageHeader<'a> {
    pub bytes: &'a [u8],
    pub ghost long: { header_size Image ≤ length bytes.now },
}

// An image's fixed part: its header and the 8-byte length.
#[derive(Clone, Copy)]
pub struct ImageFixedPart<'a> {
    pub bytes: &'a [u8],
    pub ghost long: { length bytes.now ≡ fixed_size Image },
}

impl ImageHeader<'_> {
    // Checks 4 and 8 of the header: the first that refuses it decides.
    #[tactic(auto, unfolding(mrd_format::specs::Image::header_checks))]
    pub fn check(self) -> Result<(), Refusal>
        ensures { number_in result ≡ first (header_checks self.entry.bytes.now) }
    {
        if u16::read(self.bytes, VERSION) != 1 {
            return Err(Refusal::Version);
        }
        if self.type_unknown() {
            return Err(Refusal::DataType);
        }
        Ok(())
    }

    // Whether the data type is not one of 1 to 8.
    fn type_unknown(self) -> bool
        ensures { result ≡ type_unknown self.entry.bytes.now }
    {
        let data_type = u16::read(self.bytes, DATA_TYPE);
        data_type == 0 || 8 < data_type
    }

    // The number of pixels: four sizes of 16 bits each never pass 64 bits.
    fn pixel_count(self) -> u64
        ensures { result ≡ pixel_count self.entry.bytes.now }
    {
        let plane = product(
            u16::read(self.bytes, MATRIX_SIZE_X),
            u16::read(self.bytes, MATRIX_SIZE_Y),
        );
        let planes = product(
            u16::read(self.bytes, MATRIX_SIZE_Z),
            u16::read(self.bytes, CHANNELS),
        );
        plane * planes
    }

    // The bytes of the pixels, where they are within the message limit, and some number above it where
    // they are not: the true one may pass 64 bits.
    pub fn pixels_size(self) -> u64
        ensures { (capped result ≡ capped (pixels_size self.entry.bytes.now)) × (result < 2 ^ 33) }
    {
        cap(self.pixel_count()) * element_size(u16::read(self.bytes, DATA_TYPE))
    }
}

impl<'a> ImageFixedPart<'a> {
    fn header(self) -> ImageHeader<'a>
        ensures { result.bytes.now ≡ self.entry.bytes.now }
    {
        ImageHeader { bytes: self.bytes }
    }

    // Checks 4, 8 and 9 of the fixed part: the first that refuses it decides.
    pub fn check(self) -> Result<(), Refusal>
        ensures { number_in result ≡ first (checks self.entry.bytes.now) }
    {
        self.header().check()?;
        if self.lengths_differ() {
            return Err(Refusal::AttributeLength);
        }
        Ok(())
    }

    // Whether the header's attribute length is neither 0 nor the 8-byte one.
    fn lengths_differ(self) -> bool
        ensures { result ≡ lengths_differ self.entry.bytes.now }
    {
        let number = u32::read(self.bytes, Kind::ATTRIBUTE_STRING_LEN) as u64;
        let unsaid = number == 0;
        if unsaid {
            return false;
        }
        number != self.attribute_length()
    }

    // The bytes of the attributes: the 8-byte length.
    pub fn attribute_length(self) -> u64
        ensures { result ≡ attribute_length self.entry.bytes.now }
    {
        u64::read(self.bytes, ATTRIBUTE_LENGTH)
    }

    // The bytes after the fixed part, attributes and pixels, in the same way.
    pub fn body_size(self) -> usize
        ensures { (capped result ≡ capped (body_size self.entry.bytes.now)) × (result < 2 ^ 40) }
    {
        // The pixels first: the other way round the function that judges a message saves one more register.
        let pixels = self.header().pixels_size();
        (cap(self.attribute_length()) + pixels) as usize
    }

    // The measurement uid.
    pub fn measurement_uid(self) -> u32
        ensures { result ≡ get «measurement-uid» self.entry.bytes.now }
    {
        u32::read(self.bytes, MEASUREMENT_UID)
    }

    // The fixed part's own numbers.
    pub fn shape(self) -> ImageShape
        ensures { image_numbers result ≡ numbers self.entry.bytes.now }
    {
        ImageShape {
            matrix_size_x: u16::read(self.bytes, MATRIX_SIZE_X),
            matrix_size_y: u16::read(self.bytes, MATRIX_SIZE_Y),
            matrix_size_z: u16::read(self.bytes, MATRIX_SIZE_Z),
            channels: u16::read(self.bytes, CHANNELS),
            data_type: u16::read(self.bytes, DATA_TYPE),
            attribute_length: self.attribute_length(),
        }
    }
}

// The bytes of one element of this data type, 0 where there is no such type.
fn element_size(data_type: u16) -> u64
    ensures { (result ≡ element_size data_type) × (result ≤ 16) }
{
    let t = data_type as usize;
    if t < 9 { ELEMENT_SIZES[t] } else { 0 }
}
