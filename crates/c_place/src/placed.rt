// A record's place and kind as a C struct: the numbers of its kind in the members for them.
ghost use Rattle.std.specs.Prelude.{◌≡◌};
ghost use Rattle.mrd_format.specs.Kinds.{id_of};
ghost use Rattle.mrd_format.specs.Acquisition.{mask_number, mask_ones};
ghost use Rattle.mrd_stream.specs.ReaderMeaning.{placed_meaning, record_meaning};
ghost use Rattle.c_place.specs.PlacedStruct.{refused_place, place_as, c_record, c_placed};

use mrd_format::{AcquisitionShape, ImageShape, Kind, Shape, TextShape, WaveformShape};
use mrd_stream::{Place, PlacedRecord, Refused};

// A record: its number from 0, first byte, size with the id, id, and the numbers that its kind has: the
// `length` is that of a name or text, the `channels` of an acquisition are the active ones, `mask` is the number
// of its mask's answer.
#[repr(C)]
#[derive(Clone, Copy)]
pub struct Placed {
    pub refusal: u32,
    pub record: usize,
    pub byte: usize,
    pub number: usize,
    pub start: usize,
    pub size: usize,
    pub length: usize,
    pub attribute_length: u64,
    pub id: u16,
    pub number_of_samples: u16,
    pub channels: u16,
    pub trajectory_dimensions: u16,
    pub matrix_size_x: u16,
    pub matrix_size_y: u16,
    pub matrix_size_z: u16,
    pub data_type: u16,
    pub mask: u16,
    pub mask_ones: u16,
}

impl Placed {
    // An answer without a record.
    pub fn refused(number: u8, record: usize, byte: usize) -> Placed
        ensures { result ≡ refused_place number «record» byte }
    {
        Placed {
            refusal: number as u32,
            record: record,
            byte: byte,
            number: 0,
            start: 0,
            size: 0,
            length: 0,
            attribute_length: 0,
            id: 0,
            number_of_samples: 0,
            channels: 0,
            trajectory_dimensions: 0,
            matrix_size_x: 0,
            matrix_size_y: 0,
            matrix_size_z: 0,
            data_type: 0,
            mask: 0,
            mask_ones: 0,
        }
    }

    // A record with none of its kind's own numbers.
    fn bare(place: Place, id: u16) -> Placed
        ensures { result ≡ place_as place id 0 0 0 0 0 0 0 0 0 0 0 }
    {
        let mut r = Placed::refused(0, 0, 0);
        r.number = place.number;
        r.start = place.start;
        r.size = place.size;
        r.id = id;
        r
    }

    fn text(place: Place, id: u16, shape: TextShape) -> Placed
        ensures { result ≡ place_as place id shape.length 0 0 0 0 0 0 0 0 0 0 }
    {
        let mut r = Placed::bare(place, id);
        r.length = shape.length;
        r
    }

    fn acquisition(place: Place, shape: AcquisitionShape) -> Placed
        ensures { result ≡ place_as place (id_of Kind.Acquisition) 0 0 shape.number_of_samples shape.active_channels shape.trajectory_dimensions 0 0 0 0 (mask_number shape.mask) (mask_ones shape.mask) }
    {
        let mut r = Placed::bare(place, Kind::ACQUISITION);
        r.number_of_samples = shape.number_of_samples;
        r.channels = shape.active_channels;
        r.trajectory_dimensions = shape.trajectory_dimensions;
        let mask = shape.mask;
        r.mask = mask.number();
        r.mask_ones = mask.ones();
        r
    }

    fn image(place: Place, shape: ImageShape) -> Placed
        ensures { result ≡ place_as place (id_of Kind.Image) 0 shape.attribute_length 0 shape.channels 0 shape.matrix_size_x shape.matrix_size_y shape.matrix_size_z shape.data_type 0 0 }
    {
        let mut r = Placed::bare(place, Kind::IMAGE);
        r.matrix_size_x = shape.matrix_size_x;
        r.matrix_size_y = shape.matrix_size_y;
        r.matrix_size_z = shape.matrix_size_z;
        r.channels = shape.channels;
        r.data_type = shape.data_type;
        r.attribute_length = shape.attribute_length;
        r
    }

    fn waveform(place: Place, shape: WaveformShape) -> Placed
        ensures { result ≡ place_as place (id_of (Kind.Waveform shape.layout)) 0 0 shape.number_of_samples shape.channels 0 0 0 0 0 0 0 }
    {
        let mut r = Placed::bare(place, Kind::WAVEFORM);
        r.number_of_samples = shape.number_of_samples;
        r.channels = shape.channels;
        r
    }
}

impl From<PlacedRecord> for Placed {
    ghost from_gives = { λ here r. r ≡ c_record (record_meaning here) };

    fn from(here: PlacedRecord) -> Placed {
        let place = here.place;
        let shape = here.shape;
        match shape {
            Shape::ConfigurationName(s) => Placed::text(place, Kind::CONFIGURATION_NAME, s),
            Shape::ConfigurationText(s) => Placed::text(place, Kind::CONFIGURATION_TEXT, s),
            Shape::HeaderText(s) => Placed::text(place, Kind::HEADER_TEXT, s),
            Shape::Close => Placed::bare(place, Kind::CLOSE),
            Shape::Text(s) => Placed::text(place, Kind::TEXT, s),
            Shape::Acquisition(s) => Placed::acquisition(place, s),
            Shape::Image(s) => Placed::image(place, s),
            Shape::Waveform(s) => Placed::waveform(place, s),
        }
    }
}

impl From<Result<PlacedRecord, Refused>> for Placed {
    ghost from_gives = { λ answer r. r ≡ c_placed (placed_meaning answer) };

    fn from(answer: Result<PlacedRecord, Refused>) -> Placed {
        match answer {
            Ok(here) => Placed::from(here),
            Err(e) => Placed::refused(e.number(), e.record(), e.byte()),
        }
    }
}
