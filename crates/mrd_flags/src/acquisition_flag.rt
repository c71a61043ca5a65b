// The acquisition flags by their names, each with its number: what `flag_test`, `flag_set` and `flag_clear` take.
// Numbers 30 to 52 have no name.
//
// Assumes nothing.
#[derive(Clone, Copy, Debug, PartialEq, Eq)]
pub enum AcquisitionFlag {
    FirstInEncodeStep1 = 1,
    LastInEncodeStep1 = 2,
    FirstInEncodeStep2 = 3,
    LastInEncodeStep2 = 4,
    FirstInAverage = 5,
    LastInAverage = 6,
    FirstInSlice = 7,
    LastInSlice = 8,
    FirstInContrast = 9,
    LastInContrast = 10,
    FirstInPhase = 11,
    LastInPhase = 12,
    FirstInRepetition = 13,
    LastInRepetition = 14,
    FirstInSet = 15,
    LastInSet = 16,
    FirstInSegment = 17,
    LastInSegment = 18,
    IsNoiseMeasurement = 19,
    IsParallelCalibration = 20,
    IsParallelCalibrationAndImaging = 21,
    IsReverse = 22,
    IsNavigationData = 23,
    IsPhasecorrData = 24,
    LastInMeasurement = 25,
    IsHpfeedbackData = 26,
    IsDummyscanData = 27,
    IsRtfeedbackData = 28,
    IsSurfacecoilcorrectionscanData = 29,
    Compression1 = 53,
    Compression2 = 54,
    Compression3 = 55,
    Compression4 = 56,
    User1 = 57,
    User2 = 58,
    User3 = 59,
    User4 = 60,
    User5 = 61,
    User6 = 62,
    User7 = 63,
    User8 = 64,
}

impl AcquisitionFlag {
    ghost use Rattle.std.specs.Prelude.{◌≡◌};
    ghost use Rattle.mrd_flags.specs.FlagNames.{number_of};

    // The flag's number.
    pub fn number(self) -> u32
        ensures { result ≡ number_of self }
    {
        self as u32
    }
}
