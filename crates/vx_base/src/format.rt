//! Image formats.
ghost use Rattle.std.specs.Prelude.{◌≡◌};
ghost use Rattle.vx_base.specs.Sample.{sample_bytes};
ghost use Rattle.vx_base.specs.Threshold.{is_sample};

/// The format of an image: the range of its samples (OpenVX 1.3, `vx_df_image_e`).
#[derive(Clone, Copy, PartialEq, Eq, Debug)]
pub enum Format {
    /// 0 to 255, `VX_DF_IMAGE_U8`.
    U8,
    /// -32768 to 32767, `VX_DF_IMAGE_S16`.
    S16,
    /// 0 to 4,294,967,295, `VX_DF_IMAGE_U32`.
    U32,
}

impl Format {
    /// Returns the size of one sample in bytes.
    pub fn sample_bytes(self) -> usize
        ensures { result ≡ sample_bytes self }
    {
        match self {
            Format::U8 => 1,
            Format::S16 => 2,
            Format::U32 => 4,
        }
    }

    /// Checks whether a number is a sample of the format.
    pub fn has_sample(self, number: i16) -> bool
        ensures { result ≡ is_sample self number }
    {
        match self {
            Format::U8 => 0 <= number && number <= 255,
            Format::S16 => true,
            Format::U32 => 0 <= number,
        }
    }
}
