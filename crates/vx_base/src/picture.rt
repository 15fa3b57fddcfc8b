//! Pictures: samples that are written to an image or read from it.
ghost use Rattle.std.specs.Prelude.{◌≡◌};
ghost use Rattle.vx_base.specs.Picture.{values, Describes, IsPicture};

use crate::desc::Desc;
use crate::samples::Samples;
use std::marker::Model;

/// A whole image's samples and description, without a valid rectangle.
#[derive(Debug, Drop)]
pub struct Picture {
    desc: Desc,
    samples: Samples,
}

impl Model for Picture {
    ghost use Rattle.std.specs.Prelude.{◌≡◌};
    ghost use Rattle.vx_base.specs.Picture.{PictureValue, IsPicture, values, samples_format};

    ghost Value = { PictureValue };

    ghost view = { λ p. record { description = p.desc; samples = values p.samples } };

    ghost invariant = { λ p. IsPicture (record { description = p.desc; samples = values p.samples })
        × (samples_format p.samples ≡ p.desc.format) };
}

impl Picture {
    /// Returns the picture with this description and these samples. The caller must give one sample
    /// of the description's format for each pixel.
    pub fn new(desc: Desc, samples: Samples) -> Picture
        requires { Describes desc samples }
        ensures { result ≡ record { description = desc; samples = values samples } }
    {
        desc.prove_sides();
        samples.prove_samples();
        Picture { desc, samples }
    }

    /// Returns the description.
    pub fn desc(&self) -> Desc
        ensures { result ≡ self.now.description }
    {
        self.desc
    }

    /// Returns the samples in row-major order.
    pub fn samples(&self) -> &Samples
        ensures value { values result.now ≡ self.now.samples }
        ensures described { Describes self.now.description result.now }
        ensures picture { IsPicture self.now }
    {
        &self.samples
    }

    /// Returns the samples in row-major order.
    pub fn into_samples(self) -> Samples
        ensures value { values result ≡ self.samples }
        ensures described { Describes self.description result }
        ensures picture { IsPicture self }
    {
        self.samples
    }
}
