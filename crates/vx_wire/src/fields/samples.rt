//! Samples as bytes: 1, 2 or 4 bytes for each sample, the most significant first.
ghost use Rattle.std.specs.Prelude.{◌≡◌, ◌+◌, ◌*◌, ◌≤◌, ◌^◌, ℤ, pos, length, map, Ok, Err, IfOk};
ghost use Rattle.std.specs.Prelude.{IfErr};
ghost use Rattle.std.specs.List.{flat_map};
ghost use Rattle.vx_base.specs.declared.format.Format.{Format as SampleFormat};
ghost use Rattle.vx_base.specs.declared.format.Format.TheVariants.{S16 as FormatS16};
ghost use Rattle.vx_base.specs.declared.format.Format.TheVariants.{U32 as FormatU32};
ghost use Rattle.vx_base.specs.Sample.{sample_bytes};
ghost use Rattle.vx_base.specs.Picture.{values, samples_format};
ghost use Rattle.vx_wire.specs.Samples.{decoded_sample, encoded_sample, decoded_samples};
ghost use Rattle.vx_wire.specs.Samples.{take_samples};

use crate::body_fault::BodyFault;
use crate::fields::Fields;
use std::alloc::{AllocError, Global};
use vx_base::{Format, Samples};

/// Reads the bytes of `count` samples of a format. `InvalidParameters`: too few bytes are left.
pub fn take_samples<'a>(
    fields: &mut Fields<'a>,
    format: Format,
    count: usize,
) -> Result<&'a [u8], BodyFault>
    requires { count ≤ 2 ^ 32 }
    ensures ok { IfOk result (λ bytes. take_samples format count fields.old
        ≡ Ok (decoded_samples format count bytes.now, fields.new)) }
    ensures len { IfOk result (λ bytes. length bytes.now ≡ count * sample_bytes format) }
    ensures err { IfErr result (λ e. take_samples format count fields.old ≡ Err e) }
{
    fields.bytes(count * format.sample_bytes())
}

/// A type of samples that take several bytes each: `i16` or `u32`.
pub trait WideSample: Copy {
    /// The format of samples of this type.
    ghost format: { SampleFormat };

    /// The sample's value.
    ghost value: { Self → ℤ };

    /// Returns the number of bytes of a sample.
    fn size() -> usize
        ensures { result ≡ sample_bytes format };

    /// Returns the sample that these bytes encode.
    fn decode(bytes: &[u8]) -> Self
        requires { length bytes.now ≡ sample_bytes format }
        ensures { value result ≡ decoded_sample format bytes.now };

    /// Writes the bytes of the sample.
    fn encode(self, bytes: &mut [u8])
        requires { length bytes.old ≡ sample_bytes format }
        ensures { bytes.new ≡ encoded_sample format (value self) };
}

impl WideSample for i16 {
    ghost format = { FormatS16 };

    ghost value = { λ z. z };

    fn size() -> usize {
        2
    }

    fn decode(bytes: &[u8]) -> i16 {
        i16::from_be_bytes([bytes[0], bytes[1]])
    }

    fn encode(self, bytes: &mut [u8]) {
        let [high, low] = self.to_be_bytes();
        bytes[0] = high;
        bytes[1] = low;
    }
}

impl WideSample for u32 {
    ghost format = { FormatU32 };

    ghost value = { pos };

    fn size() -> usize {
        4
    }

    fn decode(bytes: &[u8]) -> u32 {
        u32::from_be_bytes([bytes[0], bytes[1], bytes[2], bytes[3]])
    }

    fn encode(self, bytes: &mut [u8]) {
        let [a, b, c, d] = self.to_be_bytes();
        bytes[0] = a;
        bytes[1] = b;
        bytes[2] = c;
        bytes[3] = d;
    }
}

/// Returns `count` samples of a format, decoded from their big-endian bytes. All memory is
/// allocated before the first sample is decoded.
pub fn decode(
    alloc: Global,
    format: Format,
    count: usize,
    bytes: &[u8],
) -> Result<Samples, AllocError>
    requires { length bytes.now ≡ count * sample_bytes format }
    ensures value { IfOk result (λ samples. values samples
        ≡ decoded_samples format count bytes.now) }
    ensures format { IfOk result (λ samples. samples_format samples ≡ format) }
    ensures size { IfOk result (λ samples. length (values samples) ≡ count) }
{
    match format {
        Format::U8 => Ok(Samples::U8(bytes.to_vec(alloc)?)),
        Format::S16 => {
            let mut samples = vec![in alloc; 0i16; count]?;
            decode_wide(bytes, samples.as_mut_slice());
            Ok(Samples::S16(samples))
        }
        Format::U32 => {
            let mut samples = vec![in alloc; 0u32; count]?;
            decode_wide(bytes, samples.as_mut_slice());
            Ok(Samples::U32(samples))
        }
    }
}

/// Fills `samples` with the samples that `bytes` encode, the most significant byte first.
pub fn decode_wide<S: WideSample>(bytes: &[u8], samples: &mut [S])
    requires { length bytes.now ≡ length samples.old * sample_bytes S.format }
    ensures { map S.value samples.new ≡ decoded_samples S.format (length samples.old) bytes.now }
{
    let size = S::size();
    for i in 0..samples.len() {
        let start = i * size;
        samples[i] = S::decode(&bytes[start..start + size]);
    }
}

/// Fills `bytes` with the bytes of `samples`, the most significant byte first.
pub fn encode<S: WideSample>(samples: &[S], bytes: &mut [u8])
    requires { length bytes.old ≡ length samples.now * sample_bytes S.format }
    ensures { bytes.new ≡ flat_map (λ s. encoded_sample S.format (S.value s)) samples.now }
{
    let size = S::size();
    for i in 0..samples.len() {
        let start = i * size;
        samples[i].encode(&mut bytes[start..start + size]);
    }
}
