//! Samples of pictures, entries of lookup tables, coefficients and counts, as bytes.
ghost use Rattle.std.specs.Prelude.{◌≡◌, ◌+◌, ◌*◌, ◌<◌, ◌≤◌, ◌^◌, length, map, take, IfOk, IfErr};
ghost use Rattle.std.specs.Prelude.{OnOk};
ghost use Rattle.std.specs.List.{flat_map};
ghost use Rattle.vx_base.specs.Sample.{sample_bytes};
ghost use Rattle.vx_base.specs.Picture.{values, samples_format};
ghost use Rattle.vx_requests.specs.Stream.Transfer.{WritesAll};
ghost use Rattle.vx_requests.specs.Frame.Reading.{CanRead, KeepsCount, ReadsPart, ReadsSamples};
ghost use Rattle.vx_wire.specs.Samples.{encoded_sample};

use crate::frame::reader::Reader;
use crate::stream::{Sink, Source, StreamFault, write_all};
use client_contexts::FillsSamples;
use vx_base::Samples;
use vx_wire::{WideSample, decode_wide, encode};

/// The most bytes that are read at a time for samples of several bytes each.
const LONGEST_READ: usize = 16_384;

/// Writes samples of any format, in order.
pub fn write_samples<K: Sink>(sink: &mut K, samples: &Samples) -> Result<(), StreamFault>
    requires { K.failures sink.old < 2 ^ 62 }
    ensures { WritesAll K.taken K.failures sink.old sink.new
        (flat_map (encoded_sample (samples_format samples.now)) (values samples.now)) result }
{
    match samples {
        Samples::U8(bytes) => write_all(sink, bytes.as_slice()),
        Samples::S16(shorts) => write_wide(sink, shorts.as_slice()),
        Samples::U32(words) => write_wide(sink, words.as_slice()),
    }
}

/// Writes numbers of several bytes each, encoded as samples, in blocks of at most 1024 numbers.
pub fn write_wide<S: WideSample, K: Sink>(sink: &mut K, samples: &[S]) -> Result<(), StreamFault>
    requires { K.failures sink.old < 2 ^ 62 }
    ensures { WritesAll K.taken K.failures sink.old sink.new
        (flat_map (λ s. encoded_sample S.format (S.value s)) samples.now) result }
{
    let mut block = [0; 4096];
    let mut rest = samples;
    while !rest.is_empty() {
        let (front, back) = rest.split_at(rest.len().min(1024));
        write_sample_block(sink, &mut block, front)?;
        rest = back;
    }
    Ok(())
}

/// Encodes samples into the front of `block`, and writes the encoded bytes. `block` must be long
/// enough for all of these bytes.
fn write_sample_block<S: WideSample, K: Sink>(
    sink: &mut K,
    block: &mut [u8],
    samples: &[S],
) -> Result<(), StreamFault>
    requires failures_fit { K.failures sink.old < 2 ^ 62 }
    requires block { length samples.now * sample_bytes S.format ≤ length block.old }
    ensures { WritesAll K.taken K.failures sink.old sink.new
        (flat_map (λ s. encoded_sample S.format (S.value s)) samples.now) result }
{
    let bytes = &mut block[..S::size() * samples.len()];
    encode(samples, bytes);
    write_all(sink, bytes)
}

impl<S: Source> FillsSamples for Reader<'_, S> {
    ghost use Rattle.vx_requests.specs.Frame.Reading.{CanRead, ReadsOver};

    type Fault = StreamFault;

    ghost can_fill = { CanRead S.reads S.failures };

    ghost fills = { ReadsOver S.left S.reads S.failures };

    fn fill(&mut self, samples: &mut Samples) -> Result<(), StreamFault> {
        read_samples(self, samples)
    }
}

/// Replaces samples of any format with samples that are read from a frame.
fn read_samples<S: Source>(reader: &mut Reader<S>, samples: &mut Samples) -> Result<(), StreamFault>
    requires { CanRead S.reads S.failures reader.old }
    ensures ok { OnOk result (ReadsSamples
        (S.left reader.old.source.now) (S.left reader.new.source.now)
        (samples_format samples.old) (values samples.new)) }
    ensures err { IfErr result (ReadsPart
        (S.left reader.old.source.now) (S.left reader.new.source.now)
        (length (values samples.old) * sample_bytes (samples_format samples.old))) }
    ensures format { samples_format samples.new ≡ samples_format samples.old }
    ensures size { length (values samples.new) ≡ length (values samples.old) }
    ensures counted { KeepsCount S.reads S.failures reader.old reader.new result }
    ensures sparing { S.reads reader.new.source.now ≤ S.reads reader.old.source.now
        + length (values samples.old) * sample_bytes (samples_format samples.old) }
{
    match samples {
        Samples::U8(bytes) => reader.read_exactly(bytes.as_mut_slice()),
        Samples::S16(shorts) => read_wide(reader, shorts.as_mut_slice()),
        Samples::U32(words) => read_wide(reader, words.as_mut_slice()),
    }
}

/// Replaces samples of several bytes each with samples that are read from a frame, piece by piece.
fn read_wide<S: WideSample, R: Source>(
    reader: &mut Reader<R>,
    samples: &mut [S],
) -> Result<(), StreamFault>
    requires { CanRead R.reads R.failures reader.old }
    ensures ok { OnOk result (ReadsSamples
        (R.left reader.old.source.now) (R.left reader.new.source.now)
        S.format (map S.value samples.new)) }
    ensures err { IfErr result (ReadsPart
        (R.left reader.old.source.now) (R.left reader.new.source.now)
        (length samples.old * sample_bytes S.format)) }
    ensures counted { KeepsCount R.reads R.failures reader.old reader.new result }
    ensures sparing { R.reads reader.new.source.now
        ≤ R.reads reader.old.source.now + length samples.old * sample_bytes S.format }
{
    let mut piece = [0u8; LONGEST_READ];
    let mut done = 0;
    while done < samples.len() {
        done += read_piece(reader, &mut piece, &mut samples[done..])?;
    }
    Ok(())
}

/// Replaces the first samples with samples that are read from a frame, as many as fit in the buffer
/// `piece`. Returns the number of samples read.
fn read_piece<S: WideSample, R: Source>(
    reader: &mut Reader<R>,
    piece: &mut [u8],
    samples: &mut [S],
) -> Result<usize, StreamFault>
    requires can_read { CanRead R.reads R.failures reader.old }
    requires piece { sample_bytes S.format ≤ length piece.old }
    ensures ok { IfOk result (λ count. ReadsSamples
        (R.left reader.old.source.now) (R.left reader.new.source.now)
        S.format (map S.value (take count samples.new))) }
    ensures within { IfOk result (λ count. count ≤ length samples.new) }
    ensures some { IfOk result (λ count. 0 < length samples.new → 0 < count) }
    ensures err { IfErr result (ReadsPart
        (R.left reader.old.source.now) (R.left reader.new.source.now)
        (length samples.old * sample_bytes S.format)) }
    ensures counted { KeepsCount R.reads R.failures reader.old reader.new result }
    ensures sparing { IfOk result (λ count. R.reads reader.new.source.now
        ≤ R.reads reader.old.source.now + count * sample_bytes S.format) }
    ensures sparing_err { R.reads reader.new.source.now
        ≤ R.reads reader.old.source.now + length samples.old * sample_bytes S.format }
{
    let size = S::size();
    let count = samples.len().min(piece.len() / size);
    let bytes = &mut piece[..count * size];
    reader.read_exactly(bytes)?;
    decode_wide(bytes, &mut samples[..count]);
    Ok(count)
}
