//! Replies as bytes.
ghost use Rattle.std.specs.Prelude.{◌≡◌, ◌+◌, ◌*◌, ◌<◌, ◌≤◌, ◌^◌, ◌++◌, length, take, IfErr};
ghost use Rattle.std.specs.Int.{w16, w32, to_be_bytes};
ghost use Rattle.std.specs.Io.KnownBytes.{Keeps};
ghost use Rattle.client_model.specs.declared.reply.Reply.TheVariants.{Picture as PictureReply};
ghost use Rattle.client_model.specs.declared.reply.Reply.TheVariants.{Text as TextReply};
ghost use Rattle.pgm_images.specs.Writing.{written_header, pgm_text};
ghost use Rattle.vx_base.specs.declared.format.Format.TheVariants.{U8 as FormatU8};
ghost use Rattle.vx_base.specs.Description.{sample_count, byte_count};
ghost use Rattle.vx_base.specs.Image.{IsImage};
ghost use Rattle.vx_base.specs.Picture.{PictureValue, values, Describes, picture_of};
ghost use Rattle.vx_requests.specs.Stream.Calls.{failed_calls};
ghost use Rattle.vx_requests.specs.Stream.Transfer.{Sends};
ghost use Rattle.vx_requests.specs.Frame.Frames.{reply_bytes, reply_head};
ghost use Rattle.vx_requests.specs.Serving.Clients.{spelled_frame};
ghost use Rattle.vx_wire.specs.Counts.{counts_bytes};
ghost use Rattle.vx_wire.specs.Described.{described_bytes};
ghost use Rattle.vx_wire.specs.Description.{description_bytes};
ghost use Rattle.vx_wire.specs.Extremes.{extremes_bytes};
ghost use Rattle.vx_wire.specs.Samples.{picture_bytes};
ghost use Rattle.vx_wire.specs.Replies.{said_of};

use crate::frame::samples::{write_samples, write_wide};
use crate::stream::{Failed, Sink, StreamFault, write_all};
use client_model::{Counts, Described, Reply, Text};
use object_table::Stored;
use pgm_images::WrittenHeader;
use vx_base::{Desc, Extremes, Samples};
use vx_wire::{described_bytes, description_bytes, extremes_bytes};

/// The most bytes before the samples in a reply frame with a PGM text: 8 before the body, and 17 of
/// the text's header.
const TEXT_HEAD: usize = 25;

/// Writes the frame of a reply, and flushes the sink.
///
/// `client` and `op` are those of the request. One call of `write_all` writes the whole frame, or
/// everything before a picture's samples, a text's bytes or a distribution's counts. Further calls
/// write these. The only fault is `WriteFailed`: a write or the flush failed, and part or all of
/// the frame may have been written.
pub fn write_reply<K: Sink>(
    sink: &mut K,
    client: u16,
    op: u8,
    reply: &Reply,
) -> Result<(), StreamFault>
    requires { K.failures sink.old < 2 ^ 62 }
    ensures { Sends K.taken K.failures sink.old sink.new
        (reply_bytes (spelled_frame client op (said_of reply.now))) result }
{
    match reply {
        Reply::Refused(code) => write_small(sink, &head(4, client, op, code.number())),
        Reply::Empty => write_small(sink, &head(4, client, op, 0)),
        Reply::Name(name) => write_small(sink, &head_and_long(client, op, *name)),
        Reply::Node(number) => write_small(sink, &head_and_long(client, op, *number)),
        Reply::Described(described) => {
            write_small(sink, &head_and_described(client, op, *described))
        }
        Reply::Picture(picture) => {
            write_picture_reply(sink, client, op, picture.desc(), picture.samples())
        }
        Reply::Text(text) => write_text_reply(sink, client, op, text),
        Reply::Counts(counts) => write_counts_reply(sink, client, op, counts),
        Reply::Extremes(extremes) => write_small(sink, &head_and_extremes(client, op, *extremes)),
    }
}

/// Returns the status code of a reply.
pub fn code_of(reply: &Reply) -> u8
    ensures { result ≡ (said_of reply.now).code }
{
    match reply {
        Reply::Refused(code) => code.number(),
        _ => 0,
    }
}

/// Writes the frame of the reply to ReadImage, and flushes the sink, as `write_reply` does. The
/// samples are written straight from the image. Allocates nothing.
pub fn write_image_reply<K: Sink>(
    sink: &mut K,
    client: u16,
    op: u8,
    image: &Stored,
) -> Result<(), StreamFault>
    requires failures_fit { K.failures sink.old < 2 ^ 62 }
    requires image { IsImage image.now }
    ensures { Sends K.taken K.failures sink.old sink.new
        (reply_bytes (spelled_frame client op (said_of (PictureReply (picture_of image.now)))))
        result }
{
    write_picture_reply(sink, client, op, image.desc(), image.samples())
}

/// Writes the frame of the reply to ReadImagePgm for a U8 image, and flushes the sink, as
/// `write_reply` does. The samples are written straight from the image. Allocates nothing.
pub fn write_image_text_reply<K: Sink>(
    sink: &mut K,
    client: u16,
    op: u8,
    image: &Stored,
) -> Result<(), StreamFault>
    requires failures_fit { K.failures sink.old < 2 ^ 62 }
    requires image { IsImage image.now }
    requires format { image.now.format ≡ FormatU8 }
    ensures { Sends K.taken K.failures sink.old sink.new
        (reply_bytes (spelled_frame client op
        (said_of (TextReply (pgm_text (picture_of image.now)))))) result }
{
    let mut head = [0; TEXT_HEAD];
    let end = put_text_head(&mut head, client, op, image.desc());
    write_all(sink, &head[..end])?;
    write_samples(sink, image.samples())?;
    flush(sink)
}

/// Writes the reply frame whose body is a picture, and flushes the sink.
fn write_picture_reply<K: Sink>(
    sink: &mut K,
    client: u16,
    op: u8,
    desc: Desc,
    samples: &Samples,
) -> Result<(), StreamFault>
    requires failures_fit { K.failures sink.old < 2 ^ 62 }
    requires described { Describes desc samples.now }
    ensures { let picture : PictureValue =
        record { description = desc; samples = values samples.now } in
        Sends K.taken K.failures sink.old sink.new
        (reply_bytes (spelled_frame client op (record { code = 0; body = picture_bytes picture })))
        result }
{
    write_all(sink, &head_and_description(client, op, desc))?;
    write_samples(sink, samples)?;
    flush(sink)
}

/// Writes the reply frame whose body is a text, and flushes the sink.
fn write_text_reply<K: Sink>(
    sink: &mut K,
    client: u16,
    op: u8,
    text: &Text,
) -> Result<(), StreamFault>
    requires { K.failures sink.old < 2 ^ 62 }
    ensures { Sends K.taken K.failures sink.old sink.new
        (reply_bytes (spelled_frame client op (record { code = 0; body = text.now }))) result }
{
    let bytes = text.bytes();
    write_all(sink, &head_before(bytes.len(), client, op))?;
    write_all(sink, bytes)?;
    flush(sink)
}

/// Writes the reply frame whose body has the counts of a distribution, and flushes the sink.
fn write_counts_reply<K: Sink>(
    sink: &mut K,
    client: u16,
    op: u8,
    counts: &Counts,
) -> Result<(), StreamFault>
    requires { K.failures sink.old < 2 ^ 62 }
    ensures { Sends K.taken K.failures sink.old sink.new
        (reply_bytes (spelled_frame client op
        (record { code = 0; body = counts_bytes counts.now }))) result }
{
    let counts = counts.counts();
    write_all(sink, &head_and_number(client, op, counts.len()))?;
    write_wide(sink, counts)?;
    flush(sink)
}

/// Writes all of the bytes, and flushes the sink.
fn write_small<K: Sink>(sink: &mut K, bytes: &[u8]) -> Result<(), StreamFault>
    requires { K.failures sink.old < 2 ^ 62 }
    ensures { Sends K.taken K.failures sink.old sink.new bytes.now result }
{
    write_all(sink, bytes)?;
    flush(sink)
}

fn flush<K: Sink>(sink: &mut K) -> Result<(), StreamFault>
    requires { K.failures sink.old < 2 ^ 62 }
    ensures bytes { Keeps (K.taken sink.old) (K.taken sink.new) }
    ensures fault { IfErr result (λ e. e ≡ StreamFault.WriteFailed) }
    ensures failed { K.failures sink.new ≡ K.failures sink.old + failed_calls result }
{
    match sink.flush() {
        Ok(()) => Ok(()),
        Err(Failed) => Err(StreamFault::WriteFailed),
    }
}

/// Returns the bytes before a reply's body. `length` is the number of bytes after the length field.
fn head(length: u32, client: u16, op: u8, code: u8) -> [u8; 8]
    ensures { result ≡ reply_head length client op code }
{
    let [a, b, c, d] = length.to_be_bytes();
    let [e, f] = client.to_be_bytes();
    [a, b, c, d, e, f, op, code]
}

/// Returns the frame of a reply that is a name or the number of a node.
fn head_and_long(client: u16, op: u8, number: u32) -> [u8; 12]
    ensures { result ≡ reply_head 8 client op 0 ++ to_be_bytes w32 number }
{
    let [a, b, c, d, e, f, g, h] = head(8, client, op, 0);
    let [i, j, k, l] = number.to_be_bytes();
    [a, b, c, d, e, f, g, h, i, j, k, l]
}

/// Returns the frame of a reply that describes an image.
fn head_and_described(client: u16, op: u8, described: Described) -> [u8; 21]
    ensures { result ≡ reply_head 17 client op 0 ++ described_bytes described }
{
    let mut bytes = [0; 21];
    bytes[..8].copy_from_slice(&head(17, client, op, 0));
    bytes[8..].copy_from_slice(&described_bytes(described));
    bytes
}

/// Returns the bytes before the samples in the frame of a reply that is a picture.
fn head_and_description(client: u16, op: u8, desc: Desc) -> [u8; 13]
    ensures { result ≡ reply_head (byte_count desc + 9) client op 0 ++ description_bytes desc }
{
    let length = desc.byte_count() as u32 + 9;
    let [a, b, c, d, e, f, g, h] = head(length, client, op, 0);
    let [i, j, k, l, m] = description_bytes(desc);
    [a, b, c, d, e, f, g, h, i, j, k, l, m]
}

/// Writes the start of a reply frame, everything before the samples, to the front of `bytes`. The
/// reply is the PGM text of a U8 image. Returns the number of bytes written.
fn put_text_head(bytes: &mut [u8; TEXT_HEAD], client: u16, op: u8, desc: Desc) -> usize
    ensures within { result ≤ 25 }
    ensures head { take result bytes.new
        ≡ reply_head (length (written_header desc) + sample_count desc + 4) client op 0
        ++ written_header desc }
{
    let header = WrittenHeader::new(desc);
    let header = header.bytes();
    let end = 8 + header.len();
    bytes[..8].copy_from_slice(&head_before(header.len() + desc.sample_count(), client, op));
    bytes[8..end].copy_from_slice(header);
    end
}

/// Returns the bytes before a body of `count` bytes in a reply that isn't a refusal. A length above
/// 2^32 - 1 would lose its upper bytes, but no reply of the server is that long.
fn head_before(count: usize, client: u16, op: u8) -> [u8; 8]
    requires { count + 4 < 2 ^ 64 }
    ensures { result ≡ reply_head (count + 4) client op 0 }
{
    let [_, _, _, _, a, b, c, d] = (count + 4).to_be_bytes();
    let [e, f] = client.to_be_bytes();
    [a, b, c, d, e, f, op, 0]
}

/// Returns the bytes before a distribution's counts in a reply frame. `count` is the number of
/// bins.
fn head_and_number(client: u16, op: u8, count: usize) -> [u8; 10]
    requires { 4 * count + 6 < 2 ^ 64 }
    ensures { result ≡ reply_head (4 * count + 6) client op 0 ++ to_be_bytes w16 count }
{
    let [a, b, c, d, e, f, g, h] = head_before(4 * count + 2, client, op);
    let [_, _, _, _, _, _, i, j] = count.to_be_bytes();
    [a, b, c, d, e, f, g, h, i, j]
}

/// Returns the frame of a reply that has extremes.
fn head_and_extremes(client: u16, op: u8, extremes: Extremes) -> [u8; 28]
    ensures { result ≡ reply_head 24 client op 0 ++ extremes_bytes extremes }
{
    let mut bytes = [0; 28];
    bytes[..8].copy_from_slice(&head(24, client, op, 0));
    bytes[8..].copy_from_slice(&extremes_bytes(extremes));
    bytes
}
