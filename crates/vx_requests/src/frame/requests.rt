//! Requests as frames.
ghost use Rattle.std.specs.Prelude.{◌≡◌, ◌+◌, ◌*◌, ◌<◌, ◌≤◌, ◌^◌, [], ◌∷◌, ◌++◌, length};
ghost use Rattle.std.specs.Prelude.{IsTrue};
ghost use Rattle.std.specs.Int.{w32, to_be_bytes};
ghost use Rattle.client_model.specs.declared.request.Request.TheVariants as requests;
ghost use Rattle.vx_base.specs.Description.{byte_count};
ghost use Rattle.vx_base.specs.Lut.{is_full};
ghost use Rattle.vx_wire.specs.declared.op.Op.TheVariants as ops;
ghost use Rattle.vx_wire.specs.Op.{op_number};
ghost use Rattle.vx_base.specs.Sample.{sample_bytes};
ghost use Rattle.vx_requests.specs.Stream.Transfer.{WritesAll};
ghost use Rattle.vx_requests.specs.Frame.Frames.{frame_head, frame_bytes, request_frame};
ghost use Rattle.vx_requests.specs.Frame.Frames.{fits_a_frame};
ghost use Rattle.vx_requests.specs.declared.frame.limits.TheConstants.{GREATEST_TEXT};
ghost use Rattle.client_model.specs.Request.{IsRequest};
ghost use Rattle.vx_wire.specs.Reference.{reference_bytes};
ghost use Rattle.vx_wire.specs.Description.{description_bytes};
ghost use Rattle.vx_wire.specs.Format.{format_number};

use crate::frame::samples::{write_samples, write_wide};
use crate::stream::{Sink, StreamFault, write_all};
use client_model::{Request, Text};
use vx_base::{
    Convolution, Desc, Format, Lut, ObjRef, Picture, Rect, SlotCount, ThresholdKind, ThresholdRule,
};
use vx_wire::{
    Op, binary_bytes, bins_bytes, description_bytes, format_number, node_bytes, partial_desc_bytes,
    range_bytes, rectangle_bytes, reference_bytes,
};

/// Writes the frame in which a client sends a request. Does not flush the sink, and allocates
/// nothing. It is for clients written in Rattle: the server only reads requests.
///
/// The caller must check that the request fits a frame (`fits_a_frame`). The only fault is
/// `WriteFailed`: a write failed, and part of the frame may have been written. Ensures that the
/// request's fields are in the ranges of their types (`IsRequest`). Parsing the frame's body
/// therefore gives an equal request.
pub fn write_request<K: Sink>(
    sink: &mut K,
    client: u16,
    request: &Request,
) -> Result<(), StreamFault>
    requires failures_fit { K.failures sink.old < 2 ^ 62 }
    requires fits { IsTrue (fits_a_frame request.now) }
    ensures written { WritesAll K.taken K.failures sink.old sink.new
        (frame_bytes (request_frame client request.now)) result }
    ensures request { IsRequest request.now }
{
    request.prove_request();
    match request {
        Request::OpenContext => write_short(sink, client, Op::OpenContext.number(), &[]),
        Request::ReleaseContext => write_short(sink, client, Op::ReleaseContext.number(), &[]),
        Request::CreateImage(desc) => {
            let body = description_bytes(*desc);
            write_short(sink, client, Op::CreateImage.number(), &body)
        }
        Request::QueryImage(image) => write_reference(sink, client, Op::QueryImage, *image),
        Request::WriteImage(image, picture) => write_write_image(sink, client, *image, picture),
        Request::WriteImagePgm(image, text) => write_write_image_pgm(sink, client, *image, text),
        Request::ReadImage(image) => write_reference(sink, client, Op::ReadImage, *image),
        Request::ReadImagePgm(image) => write_reference(sink, client, Op::ReadImagePgm, *image),
        Request::SetValid(image, valid) => write_set_valid(sink, client, *image, *valid),
        Request::Release(name) => write_name(sink, client, Op::Release, *name),
        Request::CreateLut(lut) => write_create_lut(sink, client, lut),
        Request::CreateThreshold(threshold) => write_create_threshold(sink, client, *threshold),
        Request::CreateConvolution(convolution) => {
            write_create_convolution(sink, client, convolution)
        }
        Request::CreateDistribution(bins) => {
            let body = bins_bytes(*bins);
            write_short(sink, client, Op::CreateDistribution.number(), &body)
        }
        Request::ReadDistribution(name) => write_name(sink, client, Op::ReadDistribution, *name),
        Request::CreateMinMax => write_short(sink, client, Op::CreateMinMax.number(), &[]),
        Request::ReadMinMax(name) => write_name(sink, client, Op::ReadMinMax, *name),
        Request::CreateGraph => write_short(sink, client, Op::CreateGraph.number(), &[]),
        Request::CreateVirtualImage(graph, declared) => {
            let partial_desc = partial_desc_bytes(*declared);
            write_named(sink, client, Op::CreateVirtualImage, *graph, &partial_desc)
        }
        Request::AddNode(graph, node) => {
            let node = node_bytes(*node);
            write_named(sink, client, Op::AddNode, *graph, &node)
        }
        Request::RemoveNode(graph, number) => {
            let number = number.to_be_bytes();
            write_named(sink, client, Op::RemoveNode, *graph, &number)
        }
        Request::VerifyGraph(graph) => write_name(sink, client, Op::VerifyGraph, *graph),
        Request::ProcessGraph(graph) => write_name(sink, client, Op::ProcessGraph, *graph),
        Request::Immediate(node) => {
            let body = node_bytes(*node);
            write_short(sink, client, Op::Immediate.number(), &body)
        }
        Request::CreateDelay(exemplar, slots) => {
            write_create_delay(sink, client, *exemplar, *slots)
        }
        Request::AgeDelay(name) => write_name(sink, client, Op::AgeDelay, *name),
        Request::RegisterAutoAging(graph, delay) => {
            let delay = delay.to_be_bytes();
            write_named(sink, client, Op::RegisterAutoAging, *graph, &delay)
        }
    }
}

/// Writes a frame whose body is a name, in one call of `write_all`.
fn write_name<K: Sink>(sink: &mut K, client: u16, op: Op, name: u32) -> Result<(), StreamFault>
    requires { K.failures sink.old < 2 ^ 62 }
    ensures { WritesAll K.taken K.failures sink.old sink.new
        (frame_bytes (record { client = client; op = op_number op; body = to_be_bytes w32 name }))
        result }
{
    write_short(sink, client, op.number(), &name.to_be_bytes())
}

/// Writes a frame whose body is a name and a field of at most 25 bytes, in one call of `write_all`.
fn write_named<K: Sink>(
    sink: &mut K,
    client: u16,
    op: Op,
    name: u32,
    field: &[u8],
) -> Result<(), StreamFault>
    requires failures_fit { K.failures sink.old < 2 ^ 62 }
    requires short { length field.now ≤ 25 }
    ensures { WritesAll K.taken K.failures sink.old sink.new
        (frame_bytes (record {
          client = client;
          op = op_number op;
          body = to_be_bytes w32 name ++ field.now;
        })) result }
{
    let mut buffer = [0; 29];
    let body = &mut buffer[..4 + field.len()];
    spell_named(name, field, body);
    write_short(sink, client, op.number(), body)
}

/// Fills `body` with a name and a field.
fn spell_named(name: u32, field: &[u8], body: &mut [u8])
    requires { length body.old ≡ 4 + length field.now }
    ensures { body.new ≡ to_be_bytes w32 name ++ field.now }
{
    body[..4].copy_from_slice(&name.to_be_bytes());
    body[4..].copy_from_slice(field);
}

/// Writes a frame whose body is a reference, in one call of `write_all`.
fn write_reference<K: Sink>(
    sink: &mut K,
    client: u16,
    op: Op,
    reference: ObjRef,
) -> Result<(), StreamFault>
    requires { K.failures sink.old < 2 ^ 62 }
    ensures { WritesAll K.taken K.failures sink.old sink.new
        (frame_bytes (record {
          client = client;
          op = op_number op;
          body = reference_bytes reference;
        })) result }
{
    write_short(sink, client, op.number(), &reference_bytes(reference))
}

/// Writes a frame whose body has at most 29 bytes, in one call of `write_all`.
fn write_short<K: Sink>(sink: &mut K, client: u16, op: u8, body: &[u8]) -> Result<(), StreamFault>
    requires failures_fit { K.failures sink.old < 2 ^ 62 }
    requires short { length body.now ≤ 29 }
    ensures { WritesAll K.taken K.failures sink.old sink.new
        (frame_bytes (record { client = client; op = op; body = body.now })) result }
{
    let mut buffer = [0; 36];
    let frame = &mut buffer[..7 + body.len()];
    spell_short(client, op, body, frame);
    write_all(sink, frame)
}

/// Fills `frame` with the bytes of a frame that has a short body.
fn spell_short(client: u16, op: u8, body: &[u8], frame: &mut [u8])
    requires short { length body.now ≤ 29 }
    requires fits { length frame.old ≡ 7 + length body.now }
    ensures { frame.new ≡ frame_bytes (record { client = client; op = op; body = body.now }) }
{
    let len = 3 + body.len() as u32;
    frame[..7].copy_from_slice(&frame_head(len, client, op));
    frame[7..].copy_from_slice(body);
}

/// Returns the bytes before a request's body. `len` is the number of bytes after the length field.
fn frame_head(len: u32, client: u16, op: u8) -> [u8; 7]
    ensures { result ≡ frame_head len client op }
{
    let [a, b, c, d] = len.to_be_bytes();
    let [e, f] = client.to_be_bytes();
    [a, b, c, d, e, f, op]
}

/// Writes the frame of a `WriteImage`: everything before the samples in one call of `write_all`,
/// and then the samples.
fn write_write_image<K: Sink>(
    sink: &mut K,
    client: u16,
    image: ObjRef,
    picture: &Picture,
) -> Result<(), StreamFault>
    requires { K.failures sink.old < 2 ^ 62 }
    ensures { WritesAll K.taken K.failures sink.old sink.new
        (frame_bytes (request_frame client (requests.WriteImage image picture.now))) result }
{
    let samples = picture.samples();
    write_all(sink, &image_head_bytes(client, image, picture.desc()))?;
    write_samples(sink, samples)
}

/// Returns the bytes before the samples in the frame of a `WriteImage`.
fn image_head_bytes(client: u16, image: ObjRef, desc: Desc) -> [u8; 17]
    ensures { result ≡ frame_head (13 + byte_count desc) client (op_number ops.WriteImage)
        ++ (reference_bytes image ++ description_bytes desc) }
{
    let len = 13 + desc.byte_count() as u32;
    let mut bytes = [0; 17];
    bytes[..7].copy_from_slice(&frame_head(len, client, Op::WriteImage.number()));
    bytes[7..12].copy_from_slice(&reference_bytes(image));
    bytes[12..].copy_from_slice(&description_bytes(desc));
    bytes
}

/// Writes the frame of a `WriteImagePgm`: everything before the text in one call of `write_all`,
/// and then the text.
fn write_write_image_pgm<K: Sink>(
    sink: &mut K,
    client: u16,
    image: ObjRef,
    text: &Text,
) -> Result<(), StreamFault>
    requires failures_fit { K.failures sink.old < 2 ^ 62 }
    requires fits { length text.now ≤ GREATEST_TEXT }
    ensures { WritesAll K.taken K.failures sink.old sink.new
        (frame_bytes (request_frame client (requests.WriteImagePgm image text.now))) result }
{
    let bytes = text.bytes();
    write_all(sink, &image_pgm_head_bytes(client, image, bytes.len()))?;
    write_all(sink, bytes)
}

/// Returns the bytes before the text in the frame of a `WriteImagePgm`.
fn image_pgm_head_bytes(client: u16, image: ObjRef, count: usize) -> [u8; 12]
    requires { count ≤ GREATEST_TEXT }
    ensures { result ≡ frame_head (8 + count) client (op_number ops.WriteImagePgm)
        ++ reference_bytes image }
{
    let len = 8 + count as u32;
    let mut bytes = [0; 12];
    bytes[..7].copy_from_slice(&frame_head(len, client, Op::WriteImagePgm.number()));
    bytes[7..].copy_from_slice(&reference_bytes(image));
    bytes
}

/// Writes the frame of a `SetValid`, in one call of `write_all`.
fn write_set_valid<K: Sink>(
    sink: &mut K,
    client: u16,
    image: ObjRef,
    valid: Rect,
) -> Result<(), StreamFault>
    requires { K.failures sink.old < 2 ^ 62 }
    ensures { WritesAll K.taken K.failures sink.old sink.new
        (frame_bytes (request_frame client (requests.SetValid image valid))) result }
{
    let [a, b, c, d, e] = reference_bytes(image);
    let [f, g, h, i, j, k, l, m] = rectangle_bytes(valid);
    let body = [a, b, c, d, e, f, g, h, i, j, k, l, m];
    write_short(sink, client, Op::SetValid.number(), &body)
}

/// Writes the frame of a `CreateLut`: everything before the entries in one call of `write_all`, and
/// then the entries.
fn write_create_lut<K: Sink>(sink: &mut K, client: u16, lut: &Lut) -> Result<(), StreamFault>
    requires { K.failures sink.old < 2 ^ 62 }
    ensures { WritesAll K.taken K.failures sink.old sink.new
        (frame_bytes (request_frame client (requests.CreateLut lut.now))) result }
{
    let entries = lut.entries();
    write_all(
        sink,
        &create_lut_head(client, entries.format(), entries.len()),
    )?;
    write_samples(sink, entries)
}

/// Returns the bytes before the entries in the frame of a `CreateLut`.
fn create_lut_head(client: u16, format: Format, count: usize) -> [u8; 8]
    requires { IsTrue (is_full format count) }
    ensures { result ≡ frame_head (4 + count * sample_bytes format) client (op_number ops.CreateLut)
        ++ format_number format ∷ [] }
{
    let len = 4 + (count * format.sample_bytes()) as u32;
    let [a, b, c, d, e, f, op] = frame_head(len, client, Op::CreateLut.number());
    [a, b, c, d, e, f, op, format_number(format)]
}

/// Writes the frame of a `CreateThreshold`, in one call of `write_all`.
fn write_create_threshold<K: Sink>(
    sink: &mut K,
    client: u16,
    threshold: ThresholdRule,
) -> Result<(), StreamFault>
    requires { K.failures sink.old < 2 ^ 62 }
    ensures { WritesAll K.taken K.failures sink.old sink.new
        (frame_bytes (request_frame client (requests.CreateThreshold threshold))) result }
{
    let format = threshold.format();
    let (true_value, false_value) = (threshold.true_value(), threshold.false_value());
    let op = Op::CreateThreshold.number();
    match threshold.kind() {
        ThresholdKind::Binary(limit) => {
            let body = binary_bytes(format, limit, true_value, false_value);
            write_short(sink, client, op, &body)
        }
        ThresholdKind::Range(lower, upper) => {
            let body = range_bytes(format, lower, upper, true_value, false_value);
            write_short(sink, client, op, &body)
        }
    }
}

/// Writes the frame of a `CreateConvolution`: everything before the coefficients in one call of
/// `write_all`, and then the coefficients.
fn write_create_convolution<K: Sink>(
    sink: &mut K,
    client: u16,
    convolution: &Convolution,
) -> Result<(), StreamFault>
    requires { K.failures sink.old < 2 ^ 62 }
    ensures { WritesAll K.taken K.failures sink.old sink.new
        (frame_bytes (request_frame client (requests.CreateConvolution convolution.now))) result }
{
    let coefficients = convolution.coefficients();
    write_all(sink, &create_convolution_head(client, convolution))?;
    write_wide(sink, coefficients)
}

/// Returns the bytes before the coefficients in the frame of a `CreateConvolution`.
fn create_convolution_head(client: u16, convolution: &Convolution) -> [u8; 10]
    ensures { let c = convolution.now in
        result ≡ frame_head (6 + c.rows * c.columns * 2) client (op_number ops.CreateConvolution)
        ++ c.columns ∷ c.rows ∷ c.exponent ∷ [] }
{
    let (columns, rows) = (convolution.columns(), convolution.rows());
    let len = 6 + u32::from(rows) * u32::from(columns) * 2;
    let [a, b, c, d, e, f, op] = frame_head(len, client, Op::CreateConvolution.number());
    [a, b, c, d, e, f, op, columns, rows, convolution.exponent()]
}

/// Writes the frame of a `CreateDelay`, in one call of `write_all`.
fn write_create_delay<K: Sink>(
    sink: &mut K,
    client: u16,
    exemplar: ObjRef,
    slots: SlotCount,
) -> Result<(), StreamFault>
    requires { K.failures sink.old < 2 ^ 62 }
    ensures { WritesAll K.taken K.failures sink.old sink.new
        (frame_bytes (request_frame client (requests.CreateDelay exemplar slots))) result }
{
    let [a, b, c, d, e] = reference_bytes(exemplar);
    let body = [a, b, c, d, e, slots.get()];
    write_short(sink, client, Op::CreateDelay.number(), &body)
}
