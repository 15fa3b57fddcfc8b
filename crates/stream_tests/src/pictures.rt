//! Pictures in bodies of more than 64 bytes: in pieces, cut short, and refused.
use crate::devices::{NEVER, PiecewiseSink};
use crate::streams::{ALL_AT_ONCE, Devices, in_pieces, serve_bytes};
use client_contexts::Runtime;
use client_model::{Limits, Request};
use std::alloc::Global;
use std::test::Fail;
use vx_base::{Desc, Format, ObjRef, Picture, Samples};
use vx_requests::{StreamFault, fits_a_frame, write_request};

/// Returns the reference to the first image of client 1.
pub fn image() -> ObjRef {
    ObjRef::new(1, None)
}

/// The format, width and height of each picture. The last two pictures have more bytes of samples
/// than the server decodes at a time.
const PICTURES: [(Format, u16, u16); 3] = [
    (Format::U8, 13, 11),
    (Format::S16, 70, 130),
    (Format::U32, 97, 61),
];

/// Fills samples with pseudorandom numbers.
pub fn scatter(samples: &mut Samples, seed: u32) {
    let mut number = seed;
    match samples {
        Samples::U8(samples) => {
            for sample in samples.iter_mut() {
                number = number.wrapping_mul(1_664_525).wrapping_add(1_013_904_223);
                *sample = number.to_be_bytes()[0];
            }
        }
        Samples::S16(samples) => {
            for sample in samples.iter_mut() {
                number = number.wrapping_mul(1_664_525).wrapping_add(1_013_904_223);
                let [high, low, _, _] = number.to_be_bytes();
                *sample = i16::from_be_bytes([high, low]);
            }
        }
        Samples::U32(samples) => {
            for sample in samples.iter_mut() {
                number = number.wrapping_mul(1_664_525).wrapping_add(1_013_904_223);
                *sample = number;
            }
        }
    }
}

/// Returns the frame in which client 1 sends a request.
pub fn frame(alloc: Global, request: &Request) -> Result<Vec<u8>, Fail> {
    let mut sink = PiecewiseSink {
        bytes: Vec::new(alloc),
        piece: 1_000_000,
        until_failure: NEVER,
        failures: 0,
    };
    if !fits_a_frame(request) {
        return Err("too long".into());
    }
    match write_request(&mut sink, 1, request) {
        Ok(()) => Ok(sink.bytes),
        Err(_) => Err("not written".into()),
    }
}

/// Returns the frame in which client 1 writes a picture to its image.
fn writing(alloc: Global, desc: Desc, seed: u32) -> Result<Vec<u8>, Fail> {
    let mut samples = Samples::zeros(alloc, desc.format(), desc.sample_count())?;
    scatter(&mut samples, seed);
    if samples.len() != desc.sample_count() || samples.format() != desc.format() {
        return Err("so many of the format".into());
    }
    frame(
        alloc,
        &Request::WriteImage(image(), Picture::new(desc, samples)),
    )
}

/// Returns the bytes of the picture in the frame `writing`: the description and the samples. They
/// follow the reference. A ReadImage after the frame gets them as the body of its reply.
fn read(writing: &[u8]) -> &[u8] {
    if writing.len() < 12 {
        writing
    } else {
        &writing[12..]
    }
}

/// Serves a stream over these devices, and returns the replies. Serving must succeed.
pub fn ask_over(
    alloc: Global,
    runtime: &mut Runtime,
    stream: &[u8],
    devices: Devices,
) -> Result<Vec<u8>, Fail> {
    let served = serve_bytes(alloc, runtime, stream, devices);
    if served.result.is_err() {
        return Err("it ended badly".into());
    }
    Ok(served.written)
}

/// Serves a stream, and returns the replies. Serving must succeed.
pub fn ask(alloc: Global, runtime: &mut Runtime, stream: &[u8]) -> Result<Vec<u8>, Fail> {
    ask_over(alloc, runtime, stream, ALL_AT_ONCE)
}

/// Serves the frame of a request of client 1, and returns the reply.
fn request(alloc: Global, runtime: &mut Runtime, request: &Request) -> Result<Vec<u8>, Fail> {
    let frame = frame(alloc, request)?;
    ask(alloc, runtime, frame.as_slice())
}

/// Client 1 opens a context, and creates an image of this description.
fn open(alloc: Global, runtime: &mut Runtime, desc: Desc) -> Result<(), Fail> {
    request(alloc, runtime, &Request::OpenContext)?;
    request(alloc, runtime, &Request::CreateImage(desc))?;
    Ok(())
}

/// Returns a runtime in which client 1 has image 1, of this description.
pub fn opened(alloc: Global, desc: Desc) -> Result<Runtime, Fail> {
    let mut runtime = Runtime::new(alloc, Limits::default());
    open(alloc, &mut runtime, desc)?;
    Ok(runtime)
}

/// Returns whether the image has the picture in the frame `writing`.
fn holds(alloc: Global, runtime: &mut Runtime, writing: &[u8]) -> Result<bool, Fail> {
    let replies = request(alloc, runtime, &Request::ReadImage(image()))?;
    Ok(replies.len() > 8 && replies[7] == 0 && &replies[8..] == read(writing))
}

/// Returns the frame `writing`, and a frame in which client 1 reads its image.
fn with_reading(alloc: Global, writing: &[u8]) -> Result<Vec<u8>, Fail> {
    let reading = frame(alloc, &Request::ReadImage(image()))?;
    let mut frames = writing.to_vec(alloc)?;
    frames.extend_from_slice(reading.as_slice())?;
    Ok(frames)
}

/// Writes the picture in the frame `writing`, and reads it back over these devices. Returns whether
/// the picture is unchanged.
fn comes_back(
    alloc: Global,
    runtime: &mut Runtime,
    writing: &[u8],
    devices: Devices,
) -> Result<bool, Fail> {
    let frames = with_reading(alloc, writing)?;
    let replies = ask_over(alloc, runtime, frames.as_slice(), devices)?;
    Ok(
        replies.len() > 16
            && &replies[..8] == b"\0\0\0\x04\0\x01\x05\0".as_slice()
            && &replies[16..] == read(writing),
    )
}

/// Returns whether pictures come back that arrive and leave in pieces.
fn come_back_in_pieces(alloc: Global, runtime: &mut Runtime, desc: Desc) -> Result<bool, Fail> {
    let mut come_back = true;
    for (source_piece, sink_piece, seed) in [(1_000_000, 1_000_000, 1), (1000, 999, 2), (7, 3, 3)] {
        let picture = writing(alloc, desc, seed)?;
        let devices = in_pieces(source_piece, sink_piece);
        come_back &= comes_back(alloc, runtime, picture.as_slice(), devices)?;
    }
    Ok(come_back)
}

#[test]
fn pictures_in_pieces(rt: HostRuntime) -> Result<(), Fail> {
    for (format, width, height) in PICTURES {
        let desc = Desc::new(width, height, format).ok_or("within the limits")?;
        let mut runtime = opened(rt.alloc(), desc)?;
        assert!(rt; come_back_in_pieces(rt.alloc(), &mut runtime, desc)?);
    }
    Ok(())
}

/// Returns whether the image still has the first picture after two failed writes of the next
/// picture. `part` is the beginning of the next picture's frame. In one write, the stream ends
/// after `part`. In the other, a read within `part` fails.
fn stays(
    alloc: Global,
    runtime: &mut Runtime,
    first: &[u8],
    part: &[u8],
    fails: Devices,
) -> Result<bool, Fail> {
    let short = serve_bytes(alloc, runtime, part, ALL_AT_ONCE);
    let stays = holds(alloc, runtime, first)?;
    let failed = serve_bytes(alloc, runtime, part, fails);
    let ended = short.result == Err(StreamFault::Truncated)
        && failed.result == Err(StreamFault::ReadFailed);
    Ok(ended && stays && holds(alloc, runtime, first)?)
}

/// Calls `stays` for 23 parts of the frame that writes the next picture. Each part begins at the
/// frame's start. Returns whether the image still has the first picture each time.
fn stays_after_parts(
    alloc: Global,
    runtime: &mut Runtime,
    first: &[u8],
    next: &[u8],
) -> Result<bool, Fail> {
    for parts in 1..24 {
        let count = next.len() / 24 * parts;
        let fails = Devices {
            source_piece: next.len() / 32,
            good_reads: parts as u64,
            ..ALL_AT_ONCE
        };
        if !stays(alloc, runtime, first, &next[..count], fails)? {
            return Ok(false);
        }
    }
    Ok(true)
}

/// Writes the first picture, parts of the next one, and then the next one whole. Returns whether
/// the image has the first picture until then.
fn changes_with_a_whole_frame(
    alloc: Global,
    runtime: &mut Runtime,
    first: &[u8],
    next: &[u8],
) -> Result<bool, Fail> {
    ask(alloc, runtime, first)?;
    let stays = stays_after_parts(alloc, runtime, first, next)?;
    ask(alloc, runtime, next)?;
    Ok(stays && holds(alloc, runtime, next)?)
}

/// An image doesn't change if, within the frame that writes it, the stream ends or a read fails.
#[test]
fn pictures_cut_short(rt: HostRuntime) -> Result<(), Fail> {
    let alloc = rt.alloc();
    for (format, width, height) in PICTURES {
        let desc = Desc::new(width, height, format).ok_or("within the limits")?;
        let (first, next) = (writing(alloc, desc, 1)?, writing(alloc, desc, 2)?);
        let mut runtime = opened(alloc, desc)?;
        let (first, next) = (first.as_slice(), next.as_slice());
        assert!(rt; changes_with_a_whole_frame(alloc, &mut runtime, first, next)?);
    }
    Ok(())
}

/// Returns whether a picture of another description is refused with this code, and the image still
/// has the first picture.
fn is_refused(
    alloc: Global,
    runtime: &mut Runtime,
    other: Desc,
    code: u8,
    first: &[u8],
) -> Result<bool, Fail> {
    let writing = writing(alloc, other, 3)?;
    let frames = with_reading(alloc, writing.as_slice())?;
    let replies = ask(alloc, runtime, frames.as_slice())?;
    Ok(replies.len() > 16 && replies[7] == code && &replies[16..] == read(first))
}

/// Writes the first picture, and pictures of other descriptions. Returns whether these are refused,
/// each with its code.
fn refuses_others(alloc: Global, runtime: &mut Runtime, first: &[u8]) -> Result<bool, Fail> {
    ask(alloc, runtime, first)?;
    let mut refuses = true;
    for (format, width, height, code) in [
        (Format::S16, 30, 40, 6),
        (Format::S16, 41, 30, 6),
        (Format::U8, 40, 30, 5),
        (Format::U32, 40, 30, 5),
    ] {
        let other = Desc::new(width, height, format).ok_or("within the limits")?;
        refuses &= is_refused(alloc, runtime, other, code, first)?;
    }
    Ok(refuses)
}

/// A refused picture is skipped, and the next picture is written.
#[test]
fn pictures_refused(rt: HostRuntime) -> Result<(), Fail> {
    let alloc = rt.alloc();
    let desc = Desc::new(40, 30, Format::S16).ok_or("within the limits")?;
    let (first, next) = (writing(alloc, desc, 1)?, writing(alloc, desc, 2)?);
    let mut runtime = opened(alloc, desc)?;
    assert!(rt; refuses_others(alloc, &mut runtime, first.as_slice())?);
    assert!(rt; comes_back(alloc, &mut runtime, next.as_slice(), ALL_AT_ONCE)?);
    Ok(())
}
