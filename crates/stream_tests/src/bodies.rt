//! The body of a request, parsed; the texts of faults.
use client_model::Request;
use std::alloc::Global;
use std::fmt::Display;
use std::test::Fail;
use vx_base::Samples;
use vx_requests::{Failed, ParseFault, StreamFault, parse};

/// Returns the samples of the picture that the body of a WriteImage has.
fn parsed_samples(alloc: Global, body: &[u8]) -> Option<Samples> {
    match parse(alloc, 5, body).ok() {
        Some(Request::WriteImage(_, picture)) => Some(picture.into_samples()),
        _ => None,
    }
}

#[test]
fn a_body_is_parsed(rt: HostRuntime) -> Result<(), Fail> {
    let parsed = parsed_samples(rt.alloc(), b"\0\0\0\x01\xff\x01\0\x01\0\x01\x0a");
    assert!(rt; parsed == Some(Samples::U8(vec![in rt.alloc(); 10]?)));
    Ok(())
}

/// Returns whether a value is displayed as this text.
fn is_shown<T: Display>(alloc: Global, value: &T, text: &str) -> bool {
    match format!(in alloc; "{value}") {
        Ok(shown) => shown.as_str() == text,
        Err(_) => false,
    }
}

#[test]
fn texts_of_faults(rt: HostRuntime) {
    for (fault, text) in [
        (ParseFault::NoMemory, "no memory"),
        (ParseFault::InvalidParameters, "invalid parameters"),
        (ParseFault::InvalidFormat, "invalid format"),
        (ParseFault::InvalidDimension, "invalid dimension"),
        (ParseFault::InvalidValue, "invalid value"),
    ] {
        assert!(rt; is_shown(rt.alloc(), &fault, text), "{text}");
    }
    for (fault, text) in [
        (StreamFault::Truncated, "truncated"),
        (StreamFault::BadLength, "bad length"),
        (StreamFault::ReadFailed, "read failed"),
        (StreamFault::WriteFailed, "write failed"),
        (StreamFault::ReaderWouldNotEnd, "reader would not end"),
    ] {
        assert!(rt; is_shown(rt.alloc(), &fault, text), "{text}");
    }
    assert!(rt; is_shown(rt.alloc(), &Failed, "a read, a write or a flush failed"));
}
