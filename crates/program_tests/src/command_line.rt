//! Command lines that are refused, and those that ask for help.
use crate::serve::REQUESTS;
use std::alloc::Global;
use std::process::Abort;
use vx_programs::run;

/// Checks that the program refuses these words, reads nothing and writes nothing, and that the
/// message for standard error contains this text.
fn refuses(rt: &impl Abort, alloc: Global, words: &[&str], text: &str) {
    let mut written = Vec::new(alloc);
    let mut input = REQUESTS;
    match run(alloc, words, &mut input, &mut written) {
        Ok(()) => assert!(rt; false, "{words:?}"),
        Err(ended) => {
            assert!(rt; ended.status() == 2, "{words:?}");
            assert!(rt; ended.line().contains(text), "{words:?}: {}", ended.line());
        }
    }
    assert!(rt; written.is_empty());
    assert!(rt; input.len() == REQUESTS.len());
}

#[test]
fn refuses_other_numbers_of_bytes(rt: HostRuntime) {
    for word in [
        "0",
        "00",
        "1099511627777",
        "18446744073709551616",
        "18446744073709551624",
        "340282366920938463463374607431768211464",
        "+8",
        "-8",
        "--8",
        "eight",
        "8k",
        "k8",
        "0x8",
        "8.0",
        "8 ",
        " 8",
        "8,000",
        "1_000",
        "\u{0668}",
        "",
    ] {
        for option in ["--quota", "--work"] {
            refuses(&rt, rt.alloc(), &["serve", option, word], "error: ");
            let joined = format!(in rt.alloc(); "{option}={word}");
            let Ok(joined) = joined else {
                assert!(rt; false, "no memory");
                return;
            };
            refuses(&rt, rt.alloc(), &["serve", joined.as_str()], "error: ");
        }
    }
    for (option, text) in [
        (
            "--quota",
            "invalid value '0' for '--quota <BYTES>': it must be a number from 1",
        ),
        (
            "--work",
            "invalid value '0' for '--work <BYTES>': it must be a number from 1",
        ),
        ("--quota", "1099511627776\n\nUsage: vx_main serve"),
        ("--work", "1099511627776\n\nUsage: vx_main serve"),
    ] {
        refuses(&rt, rt.alloc(), &["serve", option, "0"], text);
    }
}

#[test]
fn reads_the_command_line(rt: HostRuntime) {
    for words in [
        &[][..],
        &["serve", "now"],
        &["serve", "8"],
        &["serve", "--quota", "8", "9"],
        &["serve", "--quota", "8", "--quota", "8"],
        &["serve", "--quota=8", "--quota=9"],
        &["serve", "--quot", "8"],
        &["serve", "--work", "8", "--work", "8"],
        &["serve", "--works", "8"],
        &["serve", "-q", "8"],
        &["serve", "--", "--quota", "8"],
        &["--quota", "8", "serve"],
        &["--work", "8", "serve"],
        &["apply"],
        &["apply", "sobel"],
        &["apply", "Box"],
        &["apply", "box "],
        &["apply", ""],
        &["apply", "box", "not"],
        &["apply", "--border", "replicate"],
        &["apply", "box", "--border", "constant"],
        &["apply", "box", "--border="],
        &["apply", "box", "--border", "Undefined"],
        &[
            "apply",
            "box",
            "--border",
            "replicate",
            "--border",
            "replicate",
        ],
        &["apply", "box", "--bord", "replicate"],
        &["apply", "box", "-b", "replicate"],
        &["apply", "box", "--quota", "8"],
        &["apply", "box", "--work", "8"],
        &["--border", "replicate", "apply", "box"],
        &["serve", "--border", "replicate"],
        &["serve", "box"],
    ] {
        refuses(&rt, rt.alloc(), words, "Usage: vx_main");
    }
    refuses(&rt, rt.alloc(), &["serve", "--quota"], "'--quota <BYTES>'");
    refuses(&rt, rt.alloc(), &["serve", "--work"], "'--work <BYTES>'");
    refuses(&rt, rt.alloc(), &["apply"], "<FUNCTION>");
    let border = "'--border <BORDER>'";
    refuses(&rt, rt.alloc(), &["apply", "box", "--border"], border);
    for (words, text) in [
        (&["--help"][..], &b"An OpenVX server"[..]),
        (&["serve", "--help"], b"Reads request frames"),
        (&["apply", "--help"], b"Applies a function"),
        (&["--version"], b"vx_main 0.1.0\n"),
    ] {
        let mut written = Vec::new(rt.alloc());
        assert!(rt; run(rt.alloc(), words, REQUESTS, &mut written).is_ok());
        assert!(rt; written.as_slice().starts_with(text), "{words:?}");
    }
}
