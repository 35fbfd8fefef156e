//! What words mean, in one line each.

use bb_words::{Command, Settings, WordsFault, words};
use std::alloc::{AllocError, Global};
use std::test::Fail as TestFail;

/// The words of a text, which a blank parts.
fn words_of(alloc: Global, text: &str) -> Result<Vec<String>, AllocError> {
    let mut words = Vec::new(alloc);
    for word in text.split(' ') {
        words.push(String::from_str(alloc, word)?)?;
    }
    Ok(words)
}

fn settings_text(alloc: Global, settings: &Settings) -> Result<String, AllocError> {
    let (width, least, most) = (settings.width, settings.min_degree, settings.max_degree);
    let (cycles, register) = (settings.max_cycles, settings.register);
    format!(in alloc; "{width} {least} {most} {cycles} {register}")
}

/// What is answered to the words of a text, in one line.
fn answer(alloc: Global, text: &str) -> Result<String, AllocError> {
    let call = words_of(alloc, text)?;
    match words(alloc, &call) {
        Ok(
            Command::Compile {
                input,
                prefix,
                settings,
            },
        ) => {
            let set = settings_text(alloc, &settings)?;
            format!(in alloc; "compile {input} {prefix} {set}")
        }
        Ok(Command::Check { input, prefix }) => format!(in alloc; "check {input} {prefix}"),
        Ok(
            Command::Sample {
                number,
                prefix,
                settings,
            },
        ) => {
            let set = settings_text(alloc, &settings)?;
            format!(in alloc; "sample {number} {prefix} {set}")
        }
        Err(WordsFault::Usage) => format!(in alloc; "usage"),
        Err(WordsFault::SameName) => format!(in alloc; "same name"),
        Err(WordsFault::NoMemory) => Err(AllocError),
    }
}

#[test]
fn words_are_answered_with_their_command(rt: HostRuntime) -> Result<(), TestFail> {
    let rows = [
        ("compile half.v o", "compile half.v o 8 1 16 16777216 8"),
        ("check half.v o", "check half.v o"),
        ("sample 1 p", "sample 1 p 8 1 16 16777216 8"),
        ("sample 65536 p", "sample 65536 p 8 1 16 16777216 8"),
        (
            "compile half.v o --width 2",
            "compile half.v o 2 1 16 16777216 8",
        ),
        (
            "compile --width=12 half.v o",
            "compile half.v o 12 1 16 16777216 8",
        ),
        (
            "compile half.v --min-degree 16 o",
            "compile half.v o 8 16 16 16777216 8",
        ),
        (
            "compile half.v o --min-degree=3",
            "compile half.v o 8 3 16 16777216 8",
        ),
        (
            "compile --max-degree 20 half.v o",
            "compile half.v o 8 1 20 16777216 8",
        ),
        (
            "compile half.v --max-degree=1 o",
            "compile half.v o 8 1 1 16777216 8",
        ),
        (
            "compile half.v o --max-cycles 9",
            "compile half.v o 8 1 16 9 8",
        ),
        (
            "compile half.v o --max-cycles=1099511627776",
            "compile half.v o 8 1 16 1099511627776 8",
        ),
        (
            "compile half.v o --register 1",
            "compile half.v o 8 1 16 16777216 1",
        ),
        (
            "compile half.v o --register=16",
            "compile half.v o 8 1 16 16777216 16",
        ),
        (
            "sample 20000 p --width 6 --min-degree 18 --max-degree 20 --max-cycles 1099511627776",
            "sample 20000 p 6 18 20 1099511627776 8",
        ),
    ];
    for (text, line) in rows {
        let answered = answer(rt.alloc(), text)?;
        assert_eq!(rt; answered.as_str(), line, "{text}");
    }
    Ok(())
}

#[test]
fn words_of_no_command_are_refused(rt: HostRuntime) -> Result<(), TestFail> {
    let rows = [
        "",
        "compile",
        "compile half.v",
        "compile half.v o p",
        "compile half.v o --width=2 --width 2",
        "compile half.v o --width=2 --width=2",
        "--width 2 compile half.v o",
        "compile half.v o --width",
        "compile half.v o --width=",
        "compile half.v o --width 1",
        "compile half.v o --width 13",
        "compile half.v o --width 02",
        "compile half.v o --width +2",
        "compile half.v o --width 18446744073709551618",
        "compile half.v o --min-degree 17",
        "compile half.v o --depth 2",
        "compile half.v o --",
        "compile half.v o -",
        "compile half.v o -w",
        "compile  o",
        "compile o.v o --register 0",
        "check half.v o --width 2",
        "check half.v",
        "sample 0 p",
        "sample 65537 p",
        "sample 01 p",
        "sample p 1",
        "compiles half.v o",
    ];
    for text in rows {
        let answered = answer(rt.alloc(), text)?;
        assert_eq!(rt; answered.as_str(), "usage", "{text}");
    }
    Ok(())
}

#[test]
fn a_file_that_is_read_is_not_written(rt: HostRuntime) -> Result<(), TestFail> {
    let rows = [
        ("compile o.v o", "same name"),
        ("compile o.sched o", "same name"),
        ("compile o.sig o", "same name"),
        ("compile --width 2 o.cert o", "same name"),
        ("compile o o", "compile o o 8 1 16 16777216 8"),
        ("compile o.in.v o", "compile o.in.v o 8 1 16 16777216 8"),
        ("check o.v o", "check o.v o"),
    ];
    for (text, line) in rows {
        let answered = answer(rt.alloc(), text)?;
        assert_eq!(rt; answered.as_str(), line, "{text}");
    }
    Ok(())
}
