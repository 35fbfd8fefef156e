//! Words that mean no command, and those whose command would write its own input.

use crate::call::ended;
use bb_cases::{half, holds, store_of};
use std::test::Fail;

/// The line for words that mean no command.
const USAGE: &str =
    "usage: bilbo compile IN PREFIX [options] | check IN PREFIX | sample N PREFIX [options]";

#[test]
fn words_that_mean_no_command_get_the_usage_line(rt: HostRuntime) -> Result<(), Fail> {
    let rows = [
        "compile",
        "compile half.v",
        "compile half.v out more",
        "compiles half.v out",
        "compile -half.v out",
        "compile half.v -",
        "compile half.v ",
        "compile half.v out --width=2 --width 2",
        "check half.v",
        "check half.v o p",
        "check half.v o --width 2",
        "check half.v -o",
        "sample p",
        "sample 0 p",
        "sample 0 out",
        "sample 01 p",
        "sample 65537 p",
        "sample 1 p q",
        "sample 1 p --width 1",
        "sample 1 p --register=2 --register=2",
        "samples 1 p",
        "migrate half.v o p",
    ];
    for words in rows {
        let names = ["half.v", "out.v"];
        let texts = [half::TEXT, "old"];
        let mut store = store_of(rt.alloc(), &names, &texts, Vec::new(rt.alloc()))?;
        let end = ended(rt.alloc(), words, &mut store, None)?;
        assert!(rt; end.says(2, USAGE), "{words}");
        assert!(rt; holds(&store, &names, &texts), "{words}");
    }
    Ok(())
}

#[test]
fn a_command_that_would_write_its_input_is_refused(rt: HostRuntime) -> Result<(), Fail> {
    let mut store = store_of(rt.alloc(), &["out.v"], &["old"], Vec::new(rt.alloc()))?;
    let end = ended(rt.alloc(), "compile out.v out", &mut store, None)?;
    assert!(rt; end.says(2, "refused words: same name"));
    assert!(rt; holds(&store, &["out.v"], &["old"]));
    Ok(())
}

#[test]
fn words_whose_answer_is_not_put_end_in_4(rt: HostRuntime) -> Result<(), Fail> {
    for words in ["compile out.v out", "compile half.v"] {
        let mut store = store_of(rt.alloc(), &["out.v"], &["old"], Vec::new(rt.alloc()))?;
        let end = ended(rt.alloc(), words, &mut store, Some(0))?;
        assert!(rt; end.is_silent(4), "{words}");
        assert!(rt; holds(&store, &["out.v"], &["old"]), "{words}");
    }
    Ok(())
}
