//! What no clause says: that right words are taken, and by which kinds of error others are refused.

use crate::texts::{ANOTHER_WORD, HELP, NO_LABELS, NO_WORDS, UNKNOWN_OPTION, VERSION};
use clap::error::ErrorKind;
use retained_line::{Arguments, arguments};
use std::alloc::Global;
use std::test::Fail;

#[test]
fn takes_two_files(rt: HostRuntime) -> Result<(), Fail> {
    let given = arguments(rt.alloc(), &["retained", "app.hprof", "app.labels"])?;
    let want = Arguments {
        file: "app.hprof",
        labels: "app.labels",
    };
    assert_eq!(rt; given, want);
    Ok(())
}

/// Right words, and the file and the labels that they give: names like options, with blanks, and empty ones.
static RIGHT: [(&[&str], &str, &str); 6] = [
    (&["retained", "-", "-"], "-", "-"),
    (
        &["retained", "my dump.hprof", " labels of it "],
        "my dump.hprof",
        " labels of it ",
    ),
    (&["retained", "--", "--help", "-V"], "--help", "-V"),
    (&["retained", "a.hprof", "--", "--"], "a.hprof", "--"),
    (&["retained", "a.hprof", "--", "-a"], "a.hprof", "-a"),
    (&["retained", "", ""], "", ""),
];

/// Tests whether `words` are taken and give `file` and `labels`.
fn are_given(alloc: Global, words: &[&str], file: &str, labels: &str) -> bool {
    match arguments(alloc, words) {
        Ok(given) => given.file == file && given.labels == labels,
        Err(_) => false,
    }
}

#[test]
fn right_words_are_taken(rt: HostRuntime) {
    for (words, file, labels) in RIGHT {
        assert!(rt; are_given(rt.alloc(), words, file, labels), "{words:?}");
    }
}

/// Other words, and the kind and the text of the error for them.
static OTHERS: [(&[&str], ErrorKind, &str); 11] = [
    (&["retained", "--help"], ErrorKind::DisplayHelp, HELP),
    (&["retained", "-h"], ErrorKind::DisplayHelp, HELP),
    (&["retained", "a", "-h", "b"], ErrorKind::DisplayHelp, HELP),
    (
        &["retained", "--version"],
        ErrorKind::DisplayVersion,
        VERSION,
    ),
    (&["retained", "-V"], ErrorKind::DisplayVersion, VERSION),
    (
        &["retained", "a"],
        ErrorKind::MissingRequiredArgument,
        NO_LABELS,
    ),
    (&["retained"], ErrorKind::MissingRequiredArgument, NO_WORDS),
    (&[], ErrorKind::MissingRequiredArgument, NO_WORDS),
    (
        &["retained", "a", "b", "c"],
        ErrorKind::UnknownArgument,
        ANOTHER_WORD,
    ),
    (
        &["retained", "a", "b", "--skip"],
        ErrorKind::UnknownArgument,
        UNKNOWN_OPTION,
    ),
    (
        &["retained", "--skip", "a", "b"],
        ErrorKind::UnknownArgument,
        UNKNOWN_OPTION,
    ),
];

/// Tests whether `words` are refused by an error of this `kind` and `text`.
fn are_refused(alloc: Global, words: &[&str], kind: ErrorKind, text: &str) -> bool {
    let Err(error) = arguments(alloc, words) else {
        return false;
    };
    match format!(in alloc; "{error}") {
        Ok(printed) => error.kind() == kind && printed.as_str() == text,
        Err(_) => false,
    }
}

#[test]
fn other_words_are_refused(rt: HostRuntime) {
    for (words, kind, text) in OTHERS {
        assert!(rt; are_refused(rt.alloc(), words, kind, text), "{words:?}");
    }
}
