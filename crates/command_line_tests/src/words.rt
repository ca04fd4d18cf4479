//! What no clause says: that right words are taken, and by which kinds of error others are refused.

use clap::error::ErrorKind;
use command_line::{Arguments, arguments};
use std::alloc::Global;
use std::test::Fail;

/// The message if `--skip` is given twice.
const LIST_TWICE: &str = "\
error: the argument '--skip <LIST>' cannot be used multiple times

Usage: heapmark [OPTIONS] <FILE>

For more information, try '--help'.
";

#[test]
fn takes_a_file_alone(rt: HostRuntime) -> Result<(), Fail> {
    let given = arguments(rt.alloc(), &["heapmark", "app.hprof"])?;
    let want = Arguments {
        file: "app.hprof",
        workers: 4,
        buffer: 256,
        buffers: 1024,
        first_tag: 0,
        skip: None,
    };
    assert_eq!(rt; given, want);
    Ok(())
}

/// Tests whether `words` are taken and give the list `list`.
fn gives_list(alloc: Global, words: &[&str], list: &str) -> bool {
    match arguments(alloc, words) {
        Ok(given) => given.skip == Some(list),
        Err(_) => false,
    }
}

/// Tests whether `words` are refused by an error of this `kind` and `text`.
fn is_told(alloc: Global, words: &[&str], kind: ErrorKind, text: &str) -> bool {
    let Err(error) = arguments(alloc, words) else {
        return false;
    };
    match format!(in alloc; "{error}") {
        Ok(told) => error.kind() == kind && told.as_str() == text,
        Err(_) => false,
    }
}

#[test]
fn takes_one_list_of_fields(rt: HostRuntime) {
    // An empty text is taken too: `arguments` does not check what the list says.
    let lists: [(&[&str], &str); 3] = [
        (&["heapmark", "--skip", "a.b,c.d", "app.hprof"], "a.b,c.d"),
        (&["heapmark", "app.hprof", "--skip="], ""),
        (&["heapmark", "--skip", "", "app.hprof"], ""),
    ];
    for (words, list) in lists {
        assert!(rt; gives_list(rt.alloc(), words, list), "{words:?}");
    }
    let two = ["heapmark", "--skip", "a.b", "--skip", "c.d", "app.hprof"];
    assert!(rt; is_told(rt.alloc(), &two, ErrorKind::ArgumentConflict, LIST_TWICE));
}

/// Returns the kind of the error by which `words` are refused.
fn kind_of_refusal(alloc: Global, words: &[&str]) -> Option<ErrorKind> {
    match arguments(alloc, words) {
        Ok(_) => None,
        Err(error) => Some(error.kind()),
    }
}

#[test]
fn help_and_version_are_asked_for(rt: HostRuntime) {
    let wishes = [
        ("--help", ErrorKind::DisplayHelp),
        ("-h", ErrorKind::DisplayHelp),
        ("--version", ErrorKind::DisplayVersion),
        ("-V", ErrorKind::DisplayVersion),
    ];
    for (word, kind) in wishes {
        let told = kind_of_refusal(rt.alloc(), &["heapmark", word]);
        assert_eq!(rt; told, Some(kind), "{word}");
    }
}
