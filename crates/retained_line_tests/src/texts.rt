//! The whole texts that the command prints about itself or about wrong words, as clap words them.

/// The help.
pub const HELP: &str = "\
Prints, for any number of labels on the references of a Java heap dump, which
objects each holds: those that are not reachable without the references that
have the label. One pass over the dump finds this for all labels at once.

Usage: retained <FILE> <LABELS>

Arguments:
  <FILE>    A heap dump of at most 1 GiB and 16,777,216 objects (HPROF binary,
            JAVA PROFILE 1.0.2), as `jcmd PID GC.heap_dump FILE` writes it
  <LABELS>  A text that says which references have which labels. Its line
            `label 0 class 1795204 3` gives the label 0 to identifier number 3
            of each object whose class has the identifier 1795204;
            docs/LABELS.md has the other lines

Options:
  -h, --help     Print help
  -V, --version  Print version

The table, on standard output, has a line for each class and set of labels: the
number of objects, their bytes, the set, and the class. Each reachable object is
counted once, under exactly those labels that hold it. A set is a label, - for
none, or a number above all labels: a line `set N = A + B` before says that N
has the labels of A and those of B. What a label holds is the sum of the lines
whose sets have it.

Bytes are those in the dump: no headers and no padding, and 8 for each reference
of a 64-bit machine.

Exit status:
  0  the table was written, or the help or the version was requested
  1  refused: standard error has a line such as
     `retained: refused 5 BadSubTag at 49`, with the code, its name and, for a
     fault of the dump, its offset; 21 BadOptions: LABELS is no text of labels;
     standard output has nothing, or at 20 WriteFault a beginning of the table
  2  the command line is wrong: standard error says why

Example:
  $ jcmd 4711 GC.heap_dump /tmp/app.hprof
  $ echo 'label 0 class 1795204 3' > /tmp/app.labels
  $ retained /tmp/app.hprof /tmp/app.labels
";

/// The version, and the logic with which it is proved.
pub const VERSION: &str = "retained 0.4.0
rattle logic dac8208d650f15bf
";

/// The message about a file without a text of labels.
pub const NO_LABELS: &str = "error: the following required arguments were not provided:
  <LABELS>

Usage: retained <FILE> <LABELS>

For more information, try '--help'.
";

/// The message about a command line without any word, or with the program's name only.
pub const NO_WORDS: &str = "error: the following required arguments were not provided:
  <FILE>
  <LABELS>

Usage: retained <FILE> <LABELS>

For more information, try '--help'.
";

/// The message about a third word that is no option.
pub const ANOTHER_WORD: &str = "error: unexpected argument 'c' found

Usage: retained <FILE> <LABELS>

For more information, try '--help'.
";

/// The message about an option that does not exist.
pub const UNKNOWN_OPTION: &str = "error: unexpected argument '--skip' found

  tip: to pass '--skip' as a value, use '-- --skip'

Usage: retained <FILE> <LABELS>

For more information, try '--help'.
";
