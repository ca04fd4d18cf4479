//! The whole texts that the program prints about itself or about wrong words, as clap words them.

/// The help.
pub const HELP: &str = "\
Marks the reachable objects of a Java heap dump with several threads, and prints
a histogram of them: for each class the number of its reachable objects and the
bytes of their fields or elements. An object is reachable if a path of
references joins a root to it.

Usage: heapmark [OPTIONS] <FILE>

Arguments:
  <FILE>  A heap dump of at most 1 GiB and 16,777,216 objects (HPROF binary,
          JAVA PROFILE 1.0.2), as `jcmd PID GC.heap_dump FILE` writes it

Options:
      --workers <N>    Threads, 1 to 64 [default: 4]
      --buffer <N>     Objects in one work buffer, 2 to 4096 [default: 256]
      --buffers <N>    Work buffers, 4 to 65534, and at least two for each
                       worker and two more [default: 1024]
      --first-tag <N>  First tag of the two stacks of buffers, 0 to
                       281474976710655; only tests of the last tags
                       need it [default: 0]
      --skip <LIST>    Fields of instances that are not followed, 1 to 64 of
                       the form Class.field with commas between, as
                       java/lang/ref/Reference.referent
  -h, --help           Print help
  -V, --version        Print version

The report, on standard output, has a line for each class: the number of its
reachable objects, their bytes, and the class. The line with the most bytes is
the first. Three more lines count the reachable objects, the unreachable ones,
and the identifiers, in objects and in roots, that no object of the dump has.
Only the option --skip changes the report.

Bytes are those in the dump: no headers and no padding, and 8 for each reference
of a 64-bit machine. Dumps of all objects are those of jcmd with -all, of jmap
without live, and some at an OutOfMemoryError: there, most unreachable objects
are garbage. In other dumps, only what the dump omits keeps unreachable objects
alive: the virtual machine, some fields of class objects, and virtual threads
that wait: JDK 21 omits their stacks, JDK 25 the values that compiled code keeps
without an object.

Exit status:
  0  the report was written, or the help or the version was requested
  1  refused: standard error has a line such as
     `heapmark: refused 5 BadSubTag at 49`, with the code, its name and, for a
     fault of the dump, its offset; standard output has nothing, or at
     20 WriteFault a beginning of the report
  2  the command line is wrong: standard error says why

The Java program writes the dump itself: a path that does not begin with / is
relative to the folder of that program.

Example:
  $ jcmd 4711 GC.heap_dump /tmp/app.hprof
  $ heapmark --workers 8 /tmp/app.hprof

See also, each with its --help:
  leaks    what holds what grew between dumps of a program, or most of one dump
  grown    which classes grew
  sizes    what the classes of a dump take in the heap
  holders  which fields hold the objects of a class
  held     what some fields hold
";

/// The version, and the logic with which it is proved.
pub const VERSION: &str = "heapmark 0.4.0
rattle logic dac8208d650f15bf
";

/// The message about a command line without any word, or with the program's name only.
pub const NO_FILE: &str = "error: the following required arguments were not provided:
  <FILE>

Usage: heapmark <FILE>

For more information, try '--help'.
";

/// The message about a command line with an option but without FILE.
pub const NO_FILE_BUT_WORKERS: &str = "error: the following required arguments were not provided:
  <FILE>

Usage: heapmark --workers <N> <FILE>

For more information, try '--help'.
";

/// The message about a second word that is no option.
pub const ANOTHER_WORD: &str = "error: unexpected argument 'b' found

Usage: heapmark [OPTIONS] <FILE>

For more information, try '--help'.
";

/// The message about an option that does not exist.
pub const UNKNOWN_OPTION: &str = "error: unexpected argument '--treads' found

  tip: to pass '--treads' as a value, use '-- --treads'

Usage: heapmark [OPTIONS] <FILE>

For more information, try '--help'.
";

/// The message about an option that does not exist, but whose name is like that of an option that does.
pub const ALMOST_AN_OPTION: &str = "error: unexpected argument '--worker' found

  tip: a similar argument exists: '--workers'

Usage: heapmark --workers <N> <FILE>

For more information, try '--help'.
";

/// The message about an option without a value.
pub const NO_VALUE: &str = "error: a value is required for '--workers <N>' but none was supplied

For more information, try '--help'.
";

/// The messages about options that are given twice.
pub const WORKERS_TWICE: &str = "error: the argument '--workers <N>' cannot be used multiple times

Usage: heapmark [OPTIONS] <FILE>

For more information, try '--help'.
";

pub const SKIP_TWICE: &str = "error: the argument '--skip <LIST>' cannot be used multiple times

Usage: heapmark [OPTIONS] <FILE>

For more information, try '--help'.
";

/// The messages about values of options that are out of range or no numbers.
pub const WORKERS_0: &str = "error: invalid value '0' for '--workers <N>': 0 is not in 1..=64

For more information, try '--help'.
";

pub const WORKERS_65: &str = "error: invalid value '65' for '--workers <N>': 65 is not in 1..=64

For more information, try '--help'.
";

pub const BUFFER_1: &str = "error: invalid value '1' for '--buffer <N>': 1 is not in 2..=4096

For more information, try '--help'.
";

pub const BUFFER_4097: &str =
    "error: invalid value '4097' for '--buffer <N>': 4097 is not in 2..=4096

For more information, try '--help'.
";

pub const BUFFERS_3: &str = "error: invalid value '3' for '--buffers <N>': 3 is not in 4..=65534

For more information, try '--help'.
";

pub const BUFFERS_65535: &str =
    "error: invalid value '65535' for '--buffers <N>': 65535 is not in 4..=65534

For more information, try '--help'.
";

pub const TAG_AFTER_THE_LAST: &str =
    "error: invalid value '281474976710656' for '--first-tag <N>': 281474976710656 is not in 0..=281474976710655

For more information, try '--help'.
";

pub const HEXADECIMAL_TAG: &str =
    "error: invalid value '0x10' for '--first-tag <N>': invalid digit found in string

For more information, try '--help'.
";
