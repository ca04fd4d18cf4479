//! Our texts in `--help`; clap makes the rest from the options. Their lines are broken by hand, for 80
//! columns: the ported clap breaks no line.

/// The first paragraph of the help.
pub(crate) const ABOUT: &str = "\
Marks the reachable objects of a Java heap dump with several threads, and prints
a histogram of them: for each class the number of its reachable objects and the
bytes of their fields or elements. An object is reachable if a path of
references joins a root to it.";

/// The help of `--workers`.
pub(crate) const WORKERS: &str = "Threads, 1 to 64";

/// The help of `--buffer`.
pub(crate) const BUFFER: &str = "Objects in one work buffer, 2 to 4096";

/// The help of `--buffers`.
pub(crate) const BUFFERS: &str = "\
Work buffers, 4 to 65534, and at least two for each
worker and two more";

/// The help of `--first-tag`.
pub(crate) const FIRST_TAG: &str = "\
First tag of the two stacks of buffers, 0 to
281474976710655; only tests of the last tags
need it";

/// The help of `--skip`.
pub(crate) const SKIP: &str = "\
Fields of instances that are not followed, 1 to 64 of
the form Class.field with commas between, as
java/lang/ref/Reference.referent";

/// The paragraphs after the options.
pub(crate) const AFTER: &str = "\
The report, on standard output, has a line for each class: the number of its
reachable objects, their bytes, and the class. The line with the most bytes is
the first. Three more lines count the reachable objects, the unreachable ones,
and the identifiers, in objects and in roots, that no object of the dump has.
Only the option --skip changes the report.

Bytes are those in the dump: no headers and no padding, and 8 for each reference
of a 64-bit machine. Dumps of all objects are those of jcmd with -all, of jmap
without live, and some at an OutOfMemoryError: there, most unreachable objects
are garbage. In other dumps, only what the dump omits keeps unreachable objects
alive: the virtual machine, some fields of class objects, and virtual threads
that wait: JDK 21 omits their stacks, JDK 25 the values that compiled code keeps
without an object.

Exit status:
  0  the report was written, or the help or the version was requested
  1  refused: standard error has a line such as
     `heapmark: refused 5 BadSubTag at 49`, with the code, its name and, for a
     fault of the dump, its offset; standard output has nothing, or at
     20 WriteFault a beginning of the report
  2  the command line is wrong: standard error says why

The Java program writes the dump itself: a path that does not begin with / is
relative to the folder of that program.

Example:
  $ jcmd 4711 GC.heap_dump /tmp/app.hprof
  $ heapmark --workers 8 /tmp/app.hprof

See also, each with its --help:
  leaks    what holds what grew between dumps of a program, or most of one dump
  grown    which classes grew
  sizes    what the classes of a dump take in the heap
  holders  which fields hold the objects of a class
  held     what some fields hold";
