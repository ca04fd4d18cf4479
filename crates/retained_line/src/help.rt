//! Our texts in `--help`; clap makes the rest from the arguments. Their lines are broken by hand, for 80 columns: the
//! ported clap breaks no line.

/// The first paragraph of the help.
pub(crate) const ABOUT: &str = "\
Prints, for any number of labels on the references of a Java heap dump, which
objects each holds: those that are not reachable without the references that
have the label. One pass over the dump finds this for all labels at once.";

/// The help of the text of labels.
pub(crate) const LABELS: &str = "\
A text that says which references have which labels. Its line
`label 0 class 1795204 3` gives the label 0 to identifier number 3
of each object whose class has the identifier 1795204;
docs/LABELS.md has the other lines";

/// The paragraphs after the options.
pub(crate) const AFTER: &str = "\
The table, on standard output, has a line for each class and set of labels: the
number of objects, their bytes, the set, and the class. Each reachable object is
counted once, under exactly those labels that hold it. A set is a label, - for
none, or a number above all labels: a line `set N = A + B` before says that N
has the labels of A and those of B. What a label holds is the sum of the lines
whose sets have it.

Bytes are those in the dump: no headers and no padding, and 8 for each reference
of a 64-bit machine.

Exit status:
  0  the table was written, or the help or the version was requested
  1  refused: standard error has a line such as
     `retained: refused 5 BadSubTag at 49`, with the code, its name and, for a
     fault of the dump, its offset; 21 BadOptions: LABELS is no text of labels;
     standard output has nothing, or at 20 WriteFault a beginning of the table
  2  the command line is wrong: standard error says why

Example:
  $ jcmd 4711 GC.heap_dump /tmp/app.hprof
  $ echo 'label 0 class 1795204 3' > /tmp/app.labels
  $ retained /tmp/app.hprof /tmp/app.labels";
