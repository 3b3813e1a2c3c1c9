//! What `--help` says of a command behind the table of its options: what it reads and writes, its statuses, an example.

/// The sections of a command. `input`, `full` and `more` are lines of statuses that not each command has.
macro_rules! sections {
    (
        reads: $reads:literal,
        writes: $writes:literal,
        done: $done:literal,
        input: $input:literal,
        full: $full:literal,
        more: $more:literal,
        example: $example:literal $(,)?
    ) => {
        concat!(
            "Reads:\n",
            $reads,
            "\nWrites:\n",
            $writes,
            "\nStatus:\n  0  ",
            $done,
            "\n  1  Words that it doesn't take, or another number of files\n  2  The setup has a fault\n",
            $input,
            "  4  Memory was refused\n",
            $full,
            "  7  A file can't be read, or the output can't be written\n",
            $more,
            "\nExample:\n",
            $example,
        )
    };
}

/// The sections of a command over a capture.
macro_rules! over_capture {
    (
        writes: $writes:literal,
        done: $done:literal,
        more: $more:literal,
        example: $example:literal $(,)?
    ) => {
        sections!(
            reads: "  \
  The setup, then the capture: the lines of a whole bus, as candump -L writes
  them. Their stamps tell the time. With --interface the lines of other
  interfaces tell the time alone.
",
            writes: $writes,
            done: $done,
            input: "  3  A line of the capture has a fault\n",
            full: "",
            more: $more,
            example: $example,
        )
    };
}

/// The sections of a command over a log of each tester.
macro_rules! over_logs {
    (order: $order:literal, example: $example:literal $(,)?) => {
        sections!(
            reads: "  \
  The setup, then a log of each tester, in the order of the setup: lines as
  candump -L writes them, and tick lines, which pass time. With --stamps their
  stamps pass time, too.
",
            writes: $order,
            done: "The whole text was written",
            input: "  3  A log has a fault\n",
            full: "  5  The journal is full\n",
            more: "",
            example: $example,
        )
    };
}

/// Of the program.
pub const PROGRAM: &str = "\
Status:
  0  The whole text was written
  1  Words that it doesn't take, or another number of files
  2  The setup has a fault
  3  A log, a capture or a journal has a fault
  4  Memory was refused
  5  The journal is full
  7  A file can't be read, or the output can't be written
  8  The unit answered otherwise than the server, or an entry differs
  9  Nothing was compared

Example:
  uds_play bus demo/setup.toml demo/bus.log
  It ends with 0.

uds_play COMMAND --help says what a command reads and writes, its statuses,
and an example.";

/// Of `check`.
pub const CHECK: &str = sections!(
    reads: "  The setup alone.\n",
    writes: "  \
  A line for each fault, with its place, its value and what is allowed; a line
  for each key that is passed over, and for what is odd and yet no fault.
  \"nothing is wrong\" where there is none of these.
",
    done: "The setup has no fault",
    input: "",
    full: "",
    more: "",
    example: "  \
  uds_play check demo/setup.toml
  It ends with 0.",
);

/// Of `bus`.
pub const BUS: &str = over_capture!(
    writes: "  \
  A line for each frame that the server sends, as soon as the line that draws
  it was read. With --journal the journal, which replay takes. With --end the
  session, who holds it, and the DTCs.
",
    done: "The whole capture was answered",
    more: "",
    example: "  \
  uds_play bus demo/setup.toml demo/bus.log
  It ends with 0.",
);

/// Of `verify`.
pub const VERIFY: &str = over_capture!(
    writes: "  \
  At the end, for each tester, how many frames of the unit agree with those of
  the server. The first difference goes to standard error instead.
",
    done: "All frames of the unit agree",
    more: "  8  A frame differs, is missing or is one too many
  9  Nothing was compared
",
    example: "  \
  uds_play verify demo/setup.toml demo/other_unit.log
  It ends with 8: this unit answers otherwise.",
);

/// Of `compare`.
pub const COMPARE: &str = over_capture!(
    writes: "  \
  A line for each exchange once it is over: line, stamp, tester, kind, request,
  what the unit sent, what was expected (= where it agrees), milliseconds, and
  how often response pending came. At the end, for each tester, how many differ.
",
    done: "No exchange differs",
    more: "  8  An exchange differs
  9  Nothing was compared
",
    example: "  \
  uds_play compare demo/setup.toml demo/other_unit.log
  It ends with 8: this unit answers otherwise.",
);

/// Of `live`.
pub const LIVE: &str = sections!(
    reads: "  \
  The setup, then standard input: the lines of a whole bus, as candump -L writes
  them. The clock tells the time, and their stamps don't. With --interface the
  lines of other interfaces are passed over.
",
    writes: "  \
  A line for each frame that the server sends, as soon as its time has come.
  With --record the capture of the run, too, over which bus writes the same.
",
    done: "The input ended well",
    input: "  3  A line of the input has a fault\n",
    full: "",
    more: "",
    example: "  \
  uds_play live demo/setup.toml < demo/bus.log
  It ends with 0.",
);

/// Of `serial`.
pub const SERIAL: &str = over_logs!(
    order: "  \
  A line for each frame that the server sends, by tester; then the journal,
  which takes an event of each log in turn, and the end: the session, who holds
  it, and the DTCs. With --journal the journal alone, which replay takes.
",
    example: "  \
  uds_play serial demo/setup.toml demo/workshop.log demo/end_of_line.log
  It ends with 0.",
);

/// Of `play`.
pub const PLAY: &str = over_logs!(
    order: "  \
  A line for each frame that the server sends, by tester; then the journal,
  whose order may be another at the next run, and the end: the session, who
  holds it, and the DTCs. With --journal the journal alone, which replay takes.
",
    example: "  \
  uds_play play demo/setup.toml demo/workshop.log demo/end_of_line.log
  It ends with 0.",
);

/// Of `replay`.
pub const REPLAY: &str = sections!(
    reads: "  The setup, then the journal that bus, serial or play writes with --journal.\n",
    writes: "  \
  How many entries the journal has, and the end: the session, who holds it, and
  the DTCs. An entry that differs goes to standard error instead.
",
    done: "Each entry is the server's",
    input: "  3  The journal has a fault\n",
    full: "",
    more: "  8  An entry differs\n",
    example: "  \
  uds_play bus --journal demo/setup.toml demo/bus.log > journal
  uds_play replay demo/setup.toml journal
  It ends with 0.",
);
