//! The exit statuses.

pub const TEXTS: [(&str, &str); 10] = [
    (
        "0",
        "\
status 0: done

All was read, run and written.
",
    ),
    (
        "2",
        "\
status 2: sipd: usage

The command line has none of the forms that sipd --help lists: another word, too
few or too many of them, a number out of its range, or a word that isn't UTF-8.
Nothing was read.
",
    ),
    (
        "3",
        "\
status 3: sipd: config KIND KEY

The configuration is refused, with its first fault. sipd explain config KIND
says what it means. Nothing was run.
",
    ),
    (
        "4",
        "\
status 4: sipd: dar LINE KIND

The routing table is refused at this line, counted from 1. sipd explain dar KIND
says what it means. Nothing was run.
",
    ),
    (
        "5",
        "\
status 5: sipd: journal full

A step was due that the journal has no room for. All that was sent before is
written.

Raise journal_steps or journal_bytes. A server that runs for long needs
epoch_steps and journal_parts = true; see docs/serving.md.
",
    ),
    (
        "6",
        "\
status 6: sipd: edge

The server can't listen at the address of the configuration, or the system's
clock can't be read. Mostly another program listens there, the address is none
of this machine, or the port is below 1024 and needs a right.
",
    ),
    (
        "7",
        "\
status 7: sipd: no memory

Memory ran out. What was written until then is a part from the front of the
output.
",
    ),
    (
        "8",
        "\
status 8: sipd: script AT KIND

The script is refused at this byte, counted from 0. sipd explain script KIND
says what it means. Nothing was run. head -c AT SCRIPT | tail -n 3 shows what
stands before it.
",
    ),
    (
        "9",
        "\
status 9: sipd: read

A file could not be read: it isn't there, it is a folder, or there is no right
to it.
",
    ),
    (
        "10",
        "\
status 10: sipd: write

Standard output could not be written: the disk is full, a limit on the size of a
file is reached, or whoever read it is gone. A part from the front of the output
was written. Of serve: the file that record names in the configuration could not
be written; it has a part from the front of the recording.
",
    ),
];
