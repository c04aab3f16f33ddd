//! The kinds of `sipd: script AT KIND`.

pub const TEXTS: [(&str, &str); 8] = [
    (
        "1",
        "\
script 1: no such line

At this byte begins a line that is none of in, turn, run, tick, lost, drop and
end, or it has too few or too many words. One blank stands between two words.

Where the line is a header of a message, the number of the in line before it is
too small: it counts all bytes of the message, and each of its lines ends with
CR and LF.
",
    ),
    (
        "2",
        "\
script 2: a number out of form or range

Numbers are decimals without sign and without leading zeros. The bytes of an in
line are 1 to 65536.

Mend the number.
",
    ),
    (
        "3",
        "\
script 3: no place

A place is c and the number of a connection that a peer opened, as c1, or an
address that the container connects to, as 10.0.0.7:5060.

Mend the word.
",
    ),
    (
        "4",
        "\
script 4: too few bytes

Behind an in line there are fewer bytes than it says, or no line feed stands
behind them.

Count the bytes of the message, with CR and LF at the end of each of its lines
and of the empty one, and put one line feed behind them.
",
    ),
    (
        "5",
        "\
script 5: a tick that goes back

The moments of tick lines rise. This one is below an earlier one.

Mend the moment; it counts from the beginning of the run, in milliseconds.
",
    ),
    (
        "6",
        "\
script 6: no end

The last line of a script is end, with its line feed, and nothing stands behind
it.

Add it, or drop what stands behind it.
",
    ),
    (
        "7",
        "\
script 7: too long

The script has more than 67108864 bytes, and nothing of it was read.

Cut it in two.
",
    ),
    (
        "8",
        "\
script 8: the recording goes on otherwise

play took the steps before this byte as they stand there, and then another step
was made than the recorded one, or none. What they send was written until there.

The configuration, the routing table or the program isn't the one that made the
recording, or its text was changed. Play it with the files that served then.
",
    ),
];
