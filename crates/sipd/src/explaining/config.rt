//! The kinds of `sipd: config KIND KEY`.

pub const TEXTS: [(&str, &str); 7] = [
    (
        "1",
        "\
config 1: not TOML

The configuration is no TOML text, or it isn't UTF-8. No key is named, as none
could be read. Often a quote, a bracket or a value is missing, as in

    listen =

Mend the text; a TOML checker names the line. Texts stand in double quotes, and
an application begins with a line [[app]] of its own.
",
    ),
    (
        "2",
        "\
config 2: a required key is missing

The key that the line names has to be there: listen, domain, salt, at least one
[[app]], and name and kind in each [[app]].

Add it. A key that stands below an [[app]] belongs to that application, so the
keys of the container go above the first one.
",
    ),
    (
        "3",
        "\
config 3: a value of another type or range

The value of the named key isn't what the key takes. Numbers stand without
quotes, texts in them:

    workers = 4
    listen = \"127.0.0.1:5060\"

workers is 1 to 32, stop_after and epoch_steps 0 to 1000000, journal_steps 1 to
1000000, journal_bytes 1 to 67108864, expires -1 to 10080; journal_parts and
reuse are true or false; record is the name of a file, not empty; salt has 1 to
16 letters and digits. Of a wrong entry of [hosts] the line names the host
itself.
",
    ),
    (
        "4",
        "\
config 4: two applications of one name

The named application stands twice. The routing table finds applications by
their names, so each has one of its own; two may have the same kind.

Rename one, and in the routing table too.
",
    ),
    (
        "5",
        "\
config 5: a kind that there isn't

An application asks for a kind that this program hasn't. It has answer, block,
forward, recorder, fork, b2b, reverse, dial, ringer, early, timed and notify,
in small letters.

Spell the kind so, or run the program that has it.
",
    ),
    (
        "6",
        "\
config 6: too long

The configuration has more than 65536 bytes, and nothing of it was read.

Shorten it. Long lists are mostly in [hosts] or in params.
",
    ),
    (
        "7",
        "\
config 7: a key that isn't known

The named key is none of this container: a slip of the pen, or one that stands
below an [[app]] and belongs above it. Nothing is passed over silently, so that
a setting which is misspelled doesn't go unnoticed.

Drop the key, or spell it right. docs/configuration.md has all keys.
",
    ),
];
