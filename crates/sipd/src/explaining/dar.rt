//! The kinds of `sipd: dar LINE KIND`.

pub const TEXTS: [(&str, &str); 10] = [
    (
        "1",
        "\
dar 1: no method

The line doesn't begin with a method and a colon, or an equals sign. Blanks may
not stand before the method. A line has this form:

    INVITE: (\"screen\", \"DAR:From\", \"NEUTRAL\", \"\", \"NO_ROUTE\", \"0\")

Put the colon. A line that goes on in the next one ends with a backslash.
",
    ),
    (
        "2",
        "\
dar 2: no tuples

Behind the colon there aren't tuples of six texts in double quotes: a quote, a
comma or a bracket is missing, or something stands behind a tuple. The six are
application, subscriber, region, route, modifier and order.

Write all six, with commas between them and between the tuples.
",
    ),
    (
        "3",
        "\
dar 3: no such region

The third text of a tuple is ORIGINATING, TERMINATING or NEUTRAL, in capitals.

Take one of them; NEUTRAL where it doesn't matter on whose behalf the
application works.
",
    ),
    (
        "4",
        "\
dar 4: no such modifier

The fifth text of a tuple is ROUTE, ROUTE_BACK or NO_ROUTE, in capitals. It says
what becomes of the route in the fourth text.

Take NO_ROUTE where the fourth text is empty.
",
    ),
    (
        "5",
        "\
dar 5: orders that don't count up

The sixth text of the first tuple of a method is 0, of the second 1, and so on,
each in quotes and without leading zeros.

Number the tuples in the order in which they stand.
",
    ),
    (
        "6",
        "\
dar 6: no such application

The first text of a tuple names an application that the configuration hasn't.
Names are compared byte for byte, with case.

Take the name of an [[app]], not its kind; or add the application.
",
    ),
    (
        "7",
        "\
dar 7: no route

The fourth text of a tuple is neither empty nor one sip: URI. It may stand in
angle brackets; blanks round it, and URIs of other schemes, are refused.

Write it as \"sip:10.0.0.7:5060;lr\", or leave it empty.
",
    ),
    (
        "8",
        "\
dar 8: too long

The routing table has more than 65536 bytes, and nothing of it was read; the
line is 0.

Shorten it.
",
    ),
    (
        "9",
        "\
dar 9: too many tuples

A method has more than 64 tuples. A request would pass through as many
applications, one after the other.

Shorten the list of this method.
",
    ),
    (
        "10",
        "\
dar 10: a second line of a method

An earlier line has this method already. All tuples of a method stand on one
line.

Join the lines: end the first with a comma and a backslash, and number the
tuples on.
",
    ),
];
