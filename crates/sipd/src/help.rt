//! What `--help` and `--version` write.

pub const VERSION: &str = "sipd 0.1.0\n";

pub const HELP: &str = "\
sipd, a SIP Servlet container (JSR 289, RFC 3261)

usage: sipd replay CONFIG DAR SCRIPT
       sipd check [-v] CONFIG DAR
       sipd make N
       sipd trial N
       sipd serve CONFIG DAR
       sipd trace [--svg] CONFIG DAR SCRIPT
       sipd trace [--svg] --recording CONFIG DAR RECORDING
       sipd play CONFIG DAR RECORDING
       sipd explain WHAT NUMBER
       sipd --help
       sipd --version

replay runs a script: messages that arrive and turns that servlets take. It
writes a record for each message that is sent, a line `out PLACE N`, the N
bytes of the message and a line feed, and at the end the line
`end STEPS SENT LIVE`: how many steps were taken, messages sent, and
application sessions live on.

trace runs a script as replay does, and writes a picture of the run in place
of the records: a column for each place and application, an arrow for each
message from outside or to it, and a row for each turn and call. With --svg the
picture is an SVG file for a browser; with --recording it is that of a recording.

check reads a configuration and a routing table, and writes `ok A T`: how many
applications and how many tuples they have. With -v a line `warning: ..` follows
for each thing that is accepted and can't work, as a fork without a target.

make writes a script of N calls, N from 1 to 1000. trial runs that script with
settings of its own, and writes `trial N steps S sent M live L`, with the counts
of `end`.

serve listens at the address of the configuration for SIP over TCP. Standard
error has the line `sipd: listening A.B.C.D:PORT` once it does. On standard input it
takes the lines `list`, which is answered with the sessions that live, and
`drop H S`, which ends one of them.

Where the configuration has `record = \"FILE\"`, serve writes each step there; play
takes these steps again, with the servlets' turns, and writes a record for each
message that is sent, as replay does. It ends where another step is made than the
recorded one.

explain writes what a refusal means and how to mend it: WHAT is config, dar,
script or status, and NUMBER a kind, or the exit status.

CONFIG is a TOML text with the container's settings and its applications, each
of a kind: answer, block, forward, fork, recorder, b2b, dial, reverse, ringer,
early, timed, notify. DAR is the table of the Default Application Router.

The exit status, and the line on standard error:
   0                          all was read and written
   2  sipd: usage             the command line has another form
   3  sipd: config KIND KEY   the configuration is refused
   4  sipd: dar LINE KIND     the routing table is refused, at this line
   5  sipd: journal full      a step was due that the journal had no room for
   6  sipd: edge              the server could not listen
   7  sipd: no memory         want of memory
   8  sipd: script AT KIND    the script or recording is refused, at this byte
   9  sipd: read              a file could not be read
  10  sipd: write             the output or the recording could not be written
";
