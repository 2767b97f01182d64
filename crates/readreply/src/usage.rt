// What is said to whoever gives an argument, or a terminal to read from.
ghost use Rattle.std.specs.Prelude.{◌≡◌};
ghost use Rattle.readreply.specs.Usage.{usage_text};

pub(crate) fn usage() -> &'static [u8]
    ensures { result.now ≡ usage_text }
{
    b"readreply 0.3.0: reads standard input, a file or a pipe, and takes no argument\n\
usage: readreply < FILE\n\
or: { printf '\\225\\010'; cat CAPTURE; } | readreply\n\
The first two bytes say what was asked: a command, \\220 to \\230 for 90 to 98, and\n\
a number of cells or sensors, here 8, which only 95, 96 and 97 look at. Behind\n\
them comes what the line brought. Printed are a line of counts and the reading,\n\
or `refused N`; the exit status is 0 for both. docs/FIELD.md explains each line.\n"
}
