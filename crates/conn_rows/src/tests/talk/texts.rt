// Texts and lines: what is fed, and what is said.
use super::super::Mode;
use super::rows_go;
use std::test::Fail;

const ROWS: &str = r"
== texts, lines, and the end of the output
Started 5
    WantChild
    WantClient
Message 0 a
    Feed <a\n>
Took 5 2
    WantClient
Message 0
    Feed <\n>
Took 5 1
    WantClient
Message 0 b\nc
    Feed <b\nc\n>
Took 5 4
    WantClient
Out 5 x\r\n\ny
    Says <x><>
    WantChild
OutEnd 5
    Says <y>
    CloseWs 1000
    EndInput
    Shut Done
Exited 5
== a text is taken in parts, and output comes meanwhile
Started 5
    WantChild
    WantClient
Message 0 abc\r
    Feed <abc\r\n>
Took 5 3
Out 5 x
    WantChild
Took 5 1
Out 5 \n
    Says <x>
    WantChild
Took 5 1
    WantClient
Took 5 1
== a text before the first one is taken doesn't fit
Message 0 a
Started 5
    WantChild
    WantClient
Message 0 a
    Feed <a\n>
Message 0 b
Took 5 2
    WantClient
== the input is gone, and texts are heard and not fed
Started 5
    WantChild
    WantClient
Message 0 a
    Feed <a\n>
InGone 5
    WantClient
Message 0 b
    WantClient
Out 5 x\n
    Says <x>
    WantChild
OutEnd 5
    CloseWs 1000
    Shut Done
== the child has exited, and its output is still said
Started 5
    WantChild
    WantClient
Message 0 a
    Feed <a\n>
Exited 5
    WantClient
Message 0 b
    WantClient
Out 5 x\ny\n
    Says <x><y>
    WantChild
OutEnd 5
    CloseWs 1000
    EndInput
    Shut Done
== a text and a line as long as they may be
Started 5
    WantChild
    WantClient
MessageFill 0 65536
    Feed <65537 bytes>
Took 5 65537
    WantClient
OutFill 5 65536
    WantChild
Out 5 \n
    Says <65536 bytes>
    WantChild
OutFill 5 65536
    WantChild
OutEnd 5
    Says <65536 bytes>
    CloseWs 1000
    EndInput
    Shut Done
== what is of others, and a talk as long as it likes
Started 5
    WantChild
    WantClient
OtherGone 5
OutEnd 3
Ticks 1000
Message 0 a
    Feed <a\n>
Took 5 2
    WantClient
";

pub fn rows() -> &'static str {
    ROWS
}

#[test]
fn texts_become_lines_and_lines_messages(rt: HostRuntime) -> Result<(), Fail> {
    rows_go(&rt, rt.alloc(), rows(), Mode::Whole, 7)
}
