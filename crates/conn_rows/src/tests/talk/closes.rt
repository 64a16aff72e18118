// How a talk ends by its client or by the server.
use super::super::Mode;
use super::rows_go;
use std::test::Fail;

const ROWS: &str = r"
== the client closes, and output after it is dropped
Started 5
    WantChild
    WantClient
Out 5 x\ny
    Says <x>
    WantChild
Closed
    EndInput
    Shut Done
Out 5 z\n
    WantChild
Ticks 19
Out 5 z\n
    WantChild
Ticks 1
    Kill
Out 5 z\n
Exited 5
    Release
== the client closes, and the child exits with its output open
Started 5
    WantChild
    WantClient
Closed
    EndInput
    Shut Done
Exited 5
Ticks 19
Ticks 1
    Release
Ticks 30
== the client closes, and the output ends in time
Started 5
    WantChild
    WantClient
Out 5 x
    WantChild
Closed
    EndInput
    Shut Done
Ticks 19
OutEnd 5
Ticks 19
Ticks 1
    Kill
Exited 5
== the client closes before what was fed is taken
Started 5
    WantChild
    WantClient
Message 0 a
    Feed <a\n>
Took 5 2
    WantClient
Closed
    EndInput
    Shut Done
Message 0 b
== a binary message
Started 5
    WantChild
    WantClient
Binary
    CloseWs 1003
    EndInput
    Kill
    Shut Done
Out 5 x\n
Exited 5
    Release
== a binary message when the input is gone
Started 5
    WantChild
    WantClient
InGone 5
Binary
    CloseWs 1003
    Kill
    Shut Done
Exited 5
    Release
== the client is gone within a line
Started 5
    WantChild
    WantClient
Message 0 a
    Feed <a\n>
Out 5 x
    WantChild
Gone
    EndInput
    Kill
    Shut Gone
Out 5 y\n
Exited 5
    Release
== a frame is refused
Started 5
    WantChild
    WantClient
Refused
    EndInput
    Kill
    Shut Gone
Exited 5
    Release
== there is no memory to hear the client
Started 5
    WantChild
    WantClient
NoRoom
    EndInput
    Kill
    Shut NoMemory
Exited 5
    Release
== the server stops
Started 5
    WantChild
    WantClient
Out 5 x\ny
    Says <x>
    WantChild
Stop
    EndInput
    Kill
    Shut Stopped
Exited 5
    Release
== the server stops before the child runs
Stop
    Shut Stopped
Started 5
    EndInput
    Kill
Exited 5
    Release
== a killed child that exits late is not killed again
Started 5
    WantChild
    WantClient
Gone
    EndInput
    Kill
    Shut Gone
Ticks 30
Exited 5
    Release
== the server stops while the child lingers
Started 5
    WantChild
    WantClient
OutEnd 5
    CloseWs 1000
    EndInput
    Shut Done
Ticks 5
Stop
    Kill
Exited 5
";

pub fn rows() -> &'static str {
    ROWS
}

#[test]
fn a_talk_ends_with_its_client(rt: HostRuntime) -> Result<(), Fail> {
    rows_go(&rt, rt.alloc(), rows(), Mode::Whole, 13)
}
